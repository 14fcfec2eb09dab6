//! The positions of the slots that an error names in its text.
ghost use Rattle.std.specs.Prelude.{◌≡◌, ◌≤◌, ◌∷◌, ◌++◌, List, ℕ, length};
ghost use Rattle.std.specs.Option.{MatchOption};
ghost use Rattle.cedar_binding.specs.BindingTexts.{arity_text};
ghost use Rattle.cedar_terms.specs.declared.slot.SlotId.{SlotId};
ghost use Rattle.cedar_c_errors.specs.Named.{IsSlotIn};
ghost use Rattle.cedar_c_errors.specs.laws.Marks.{after_slots, after_slot, from_mark};

use cedar_c_lists::Span;

// Returns the text from its first `?` on, or an empty text.
#[tactic(auto, unfolding(crate::specs::laws::Marks::from_mark))]
fn from_mark(text: &[u8]) -> &[u8]
    ensures from { result.now ≡ from_mark text.now }
    ensures length { length result.now ≤ length text.now }
{
    let mut rest = text;
    while let Some((first, behind)) = rest.split_first() {
        if *first == b'?' {
            return rest;
        }
        rest = behind;
    }
    rest
}

// Returns the text after the first byte and the small letters that follow it.
#[tactic(auto, unfolding(crate::specs::laws::Marks::behind_letters))]
fn after_slot(text: &[u8]) -> &[u8]
    ensures behind { result.now ≡ after_slot text.now }
    ensures length { length result.now ≤ length text.now }
{
    let Some((_mark, mut rest)) = text.split_first() else {
        return text;
    };
    while let Some((first, behind)) = rest.split_first() {
        if !first.is_ascii_lowercase() {
            return rest;
        }
        rest = behind;
    }
    rest
}

// Returns the text after `count` slots.
#[tactic(auto, unfolding(crate::specs::laws::Marks::after_slots))]
fn after_slot_list(text: &[u8], count: usize) -> &[u8]
    ensures behind { result.now ≡ after_slots count text.now }
    ensures length { length result.now ≤ length text.now }
{
    let mut rest = text;
    for _ in 0..count {
        if rest.is_empty() {
            return rest;
        }
        rest = after_slot(from_mark(rest));
    }
    rest
}

// Returns the span of the slot at index `place`. The text of the error has its fixed words, `from` bytes long, and then
// the slots.
pub(crate) fn slot_part(text: &[u8], from: usize, place: usize) -> Option<Span>
    ensures { (unbound extra : List SlotId) → (words : List ℕ) → length words ≡ from
        → text.now ≡ words ++ (32 ∷ arity_text unbound extra)
        → MatchOption result (length (unbound ++ extra) ≤ place) (IsSlotIn text.now (unbound ++ extra) place) }
{
    let names = text.get(from..)?;
    let rest = from_mark(after_slot_list(names, place));
    if rest.is_empty() {
        return None;
    }
    let behind = after_slot(rest);
    Some(Span {
        start: text.len() - rest.len(),
        end: text.len() - behind.len(),
    })
}
