//! Removal of values from a stack.
ghost use Rattle.std.specs.Prelude.{◌≡◌, ◌++◌, ◌∷◌, [], length, map, MatchResult, string_bytes, ℕ, List};
ghost use Rattle.cedar_c_lists.specs.declared.reason.Reason.TheVariants.{BadArgument};
ghost use Rattle.cedar_terms.specs.LiteralTree.{string_literal};
ghost use Rattle.cedar_terms.specs.ValueTree.{ValueTree, literal_value};
ghost use Rattle.cedar_terms.specs.ValueViews.{named_pairs};
ghost use Rattle.cedar_c_trees.specs.Items.{pairs_listed};
ghost use Rattle.cedar_c_trees.specs.laws.Stacks.{AreNoPairs, AreTooFew, is_text_value, IsNoText, IsNoTextOn, IsNotOne};

use cedar_c_lists::Reason;
use cedar_terms::{Literal, Value, ValueKind};
use std::alloc::Global;

/// Pops the last value off a stack.
pub(crate) fn popped(stack: &mut Vec<Value>) -> Result<Value, Reason>
    ensures { MatchResult result (λ v. stack.old.items ≡ stack.new.items ++ v ∷ [])
        (λ w. (w ≡ BadArgument) × (stack.old.items ≡ [])) }
{
    match stack.pop() {
        Some(value) => Ok(value),
        None => Err(Reason::BadArgument),
    }
}

// Returns the text of a value.
fn text_of(value: Value) -> Result<String, Reason>
    ensures { MatchResult result (λ s. value ≡ literal_value (string_literal (string_bytes s)))
        (IsNoText (is_text_value value)) }
{
    let Value { value, loc: _loc } = value;
    match value {
        ValueKind::Lit(Literal::String(text)) => Ok(text),
        _ => Err(Reason::BadArgument),
    }
}

/// Pops the last value off a stack, which must be a text.
pub(crate) fn popped_text(stack: &mut Vec<Value>) -> Result<String, Reason>
    ensures { MatchResult result
        (λ s. stack.old.items ≡ stack.new.items ++ literal_value (string_literal (string_bytes s)) ∷ [])
        (IsNoTextOn (map is_text_value stack.old.items)) }
{
    let value = popped(stack)?;
    let text = text_of(value)?;
    Ok(text)
}

/// Pops the last `count` values off a stack, in order.
pub(crate) fn popped_values(
    alloc: Global,
    stack: &mut Vec<Value>,
    count: usize,
) -> Result<Vec<Value>, Reason>
    ensures { MatchResult result
        (λ vs. (stack.old.items ≡ stack.new.items ++ vs.items) × (length vs.items ≡ count))
        (AreTooFew stack.old.items count) }
{
    let mut values = Vec::new(alloc);
    for _step in 0..count {
        let value = popped(stack)?;
        values.push(value)?;
    }
    values.reverse();
    Ok(values)
}

/// Pops the last `count` pairs off a stack, in order.
pub(crate) fn popped_pairs(
    alloc: Global,
    stack: &mut Vec<Value>,
    count: usize,
) -> Result<Vec<(String, Value)>, Reason>
    ensures { MatchResult result
        (λ ps. (stack.old.items ≡ stack.new.items ++ pairs_listed (named_pairs ps.items))
        × (length ps.items ≡ count))
        (AreNoPairs count (map is_text_value stack.old.items)) }
{
    let mut pairs = Vec::new(alloc);
    for _step in 0..count {
        let value = popped(stack)?;
        let key = popped_text(stack)?;
        pairs.push((key, value))?;
    }
    pairs.reverse();
    Ok(pairs)
}

/// Returns the only value on a stack.
pub(crate) fn alone(stack: Vec<Value>) -> Result<Value, Reason>
    ensures { MatchResult result (λ v. stack.items ≡ v ∷ []) (IsNotOne stack.items) }
{
    let mut stack = stack;
    let Some(value) = stack.pop() else {
        return Err(Reason::BadArgument);
    };
    if stack.is_empty() {
        Ok(value)
    } else {
        Err(Reason::BadArgument)
    }
}
