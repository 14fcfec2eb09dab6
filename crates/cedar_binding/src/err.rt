//! The errors of linking a template.
ghost use Rattle.std.specs.Prelude.{◌≡◌, Some, ◌∷◌};
ghost use Rattle.std.specs.Fmt.{WritesOnOk};
ghost use Rattle.std.specs.List.{flat_map};
ghost use Rattle.cedar_binding.specs.BindingTexts.{slots_text, slot_after_comma, unbound_text, arity_text};
ghost use Rattle.cedar_binding.specs.declared.err.LinkingError.TheVariants.{Memory};

use cedar_ids::entity::EntityUID;
use cedar_ids::policy_id::PolicyID;
use cedar_terms::slot::SlotId;
use std::alloc::{AllocError, AllocFailed};
use std::fmt;
use thiserror::Error;

/// The reason why a template could not be linked.
///
/// Two errors are equal if they have the same variant and equal content. `clone` allocates copies of the lists and of
/// the id's text.
///
/// # Differences from cedar-policy-core
///
/// The original has no variant for allocation failures.
#[derive(Clone, Debug, Drop, PartialEq, Eq, Error)]
pub enum LinkingError {
    /// The bound ids are not the ids of the template's slots.
    #[error("{}", ArityText {unbound: .unbound_values, extra: .extra_values})]
    ArityError {
        /// The slots of the template that are not bound, in their order and with repetitions.
        unbound_values: Vec<SlotId>,
        /// The bound ids that are not slots of the template, in the order of ids.
        extra_values: Vec<SlotId>,
    },
    /// The action's slot is bound to a uid that is not an action.
    ///
    /// # Differences from cedar-policy-core
    ///
    /// The original has no slot for the action.
    #[error("the action slot is bound to `{uid}`, which is not an action")]
    NotAnAction {
        /// The uid bound to the slot.
        uid: EntityUID,
    },
    /// There is no template with this id.
    #[error("failed to find a template with id `{id}`")]
    NoSuchTemplate {
        /// The requested id.
        id: PolicyID,
    },
    /// A policy with the id of the new link already exists.
    #[error("template-linked policy id `{id}` conflicts with an existing policy id")]
    PolicyIdConflict {
        /// The id.
        id: PolicyID,
    },
    /// An allocation failed.
    #[error("out of memory")]
    Memory,
}

impl From<AllocError> for LinkingError {
    ghost from_gives = { λ _ e. e ≡ Memory };

    fn from(_error: AllocError) -> LinkingError {
        LinkingError::Memory
    }
}

impl<T: Drop> From<AllocFailed<T>> for LinkingError {
    ghost from_gives = { λ _ e. e ≡ Memory };

    fn from(_error: AllocFailed<T>) -> LinkingError {
        LinkingError::Memory
    }
}

/// The two lists of an `ArityError`, as its message shows them. An empty list is not mentioned. If both lists are
/// empty, the text is that for unbound slots. Writing does not allocate.
///
/// # Differences from cedar-policy-core
///
/// If both lists are empty, the original panics.
#[derive(Debug, Drop)]
pub struct ArityText<'a> {
    /// The slots that are not bound.
    pub unbound: &'a Vec<SlotId>,
    /// The bound ids that are not slots.
    pub extra: &'a Vec<SlotId>,
}

impl fmt::Display for ArityText<'_> {
    ghost output = { λ a. Some (arity_text a.unbound.now.items a.extra.now.items) };

    fn fmt<W: fmt::Write>(&self, f: &mut fmt::Formatter<W>) -> fmt::Result {
        write_arity(self.unbound.as_slice(), self.extra.as_slice(), f)
    }
}

// Writes the two lists, each with an explanation.
fn write_arity<W: fmt::Write>(
    unbound: &[SlotId],
    extra: &[SlotId],
    f: &mut fmt::Formatter<W>,
) -> fmt::Result
    ensures { WritesOnOk W.write_str_gives f.old result (arity_text unbound.now extra.now) f.new }
{
    match extra.split_first() {
        None => write_unbound(unbound, f),
        Some((first, rest)) => write_extra(unbound, *first, rest, f),
    }
}

// Writes the slots that are not bound.
fn write_unbound<W: fmt::Write>(unbound: &[SlotId], f: &mut fmt::Formatter<W>) -> fmt::Result
    ensures { WritesOnOk W.write_str_gives f.old result (unbound_text unbound.now) f.new }
{
    f.write_str("the following slots were not provided as arguments: ")?;
    write_slots(unbound, f)
}

// Writes the ids that are not slots, after the slots that are not bound, if there are any.
fn write_extra<W: fmt::Write>(
    unbound: &[SlotId],
    first: SlotId,
    rest: &[SlotId],
    f: &mut fmt::Formatter<W>,
) -> fmt::Result
    ensures { WritesOnOk W.write_str_gives f.old result (arity_text unbound.now (first ∷ rest.now)) f.new }
{
    match unbound.split_first() {
        None => {
            f.write_str(
                "the following slots were provided as arguments, but did not exist in the template: ",
            )?;
            write_listed(first, rest, f)
        }
        Some(_) => {
            write_unbound(unbound, f)?;
            f.write_str(
                ". The following slots were provided as arguments, but did not exist in the template: ",
            )?;
            write_listed(first, rest, f)
        }
    }
}

// Writes some slots, separated by commas.
fn write_slots<W: fmt::Write>(slots: &[SlotId], f: &mut fmt::Formatter<W>) -> fmt::Result
    ensures { WritesOnOk W.write_str_gives f.old result (slots_text slots.now) f.new }
{
    match slots.split_first() {
        None => Ok(()),
        Some((first, rest)) => write_listed(*first, rest, f),
    }
}

// Writes a slot, and then others with a comma before each.
fn write_listed<W: fmt::Write>(
    first: SlotId,
    rest: &[SlotId],
    f: &mut fmt::Formatter<W>,
) -> fmt::Result
    ensures { WritesOnOk W.write_str_gives f.old result (slots_text (first ∷ rest.now)) f.new }
{
    write!(f, "{first}")?;
    write_more(rest, f)
}

// Writes each slot with a comma before it.
fn write_more<W: fmt::Write>(slots: &[SlotId], f: &mut fmt::Formatter<W>) -> fmt::Result
    ensures { WritesOnOk W.write_str_gives f.old result (flat_map slot_after_comma slots.now) f.new }
{
    for slot in slots {
        write!(f, ",{slot}")?;
    }
    Ok(())
}
