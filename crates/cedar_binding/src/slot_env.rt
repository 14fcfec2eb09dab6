//! Bindings: construction, lookup, copying, comparison and printing.
ghost use Rattle.std.specs.Prelude.{◌≡◌, ◌&&◌, true, Some, IfOk};
ghost use Rattle.std.specs.Fmt.{WritesOnOk};
ghost use Rattle.std.specs.List.{list_all};
ghost use Rattle.std.specs.Option.{option_copied, option_map};
ghost use Rattle.cedar_ids.specs.UidOf.{uid_parts};
ghost use Rattle.cedar_binding.specs.Bindings.{binds, no_env, bound_to};
ghost use Rattle.cedar_binding.specs.BindingTexts.{after_others, bindings_text, bound_before, bound_text, env_output};
ghost use Rattle.cedar_binding.specs.BindingTexts.{is_ascii_bound, binding_text};
ghost use Rattle.cedar_binding.specs.EnvEquality.{same_env};
ghost use Rattle.cedar_binding.specs.Views.{env_of};

use cedar_ids::entity::EntityUID;
use cedar_terms::slot::SlotId;
use std::alloc::{AllocError, Global};
use std::collections::HashMap;
use std::fmt;

/// The uids bound to the slots of a template.
pub type SlotEnv = HashMap<SlotId, EntityUID>;

/// Returns empty bindings. Does not allocate.
pub fn no_bindings(alloc: Global) -> SlotEnv
    ensures { env_of result ≡ no_env }
{
    HashMap::new(alloc)
}

/// Returns the uid bound to a slot, if it is bound. Does not allocate.
pub fn bound_to(values: &SlotEnv, id: SlotId) -> Option<&EntityUID>
    ensures { option_map uid_parts (option_copied result) ≡ bound_to (env_of values.now) id }
{
    // At most three slots are bound. A scan of them is cheaper than hashing one id.
    for (slot, uid) in values {
        if id == *slot {
            return Some(uid);
        }
    }
    None
}

/// Copies the bindings, with the locations of their uids.
///
/// # Errors
///
/// Returns `AllocError` if an allocation fails.
pub fn copy_of_bindings(values: &SlotEnv) -> Result<SlotEnv, AllocError>
    ensures { IfOk result (λ copy. env_of copy ≡ env_of values.now) }
{
    let copy = values.clone()?;
    Ok(copy)
}

/// Returns the same bindings in a smaller table, if possible. A new map with one binding has room for nine, each as
/// large as a uid. If the smaller table cannot be allocated, the larger one is kept, so this function always succeeds.
pub fn fitted_bindings(values: SlotEnv) -> SlotEnv
    ensures { env_of result ≡ env_of values }
{
    let mut values = values;
    values.shrink_to_fit();
    values
}

/// Returns whether both maps bind the same slots to equal uids, in any order of the maps. Ignores locations and does
/// not allocate.
pub fn same_bindings(one: &SlotEnv, other: &SlotEnv) -> bool
    ensures { result ≡ same_env (env_of one.now) (env_of other.now) }
{
    one == other
}

/// Bindings as a link prints them: `?slot -> uid`, in the order of slots, separated by commas without spaces.
///
/// An eid that is not ASCII is written as by `str::escape_debug`. Writing does not allocate.
#[derive(Debug, Drop)]
pub struct BindingPairs<'a>(pub &'a SlotEnv);

impl fmt::Display for BindingPairs<'_> {
    ghost output = { λ b. env_output (env_of b.0.now) };

    fn fmt<W: fmt::Write>(&self, f: &mut fmt::Formatter<W>) -> fmt::Result {
        write_bindings(self.0, &SlotId::ALL, f)
    }
}

// Writes the bindings of some slots.
fn write_bindings<W: fmt::Write>(
    values: &SlotEnv,
    ids: &[SlotId],
    f: &mut fmt::Formatter<W>,
) -> fmt::Result
    ensures { list_all (λ s. is_ascii_bound (bound_to (env_of values.now) s)) ids.now ≡ true
        → WritesOnOk W.write_str_gives f.old result (bindings_text (env_of values.now) ids.now) f.new }
{
    for id in ids {
        write_bound(values, *id, f)?;
    }
    Ok(())
}

// Writes the binding of a slot, if it is bound. Writes a comma first if a smaller slot is bound.
fn write_bound<W: fmt::Write>(
    values: &SlotEnv,
    id: SlotId,
    f: &mut fmt::Formatter<W>,
) -> fmt::Result
    ensures { is_ascii_bound (bound_to (env_of values.now) id) ≡ true
        → WritesOnOk W.write_str_gives f.old result
        (bound_text id (bound_before (env_of values.now) id) (bound_to (env_of values.now) id)) f.new }
{
    match bound_to(values, id) {
        None => Ok(()),
        Some(uid) => {
            let others = is_bound_before(values, id);
            write_next(others, id, uid, f)
        }
    }
}

// Returns whether a smaller slot is bound.
fn is_bound_before(values: &SlotEnv, id: SlotId) -> bool
    ensures { result ≡ bound_before (env_of values.now) id }
{
    SlotId::ALL
        .iter()
        .any(|other| *other < id && is_bound(values, *other))
}

// Returns whether a slot is bound.
pub(crate) fn is_bound(values: &SlotEnv, id: SlotId) -> bool
    ensures { result ≡ binds (env_of values.now) id }
{
    bound_to(values, id).is_some()
}

// Writes one binding, with a comma first if `others` is true.
fn write_next<W: fmt::Write>(
    others: bool,
    id: SlotId,
    uid: &EntityUID,
    f: &mut fmt::Formatter<W>,
) -> fmt::Result
    ensures { is_ascii_bound (Some (uid_parts uid.now)) ≡ true
        → WritesOnOk W.write_str_gives f.old result
        (after_others others (binding_text id (uid_parts uid.now))) f.new }
{
    if others {
        f.write_str(",")?;
    }
    write_binding(id, uid, f)
}

// Writes one binding.
fn write_binding<W: fmt::Write>(
    id: SlotId,
    uid: &EntityUID,
    f: &mut fmt::Formatter<W>,
) -> fmt::Result
    ensures { is_ascii_bound (Some (uid_parts uid.now)) ≡ true
        → WritesOnOk W.write_str_gives f.old result (binding_text id (uid_parts uid.now)) f.new }
{
    write!(f, "{id} -> {uid}")
}
