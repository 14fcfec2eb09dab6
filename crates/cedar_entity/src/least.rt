//! The least uid of a set that passes a test.
ghost use Rattle.std.specs.Prelude.{◌≡◌, not, ◌&&◌};
ghost use Rattle.std.specs.FinSet as set;
ghost use Rattle.std.specs.List.{find};
ghost use Rattle.std.specs.Option.{option_copied};
ghost use Rattle.cedar_entity.specs.laws.Least.{LeastOf};
ghost use Rattle.cedar_entity.specs.Validity.{is_action};

use cedar_ids::entity::EntityUID;
use cedar_uid_sets::{SharedUid, UidSet};

// Returns the first of the uids that is also in the other set.
fn first_common<'a>(uids: &'a [SharedUid], other: &UidSet) -> Option<&'a SharedUid>
    ensures { option_copied result ≡ find (set.contains other.now) uids.now }
{
    uids.iter().find(|shared| other.contains_shared(shared))
}

// Returns the first of the uids that is not an action.
fn first_non_action(uids: &[SharedUid]) -> Option<&SharedUid>
    ensures { option_copied result ≡ find (λ q. not (is_action q)) uids.now }
{
    uids.iter().find(|shared| !shared.uid().is_action())
}

// Returns the least uid that is in both sets. The uids of `one` are ascending, so the first one that is in `other` is
// the least.
pub(crate) fn least_common<'a>(one: &'a UidSet, other: &UidSet) -> Option<&'a EntityUID>
    ensures { LeastOf
        (λ q. set.contains one.now q && set.contains other.now q)
        (option_copied result) }
{
    match first_common(one.pointers(), other) {
        Some(shared) => Some(shared.uid()),
        None => None,
    }
}

// Returns the least uid of a set that is not an action.
pub(crate) fn least_non_action(uids: &UidSet) -> Option<&EntityUID>
    ensures { LeastOf (λ q. set.contains uids.now q && not (is_action q)) (option_copied result) }
{
    match first_non_action(uids.pointers()) {
        Some(shared) => Some(shared.uid()),
        None => None,
    }
}
