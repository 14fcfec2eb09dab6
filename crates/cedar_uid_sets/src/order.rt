//! Searches among ascending uids.
ghost use Rattle.std.specs.Prelude.{◌≡◌, MatchResult, IsTrue, length, false};
ghost use Rattle.std.specs.List.{list_any};
ghost use Rattle.std.specs.Set.{is_member};
ghost use Rattle.cedar_ids.specs.UidOf.{same_uid, uid_order};
ghost use Rattle.cedar_uid_sets.specs.UidSets.{Ascend};
ghost use Rattle.cedar_uid_sets.specs.laws.Fronts.{same_numbers};
ghost use Rattle.cedar_uid_sets.specs.laws.Places.{IsPlaceOf, IsGapFor};

use crate::fronts::{Key, are_same, have_same_numbers, order_of};
use crate::shared_uid::SharedUid;
use cedar_ids::entity::EntityUID;
use std::cmp::Ordering;

// Up to this number of uids are compared one by one, which is faster than a binary search.
const FEW: usize = 16;

// Compares a shared uid with the uid to look up.
pub(crate) fn order(shared: &SharedUid, uid: &Key<'_>) -> Ordering
    ensures { result ≡ uid_order shared.now uid.now }
{
    order_of(&shared.key(), uid)
}

// Checks whether the uid is greater than all of the uids. May return `false` also if it is.
fn is_past_all(uids: &[SharedUid], uid: &Key<'_>) -> bool
    requires { Ascend uids.now }
    ensures { IsTrue result → IsGapFor uids.now uid.now (length uids.now) }
{
    let Some(last) = uids.last() else {
        return true;
    };
    order(last, uid).is_lt()
}

// Returns the position of the uid, or the position at which it would be inserted.
pub(crate) fn place(uids: &[SharedUid], uid: &Key<'_>) -> Result<usize, usize>
    requires { Ascend uids.now }
    ensures { MatchResult result (IsPlaceOf uids.now uid.now) (IsGapFor uids.now uid.now) }
{
    uids.binary_search_by(|shared| order(shared, uid))
}

// Returns the position of the uid, or the position at which it would be inserted. Tries the end first, because most
// inserts go there.
pub(crate) fn place_from_end(uids: &[SharedUid], uid: &Key<'_>) -> Result<usize, usize>
    requires { Ascend uids.now }
    ensures { MatchResult result (IsPlaceOf uids.now uid.now) (IsGapFor uids.now uid.now) }
{
    if is_past_all(uids, uid) {
        return Err(uids.len());
    }
    place(uids, uid)
}

// Checks whether one of the uids has the numbers of the uid. If not, the uid is not among them.
#[inline(always)]
fn has_numbers(uids: &[SharedUid], uid: &Key<'_>) -> bool
    ensures { result ≡ list_any (same_numbers uid.now) uids.now }
{
    uids.iter()
        .any(|shared| have_same_numbers(uid, &shared.key()))
}

// Returns `false` only if the uid is not among the uids. If there are few uids, comparing the numbers mostly shows
// that.
#[inline(always)]
pub(crate) fn may_contain(uids: &[SharedUid], uid: &Key<'_>) -> bool
    ensures { (result ≡ false) → is_member same_uid uids.now uid.now ≡ false }
{
    uids.len() > FEW || has_numbers(uids, uid)
}

// Checks whether the uid is among the uids, by comparing one by one.
fn is_listed(uids: &[SharedUid], uid: &Key<'_>) -> bool
    ensures { result ≡ is_member same_uid uids.now uid.now }
{
    uids.iter().any(|shared| are_same(uid, &shared.key()))
}

// Checks whether the uid is among the uids, by binary search.
fn is_found(uids: &[SharedUid], uid: &Key<'_>) -> bool
    requires { Ascend uids.now }
    ensures { result ≡ is_member same_uid uids.now uid.now }
{
    match place(uids, uid) {
        Ok(_at) => true,
        Err(_at) => false,
    }
}

// Checks whether the uid is among the uids.
pub(crate) fn is_one_of(uids: &[SharedUid], uid: &Key<'_>) -> bool
    requires { Ascend uids.now }
    ensures { result ≡ is_member same_uid uids.now uid.now }
{
    if uids.len() <= FEW {
        return is_listed(uids, uid);
    }
    is_found(uids, uid)
}

/// Checks whether two uids are equal. Compares the eids first: uids of one type differ in them. Does not allocate.
pub fn are_equal(one: &EntityUID, other: &EntityUID) -> bool
    ensures { result ≡ same_uid one.now other.now }
{
    one.eid().as_ref() == other.eid().as_ref() && one == other
}

// Checks whether a plain uid is among the uids, without computing its numbers.
fn has_plain(uids: &[SharedUid], uid: &EntityUID) -> bool
    ensures { result ≡ is_member same_uid uids.now uid.now }
{
    uids.iter().any(|shared| are_equal(uid, shared.uid()))
}

// Checks whether a plain uid is among the uids. Computes its numbers only if there are many uids.
pub(crate) fn has(uids: &[SharedUid], uid: &EntityUID) -> bool
    requires { Ascend uids.now }
    ensures { result ≡ is_member same_uid uids.now uid.now }
{
    if uids.len() <= FEW {
        return has_plain(uids, uid);
    }
    is_one_of(uids, &Key::of(uid))
}
