//! The search for all descendants of some uids.
ghost use Rattle.std.specs.Prelude.{◌≡◌, ◌+◌, ◌↔◌, ◌&&◌, ◌||◌, true, not, length, IfOk, OnOk};
ghost use Rattle.std.specs.HashMap.{get};
ghost use Rattle.std.specs.HashSet.{contains, hash_set_len};
ghost use Rattle.std.specs.Set.{is_member};
ghost use Rattle.cedar_ids.specs.UidOf.{same_uid};
ghost use Rattle.cedar_ids.specs.declared.entity.EntityUID.{EntityUID};
ghost use Rattle.cedar_children.specs.Children.{IsDescendantOrSelf, is_in};

use cedar_uid_sets::SharedUid;
use std::alloc::{AllocError, Global};
use std::collections::{HashMap, HashSet};
use std::hash::BuildHasher;

// Marks a uid as seen. If it is new, it is also queued, so that its children are visited later.
fn see<S: BuildHasher>(
    seen: &mut HashSet<SharedUid, S>,
    todo: &mut Vec<SharedUid>,
    uid: &SharedUid,
) -> Result<(), AllocError>
    ensures seen { OnOk result ((q : EntityUID) → contains same_uid seen.new q
        ≡ (contains same_uid seen.old q || same_uid uid.now q)) }
    ensures todo { OnOk result ((q : EntityUID) → is_member same_uid todo.new.items q
        ≡ (is_member same_uid todo.old.items q || (not (contains same_uid seen.old q) && same_uid uid.now q))) }
    ensures count { OnOk result (hash_set_len seen.new + length todo.old.items
        ≡ hash_set_len seen.old + length todo.new.items) }
{
    if seen.contains(uid) {
        return Ok(());
    }
    todo.push(uid.clone()?)?;
    seen.insert(uid.clone()?)?;
    Ok(())
}

// Marks each of the uids as seen.
fn see_all<S: BuildHasher>(
    seen: &mut HashSet<SharedUid, S>,
    todo: &mut Vec<SharedUid>,
    uids: &[SharedUid],
) -> Result<(), AllocError>
    ensures seen { OnOk result ((q : EntityUID) → contains same_uid seen.new q
        ≡ (contains same_uid seen.old q || is_member same_uid uids.now q)) }
    ensures todo { OnOk result ((q : EntityUID) → is_member same_uid todo.new.items q
        ≡ (is_member same_uid todo.old.items q || (not (contains same_uid seen.old q)
        && is_member same_uid uids.now q))) }
    ensures count { OnOk result (hash_set_len seen.new + length todo.old.items
        ≡ hash_set_len seen.old + length todo.new.items) }
{
    for uid in uids {
        see(seen, todo, uid)?;
    }
    Ok(())
}

// Marks each uid of a set as seen.
fn see_each<S: BuildHasher>(
    seen: &mut HashSet<SharedUid, S>,
    todo: &mut Vec<SharedUid>,
    uids: &HashSet<SharedUid, S>,
) -> Result<(), AllocError>
    ensures seen { OnOk result ((q : EntityUID) → contains same_uid seen.new q
        ≡ (contains same_uid seen.old q || contains same_uid uids.now q)) }
    ensures todo { OnOk result ((q : EntityUID) → is_member same_uid todo.new.items q
        ≡ (is_member same_uid todo.old.items q || (not (contains same_uid seen.old q)
        && contains same_uid uids.now q))) }
    ensures count { OnOk result (hash_set_len seen.new + length todo.old.items
        ≡ hash_set_len seen.old + length todo.new.items) }
{
    for uid in uids {
        see(seen, todo, uid)?;
    }
    Ok(())
}

// Marks the children of a uid as seen.
fn see_children<S: BuildHasher>(
    seen: &mut HashSet<SharedUid, S>,
    todo: &mut Vec<SharedUid>,
    sets: &HashMap<SharedUid, HashSet<SharedUid, S>, S>,
    uid: &SharedUid,
) -> Result<(), AllocError>
    ensures seen { OnOk result ((q : EntityUID) → contains same_uid seen.new q
        ≡ (contains same_uid seen.old q || is_in (get same_uid sets.now uid.now) q)) }
    ensures todo { OnOk result ((q : EntityUID) → is_member same_uid todo.new.items q
        ≡ (is_member same_uid todo.old.items q || (not (contains same_uid seen.old q)
        && is_in (get same_uid sets.now uid.now) q))) }
    ensures count { OnOk result (hash_set_len seen.new + length todo.old.items
        ≡ hash_set_len seen.old + length todo.new.items) }
{
    match sets.get(uid) {
        Some(set) => see_each(seen, todo, set),
        None => Ok(()),
    }
}

/// Lists the uids of a set, in the order of the set, without copying a uid.
///
/// # Errors
///
/// Returns `AllocError` if the allocation of the list fails.
///
/// # Complexity
///
/// O(n), where n is the number of uids. Allocates the list.
pub fn listed<S: BuildHasher>(
    alloc: Global,
    uids: &HashSet<SharedUid, S>,
) -> Result<Vec<SharedUid>, AllocError>
    ensures { IfOk result (λ v. v.items ≡ uids.now.keys) }
{
    let mut list = Vec::new(alloc);
    for uid in uids {
        list.push(uid.clone()?)?;
    }
    Ok(list)
}

// Returns the uids and all of their descendants.
pub(crate) fn walk<S: BuildHasher + Clone>(
    alloc: Global,
    sets: &HashMap<SharedUid, HashSet<SharedUid, S>, S>,
    uids: &HashSet<SharedUid, S>,
) -> Result<HashSet<SharedUid, S>, AllocError>
    ensures { IfOk result (λ s. (q : EntityUID) → (contains same_uid s q ≡ true)
        ↔ IsDescendantOrSelf (λ a b. is_in (get same_uid sets.now b) a) uids.now.keys q) }
{
    let from = listed(alloc, uids)?;
    let mut seen = HashSet::with_hasher(alloc, uids.hasher().clone()?);
    let mut todo = Vec::new(alloc);
    see_all(&mut seen, &mut todo, &from)?;
    drop(from);
    for _round in 0..usize::MAX {
        match todo.pop() {
            None => return Ok(seen),
            Some(uid) => see_children(&mut seen, &mut todo, sets, &uid)?,
        }
    }
    // This line is never reached: each round visits another uid of the set, and a set has fewer uids than there were
    // rounds. For the proof, this call states that it has fewer.
    let _fewer = seen.len();
    Ok(seen)
}
