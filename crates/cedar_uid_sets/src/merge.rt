//! Vectors of shared uids: conversion from a hash set, and merging of two vectors.
ghost use Rattle.std.specs.Prelude.{◌≡◌, ◌+◌, ◌≤◌, ◌++◌, [], IfOk};
ghost use Rattle.std.specs.List.{IsDistinct};
ghost use Rattle.std.specs.Vec.{vec_len, vec_capacity};
ghost use Rattle.std.specs.VecDeque.{deque_len};
ghost use Rattle.cedar_ids.specs.UidOf.{same_uid};
ghost use Rattle.cedar_uid_sets.specs.laws.Merged.{merged, below, above};

use crate::fronts::Key;
use crate::order::order;
use crate::shared_uid::SharedUid;
use cedar_ids::entity::EntityUID;
use std::alloc::{AllocError, Global};
use std::cmp::Ordering;
use std::collections::{HashSet, VecDeque};
use std::hash::BuildHasher;

// Moves the uids of a set into shared pointers.
pub(crate) fn shared<S: BuildHasher + Drop>(
    alloc: Global,
    uids: HashSet<EntityUID, S>,
) -> Result<Vec<SharedUid>, AllocError>
    ensures uids { IfOk result (λ v. v.items ≡ uids.keys) }
    ensures once { IsDistinct same_uid uids.keys }
{
    let mut shared = Vec::with_capacity(alloc, uids.len())?;
    for uid in uids {
        shared.push(SharedUid::new(alloc, uid)?)?;
    }
    Ok(shared)
}

// Moves the uids that are less than `uid` from the front of the queue to the end of the vector. Drops the next uid if
// it is equal to `uid`.
fn shift_lower(queue: &mut VecDeque<SharedUid>, uid: &Key<'_>, to: &mut Vec<SharedUid>)
    requires { vec_len to.old + deque_len queue.old ≤ vec_capacity to.old }
    ensures moved { to.new.items ≡ to.old.items ++ below uid.now queue.old.items }
    ensures left { queue.new.items ≡ above uid.now queue.old.items }
    ensures len { vec_len to.new + deque_len queue.new ≤ vec_len to.old + deque_len queue.old }
    ensures capacity { vec_capacity to.new ≡ vec_capacity to.old }
{
    while let Some(next) = queue.front() {
        let at = order(next, uid);
        if at.is_gt() {
            return;
        }
        let Some(next) = queue.pop_front() else {
            return;
        };
        if at.is_eq() {
            return;
        }
        to.push_reserved(next);
    }
}

// Moves the whole queue to the end of the vector.
fn move_all(queue: VecDeque<SharedUid>, to: &mut Vec<SharedUid>)
    requires { vec_len to.old + deque_len queue ≤ vec_capacity to.old }
    ensures { to.new.items ≡ to.old.items ++ queue.items }
{
    for next in queue {
        to.push_reserved(next);
    }
}

// Merges two ascending vectors into `room`, which is empty and has enough capacity. If both contain a uid, the pointer
// of the second is kept.
pub(crate) fn merge(
    room: Vec<SharedUid>,
    left: Vec<SharedUid>,
    right: Vec<SharedUid>,
) -> Vec<SharedUid>
    requires empty { room.items ≡ [] }
    requires room { vec_len left + vec_len right ≤ vec_capacity room }
    ensures { result.items ≡ merged left.items right.items }
{
    let mut to = room;
    let mut left = VecDeque::from_vec(left);
    let mut right = VecDeque::from_vec(right);
    while let Some(shared) = right.pop_front() {
        shift_lower(&mut left, &shared.key(), &mut to);
        to.push_reserved(shared);
    }
    move_all(left, &mut to);
    to
}
