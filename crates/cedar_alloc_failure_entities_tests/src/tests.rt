// Helpers that create the arguments of test cases. They pass values as `Option`, where `None` means that the value
// could not be created. Helpers that inspect a value drop it.
mod children;
mod closing;
mod diffs;
mod entities;
mod ids;
mod listed;
mod looking;
mod nodes;
mod parts;
mod queries;
mod reads;
mod steps;
mod stores;
mod terms;
mod uid_sets;
mod uids;
mod values;
mod worked;

use cedar_alloc_failures::{joined, owned, with_last, with_word};
use cedar_ids::entity::{Eid, EntityType, EntityUID};
use cedar_ids::loc::Loc;
use cedar_ids::name::Name;
use cedar_uid_sets::{SharedUid, UidSet, Uids};
use std::alloc::Global;
use std::collections::HashSet;
use std::rc::RcStr;

fn named(alloc: Global, text: &str) -> Option<Name> {
    Name::from_normalized_str(alloc, text).ok()
}

fn typed(alloc: Global, text: &str) -> Option<EntityType> {
    EntityType::from_normalized_str(alloc, text).ok()
}

fn eid(alloc: Global, text: &str) -> Option<Eid> {
    match owned(alloc, text) {
        Some(text) => Some(Eid::new(text)),
        None => None,
    }
}

fn uid(alloc: Global, text: &str) -> Option<EntityUID> {
    EntityUID::from_normalized_str(alloc, text).ok()
}

// Returns a location of one character.
fn place(alloc: Global) -> Option<Loc> {
    match RcStr::from_str(alloc, "a text") {
        Ok(src) => Some(Loc::new(0, 1, src)),
        Err(_) => None,
    }
}

// Returns the uid of type `A` with this eid. `B.x` is the uid with type `B` and eid `x`.
fn uid_of(alloc: Global, name: &str) -> Option<EntityUID> {
    let (ty, eid) = name.split_once('.').unwrap_or(("A", name));
    match format!(in alloc; "{ty}::\"{eid}\"") {
        Ok(text) => {
            let made = EntityUID::from_normalized_str(alloc, text.as_str()).ok();
            drop(text);
            made
        }
        Err(_) => None,
    }
}

// Returns the shared uid with this name.
fn shared(alloc: Global, name: &str) -> Option<SharedUid> {
    match uid_of(alloc, name) {
        Some(uid) => SharedUid::new(alloc, uid).ok(),
        None => None,
    }
}

// Returns a list of shared uids.
fn pointers(alloc: Global, names: &str) -> Option<Vec<SharedUid>> {
    let mut all = Some(Vec::new(alloc));
    for name in names.split_whitespace() {
        all = with_last(all, shared(alloc, name));
    }
    all
}

// Returns a hash set of uids.
fn hashed(alloc: Global, names: &str) -> Option<HashSet<EntityUID>> {
    let mut all = Some(HashSet::new(alloc));
    for name in names.split_whitespace() {
        all = joined(all, uid_of(alloc, name));
    }
    all
}

// Returns a `UidSet` of uids.
fn set_of(alloc: Global, names: &str) -> Option<UidSet> {
    match hashed(alloc, names) {
        Some(uids) => UidSet::from_set(alloc, uids).ok(),
        None => None,
    }
}

// Returns the eids of uids, in order.
fn eids(alloc: Global, uids: Uids<'_>) -> Option<String> {
    let mut text = Some(String::new(alloc));
    for uid in uids {
        text = with_word(text, uid.eid().as_ref());
    }
    text
}

// Returns whether the eids of uids, in order, are the expected ones.
fn has_eids(alloc: Global, uids: Uids<'_>, want: &str) -> bool {
    match eids(alloc, uids) {
        Some(text) => {
            let told = text.as_str().trim() == want;
            drop(text);
            told
        }
        None => false,
    }
}
