// Tests of edits on a store with many entities, which builds its index of children at the seventeenth edit. A case has
// the number of edits before the call, and the call. The result must be that with enough memory.
use super::stores::{next, step};
use super::uid_of;
use cedar_alloc_failures::{
    CallOutcome, Calls, Row, both, check_failures, judged, unmade, with_last,
};
use cedar_entities::entities::{Entities, TCComputation};
use cedar_entity::entity::Entity;
use cedar_ids::entity::EntityUID;
use std::alloc::{AllocError, Global};

// The number of descendants of the uid `t`.
const MANY: u8 = 44;

fn numbered(alloc: Global, number: u8) -> Option<EntityUID> {
    let eid: Result<String, AllocError> = number.to_string(alloc);
    match eid {
        Ok(eid) => {
            let uid = uid_of(alloc, eid.as_str());
            drop(eid);
            uid
        }
        Err(_) => None,
    }
}

fn with_parent(entity: Entity, parent: EntityUID) -> Option<Entity> {
    let mut entity = entity;
    let added: Result<(), AllocError> = entity.add_parent(parent);
    match added {
        Ok(()) => Some(entity),
        Err(_) => {
            drop(entity);
            None
        }
    }
}

fn below_t(alloc: Global, number: u8) -> Option<Entity> {
    match both(numbered(alloc, number), uid_of(alloc, "t")) {
        Some((uid, parent)) => with_parent(Entity::with_uid(alloc, uid), parent),
        None => None,
    }
}

fn many(alloc: Global) -> Option<Vec<Entity>> {
    let mut all = Some(Vec::new(alloc));
    for number in 0..MANY {
        all = with_last(all, below_t(alloc, number));
    }
    all
}

// Returns the store after this many edits.
pub(super) fn edited(alloc: Global, edits: &str) -> Option<Entities> {
    let mut store = match many(alloc) {
        Some(list) => Entities::from_entities(alloc, list, TCComputation::ComputeNow).ok(),
        None => None,
    };
    for _edit in 0..edits.trim().parse().unwrap_or(0_u8) {
        store = next(alloc, store, "upsert: x 1");
    }
    store
}

// Runs a call on a store, while the allocation with this number is forced to fail.
fn compared(
    alloc: Global,
    number: usize,
    store: Entities,
    due: Entities,
    row: Row<'_>,
) -> CallOutcome {
    let (_edits, call) = row.given.split_once(';').unwrap_or((row.given, ""));
    let tried = match step(alloc, number, store, call.trim()) {
        Some(outcome) => judged(alloc, outcome, row.want, |store| store.deep_eq(&due)),
        None => unmade(),
    };
    drop(due);
    tried
}

struct OnListed;

const LISTED: &str = "
    Entities::add_entities | 16; add: y 2
    Entities::add_entities | 17; add: y 2
    Entities::upsert_entities | 16; upsert: 1 2
    Entities::upsert_entities | 17; upsert: t y
    Entities::upsert_entities | 17; upsert: 1 2 3
    Entities::remove_entities | 16; remove: 1
    Entities::remove_entities | 17; remove: 1 2 y
    Entities::remove_entities | 17; remove: t
";

impl Calls for OnListed {
    fn tried(&self, alloc: Global, number: usize, row: Row<'_>) -> CallOutcome {
        let (edits, call) = row.given.split_once(';').unwrap_or((row.given, ""));
        let due = next(alloc, edited(alloc, edits), call.trim());
        match both(edited(alloc, edits), due) {
            Some((store, due)) => compared(alloc, number, store, due, row),
            None => unmade(),
        }
    }
}

#[test]
fn each_edit_of_a_store_that_lists_its_children(rt: HostRuntime) {
    assert!(rt; check_failures(rt, &OnListed, LISTED));
}
