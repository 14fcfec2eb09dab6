// Tests of the index of children. An index is given by short texts of entities, separated by commas. The tests look up
// the descendants of some uids.
use super::parts::entity;
use super::{shared, uid_of};
use cedar_alloc_failures::{
    CallOutcome, Calls, Row, both, check_failures, joined, judged, on, unmade, with,
};
use cedar_children::Children;
use cedar_entity::entity::Entity;
use cedar_ids::entity::EntityUID;
use cedar_uid_sets::SharedUid;
use std::alloc::{AllocError, Global};
use std::collections::HashSet;
use std::hash::{BuildHasherDefault, FoldHasher};

type Index = Children<BuildHasherDefault<FoldHasher>>;

fn with_entity(alloc: Global, index: Index, entity: &Entity) -> Option<Index> {
    let uid: Result<SharedUid, AllocError> = SharedUid::copy_of(alloc, entity.uid());
    match uid {
        Ok(uid) => {
            let made: Result<Index, AllocError> = index.with(alloc, &uid, entity);
            drop(uid);
            made.ok()
        }
        Err(_) => {
            drop(index);
            None
        }
    }
}

pub(super) fn index_of(alloc: Global, texts: &str) -> Option<Index> {
    let mut index = Some(Children::with_hasher(alloc, BuildHasherDefault::new()));
    for text in texts.split(',') {
        if !text.trim().is_empty() {
            index = match both(index, entity(alloc, text.trim())) {
                Some((index, entity)) => {
                    let made = with_entity(alloc, index, &entity);
                    drop(entity);
                    made
                }
                None => None,
            };
        }
    }
    index
}

pub(super) fn uids_of(alloc: Global, names: &str) -> Option<HashSet<SharedUid>> {
    let mut uids = Some(HashSet::new(alloc));
    for name in names.split_whitespace() {
        uids = joined(uids, shared(alloc, name));
    }
    uids
}

fn has(alloc: Global, found: &HashSet<SharedUid>, name: &str) -> bool {
    match uid_of(alloc, name) {
        Some(uid) => {
            let uid: EntityUID = uid;
            let there = found.contains(&uid);
            drop(uid);
            there
        }
        None => false,
    }
}

// Returns whether the found uids are exactly these.
pub(super) fn are_found(alloc: Global, found: &HashSet<SharedUid>, names: &str) -> bool {
    let mut count = 0_usize;
    for name in names.split_whitespace() {
        if !has(alloc, found, name) {
            return false;
        }
        count = count.wrapping_add(1);
    }
    count == found.len()
}

// Returns whether the descendants of the uid `t` are exactly these.
fn has_below(alloc: Global, index: &Index, names: &str) -> bool {
    match uids_of(alloc, "t") {
        Some(uids) => {
            let found: Result<HashSet<SharedUid>, AllocError> = index.below(alloc, &uids);
            drop(uids);
            match found {
                Ok(found) => {
                    let told = are_found(alloc, &found, names);
                    drop(found);
                    told
                }
                Err(_) => false,
            }
        }
        None => false,
    }
}

struct OnChildren;

const CHILDREN: &str = "
    Children::with | ; a t | a t
    Children::with | a t, b a; c t b | a b c t
    Children::with | a t; b x y | a t
    - Children::with | a t; b | a t
    Children::below | a t, b a, c x; t | a b t
    Children::below | a t, b a, c x; t x | a b c t x
    Children::below | a t, b a, c a, d a, e d, f e, g b; a | a b c d e f g
    Children::below | a t; b | b
";

// Adds the last entity of a case, which follows a semicolon, to the index.
fn push_new(alloc: Global, number: usize, row: Row<'_>) -> CallOutcome {
    let (texts, last) = row.given.split_once(';').unwrap_or((row.given, ""));
    let name = last.split_whitespace().next().unwrap_or("");
    let made = both(index_of(alloc, texts), entity(alloc, last.trim()));
    with(
        alloc,
        number,
        both(made, shared(alloc, name)),
        |((index, entity), uid)| {
            let answer: Result<Index, AllocError> = index.with(alloc, &uid, &entity);
            drop(entity);
            drop(uid);
            judged(
                alloc,
                answer,
                row.want,
                |index| has_below(alloc, index, row.want),
            )
        },
    )
}

// Looks up the descendants of the uids after the semicolon.
fn looked(alloc: Global, number: usize, row: Row<'_>) -> CallOutcome {
    let (texts, names) = row.given.split_once(';').unwrap_or((row.given, ""));
    on(
        alloc,
        number,
        both(index_of(alloc, texts), uids_of(alloc, names)),
        |(index, uids)| {
            judged(alloc, index.below(alloc, uids), row.want, |found| {
                are_found(alloc, found, row.want)
            })
        },
    )
}

impl Calls for OnChildren {
    fn tried(&self, alloc: Global, number: usize, row: Row<'_>) -> CallOutcome {
        match row.call {
            "Children::with" => push_new(alloc, number, row),
            "Children::below" => looked(alloc, number, row),
            _ => unmade(),
        }
    }
}

#[test]
fn each_call_on_an_index_of_children(rt: HostRuntime) {
    assert!(rt; check_failures(rt, &OnChildren, CHILDREN));
}
