// Tests of shared uids, sets of them, and reachability.
use super::{has_eids, pointers, set_of, shared, uid};
use cedar_alloc_failures::{
    CallOutcome, Calls, Row, are_worded, both, changed, check_failures, judged, made, on, refuse,
    same_copied, unmade, with,
};
use cedar_components::reach;
use cedar_uid_sets::{SharedUid, UidSet};
use std::alloc::{AllocError, Global};

struct OnSharedUids;

const SHARED_UIDS: &str = "
    SharedUid::new | A::\"a\" | A::\"a\"
    SharedUid::copy_of | A::\"a\" | A::\"a\"
    - SharedUid::into_uid | a | A::\"a\"
    SharedUid::into_uid | shared a | A::\"a\"
    - SharedUid::clone | a
";

// Runs `into_uid` on a shared uid that has another pointer.
fn taken_back(alloc: Global, number: usize, row: Row<'_>) -> CallOutcome {
    let made_once = shared(alloc, row.given.trim_start_matches("shared "));
    match made_once {
        Some(kept) => {
            let copy: Result<SharedUid, AllocError> = kept.clone();
            let tried = with(alloc, number, copy.ok(), |uid| {
                made(alloc, uid.into_uid(), row.want)
            });
            drop(kept);
            tried
        }
        None => unmade(),
    }
}

impl Calls for OnSharedUids {
    fn tried(&self, alloc: Global, number: usize, row: Row<'_>) -> CallOutcome {
        match row.call {
            "SharedUid::new" => {
                with(alloc, number, uid(alloc, row.given), |uid| {
                    made(alloc, SharedUid::new(alloc, uid), row.want)
                })
            }
            "SharedUid::copy_of" => {
                on(alloc, number, uid(alloc, row.given), |uid| {
                    made(alloc, SharedUid::copy_of(alloc, uid), row.want)
                })
            }
            "SharedUid::into_uid" if row.given.starts_with("shared ") => taken_back(
                alloc, number, row,
            ),
            "SharedUid::into_uid" => {
                with(alloc, number, shared(alloc, row.given), |uid| {
                    made(alloc, uid.into_uid(), row.want)
                })
            }
            "SharedUid::clone" => same_copied(alloc, number, shared(alloc, row.given)),
            _ => unmade(),
        }
    }
}

#[test]
fn each_call_on_shared_uids(rt: HostRuntime) {
    assert!(rt; check_failures(rt, &OnSharedUids, SHARED_UIDS));
}

fn eids_of(alloc: Global, set: &UidSet) -> Option<String> {
    super::eids(alloc, set.iter())
}

struct OnSets;

const SETS: &str = "
    UidSet::from_set | b a c | a b c
    - UidSet::from_pointers | a b c | a b c
    - UidSet::from_pointers | c a b | a b c
    UidSet::from_pointers | c a b a | a b c
    UidSet::insert | a b, c | a b c
    UidSet::insert | b c d e, a | a b c d e
    - UidSet::insert | a b, b | a b
    UidSet::extend_ascending | b d, a c e | a b c d e
    - UidSet::extend_ascending | , a b | a b
    - UidSet::extend_ascending | a b, | a b
    UidSet::extend_from | b d, a c e | a b c d e
    UidSet::extend_from | b d, a c e f g h i j k l | a b c d e f g h i j k l
    UidSet::extend_from | , a b | a b
    - UidSet::extend_from | a b, | a b
    UidSet::clone | a b
    - UidSet::clone
";

fn extended(set: &mut UidSet, uids: Vec<SharedUid>) -> Result<(), AllocError> {
    if UidSet::is_ascending(uids.as_slice()) {
        return set.extend_ascending(uids);
    }
    drop(uids);
    Ok(())
}

fn merged(alloc: Global, number: usize, row: Row<'_>) -> CallOutcome {
    let (set, uids) = row.given.split_once(',').unwrap_or((row.given, ""));
    match both(set_of(alloc, set), pointers(alloc, uids)) {
        Some((set, uids)) => {
            changed(alloc, number, Some(set), row.want, eids_of, |set| {
                extended(set, uids)
            })
        }
        None => unmade(),
    }
}

// Runs the insertion of the uids of a set into another one, which may contain some of them after an error.
fn united(alloc: Global, number: usize, row: Row<'_>) -> CallOutcome {
    let (set, others) = row.given.split_once(',').unwrap_or((row.given, ""));
    match both(set_of(alloc, set), set_of(alloc, others)) {
        Some((set, others)) => {
            let mut set = set;
            refuse(alloc, number);
            let answer = set.extend_from(&others);
            let tried = judged(
                alloc,
                answer,
                row.want,
                |_| has_eids(alloc, set.iter(), row.want),
            );
            drop(set);
            drop(others);
            tried
        }
        None => unmade(),
    }
}

fn inserted(alloc: Global, number: usize, row: Row<'_>) -> CallOutcome {
    let (set, name) = row.given.split_once(',').unwrap_or((row.given, ""));
    match both(set_of(alloc, set), shared(alloc, name.trim())) {
        Some((set, uid)) => {
            changed(alloc, number, Some(set), row.want, eids_of, |set| {
                set.insert(uid)
            })
        }
        None => unmade(),
    }
}

impl Calls for OnSets {
    fn tried(&self, alloc: Global, number: usize, row: Row<'_>) -> CallOutcome {
        let want = row.want;
        match row.call {
            "UidSet::from_set" => {
                with(alloc, number, super::hashed(alloc, row.given), |uids| {
                    judged(alloc, UidSet::from_set(alloc, uids), want, |set| {
                        has_eids(alloc, set.iter(), want)
                    })
                })
            }
            "UidSet::from_pointers" => {
                with(alloc, number, pointers(alloc, row.given), |uids| {
                    judged(alloc, UidSet::from_pointers(uids), want, |set| {
                        has_eids(alloc, set.iter(), want)
                    })
                })
            }
            "UidSet::insert" => inserted(alloc, number, row),
            "UidSet::extend_ascending" => merged(alloc, number, row),
            "UidSet::extend_from" => united(alloc, number, row),
            "UidSet::clone" => same_copied(alloc, number, set_of(alloc, row.given)),
            _ => unmade(),
        }
    }
}

#[test]
fn each_call_on_sets_of_uids(rt: HostRuntime) {
    assert!(rt; check_failures(rt, &OnSets, SETS));
}

struct OnNumbers;

const NUMBERS: &str = "
    reach | 0 to 1, 1 to 0, 1 to 2 | 0 ; 1 ; 2 ;
";

// Returns whether the numbers 0 and 1 have this common list, and the list of 2, which is in another component, is
// empty.
fn is_reached(alloc: Global, reached: &cedar_components::Reached, want: &str) -> bool {
    reached.component.len() == 3
        && reached.component.first() == reached.component.get(1)
        && reached.component.first() != reached.component.get(2)
        && are_worded(alloc, reached.lists.as_slice(), want)
}

impl Calls for OnNumbers {
    fn tried(&self, alloc: Global, number: usize, row: Row<'_>) -> CallOutcome {
        refuse(alloc, number);
        let answer = reach(alloc, &[0, 1, 1], &[1, 0, 2], 3, &[0, 1, 2]);
        judged(
            alloc,
            answer,
            row.want,
            |reached| is_reached(alloc, reached, row.want),
        )
    }
}

#[test]
fn what_numbers_reach(rt: HostRuntime) {
    assert!(rt; check_failures(rt, &OnNumbers, NUMBERS));
}
