// Tests of queries: descendants and paths. A case has the calls that create the store and, after the last semicolon, the
// uids of the query. A store that begins with a number and a colon has the entities of `listed`, after that many edits.
use super::listed::edited;
use super::stores::{next, shared, store_of};
use super::{pointers, typed, uid_of};
use cedar_alloc_failures::{
    CallOutcome, Calls, Row, are_worded, both, check_failures, judged, on, unmade, with,
    worked_rows,
};
use cedar_dry_run::requested::uids_and_parents;
use cedar_entities::EntitiesError;
use cedar_entities::entities::Entities;
use cedar_ids::entity::EntityUID;
use cedar_queries::{descendants, descendants_of_type, path, reaches};
use cedar_uid_sets::SharedUid;
use std::alloc::Global;

struct OnQueries;

const QUERIES: &str = "
    descendants | from: a b, b c, d c; c | A::\"a\" ; A::\"b\" ; A::\"d\" ;
    descendants | from assume: a b, b c, d / c; c | A::\"a\" ; A::\"b\" ;
    descendants | 17: 1 2 ; 2 | A::\"1\" ; A::\"x\" ;
    descendants_of_type | from: a b, B.b b, b c; c, B | B::\"b\" ;
    descendants_of_type | from assume: a b, B.b b, b c; c, A | A::\"a\" ; A::\"b\" ;
    path | from: a b d, b c, d e, e c; a c | A::\"a\" ; A::\"b\" ; A::\"c\" ;
    path | from: a b, b c; c a | none
    path | from assume: a b d, b c, c e, d e; a e | A::\"a\" ; A::\"d\" ; A::\"e\" ;
    path | from assume: a b / c, d c; a c | none
    - reaches | from: a b, b c; a c | yes
    - reaches | from: a b, b c; c a | no
    reaches | from assume: a b, b c; a c | yes
    reaches | from assume: a b / c; a c | no
    Entities::affected | from: a b, b c, d; b x | a b x
    Entities::affected | from assume: a b, b c, d / c; c | b c d
    Entities::affected | 17: 1 2 ; 2 | 1 2 x
    uids_and_parents | a c b, d, a | A::\"a\" ; A::\"b\" ; A::\"c\" ; A::\"d\" ; A::\"a\" ;
";

const WORKED: &str = "
# the stored entities that reach the uid, in order, whether the uid is stored or not
    descendants | ; a | none
    descendants | from: a; a | none
    descendants | from: a b; a | none
    descendants | from: z b, B.a b, a b; b | A::\"a\" ; A::\"z\" ; B::\"a\" ;
    descendants | from: a b d, b c, d c; c | A::\"a\" ; A::\"b\" ; A::\"d\" ;
    descendants | from: a b, b c; b | A::\"a\" ;
    descendants | from: a b, b c; partial; c | A::\"a\" ; A::\"b\" ;
    descendants | from: a b, b c, c; remove: b; c | none
# on a cycle each uid is its own descendant
    descendants | from assume: a a; a | A::\"a\" ;
    descendants | from assume: a b, b a, c a; a | A::\"a\" ; A::\"b\" ; A::\"c\" ;
    descendants | from assume: a b, b b, c; b | A::\"a\" ; A::\"b\" ;
# only parents count
    descendants | from assume: a / c, b c; c | A::\"b\" ;
    descendants | from: a b / c, b; c | none
# children that are listed
    descendants | 17: ; t | A::\"0\" ; _ ; _ ; _ ; _ ; _ ; _ ; _ ; _ ; _ ; _ ; _ ; _ ; _ ; _ ; _ ; _ ; _ ; _ ; _ ; _ ; _ ; _ ; _ ; _ ; _ ; _ ; _ ; _ ; _ ; _ ; _ ; _ ; _ ; _ ; _ ; _ ; _ ; _ ; _ ; _ ; _ ; _ ; A::\"9\" ; A::\"x\" ;
    descendants | 17: ; 1 | A::\"x\" ;
    descendants | 17: ; z | none
# types are compared by name
    descendants_of_type | from: a b, B.b b, N::A.a b, b c; c, N::A | N::A::\"a\" ;
    descendants_of_type | from: a b, B.b b, b c; c, C | none
    descendants_of_type | from: a b, c b, B.b b; b, A | A::\"a\" ; A::\"c\" ;
# no path is shorter, and a path has at least one step
    path | ; a b | none
    path | ; a a | none
    path | from: a; a a | none
    path | from: a b; a b | A::\"a\" ; A::\"b\" ;
    path | from: a b c, b c; a c | A::\"a\" ; A::\"c\" ;
    path | from: a b, b c, c d, d e; a e | A::\"a\" ; A::\"b\" ; A::\"c\" ; A::\"d\" ; A::\"e\" ;
    path | from: a b, b c, c d, d e; b d | A::\"b\" ; A::\"c\" ; A::\"d\" ;
    path | from: a b x, x y, y z, b z; a z | A::\"a\" ; A::\"b\" ; A::\"z\" ;
    path | from: a b, b c; partial; a c | A::\"a\" ; A::\"b\" ; A::\"c\" ;
    path | from: a b; a c | none
    path | from assume: a a; a a | A::\"a\" ; A::\"a\" ;
    path | from assume: a b d, b c, c a; a a | A::\"a\" ; A::\"b\" ; A::\"c\" ; A::\"a\" ;
    path | from assume: a b, b a c; a c | A::\"a\" ; A::\"b\" ; A::\"c\" ;
    path | from assume: a b, b a; a c | none
    path | from assume: a / b, b c; a c | none
    path | 17: ; x t | A::\"x\" ; A::\"1\" ; A::\"t\" ;
# whether the parents explain an ancestor
    reaches | from: a b; a a | no
    reaches | from assume: a b, b a; a a | yes
    reaches | from assume: a / b, b c; a b | no
    reaches | from assume: a b / c, b c; a c | yes
    reaches | ; a b | no
";

// Returns whether these are the uids of a text, in its order. `none` stands for no uid.
fn are_uids(alloc: Global, uids: &[SharedUid], want: &str) -> bool {
    if want == "none" {
        return uids.is_empty();
    }
    are_worded(alloc, uids, want)
}

// Returns the store of a case, which is that of `listed` if it begins with a number.
fn stored(alloc: Global, calls: &str) -> Option<Entities> {
    match calls.split_once(':') {
        Some((edits, entity)) if edits.trim().parse::<u8>().is_ok() => {
            let store = edited(alloc, edits);
            if entity.trim().is_empty() {
                return store;
            }
            match format!(in alloc; "upsert: {entity}") {
                Ok(call) => {
                    let store = next(alloc, store, call.as_str());
                    drop(call);
                    store
                }
                Err(_) => None,
            }
        }
        _ => store_of(alloc, calls),
    }
}

// Returns whether the list has a uid.
fn has_uid(alloc: Global, found: &[SharedUid], name: &str) -> bool {
    match uid_of(alloc, name) {
        Some(uid) => {
            let mut there = false;
            for one in found {
                there = there || one.uid() == &uid;
            }
            drop(uid);
            there
        }
        None => false,
    }
}

// Returns whether these are the uids of a text, in any order.
fn are_all(alloc: Global, found: &[SharedUid], names: &str) -> bool {
    let mut count = 0_usize;
    for name in names.split_whitespace() {
        if !has_uid(alloc, found, name) {
            return false;
        }
        count = count.wrapping_add(1);
    }
    count == found.len()
}

fn two_uids(alloc: Global, names: &str) -> Option<(EntityUID, EntityUID)> {
    let (from, to) = names.trim().split_once(' ').unwrap_or((names, ""));
    both(uid_of(alloc, from), uid_of(alloc, to))
}

// Runs a query on the store of a case and on uids, and checks its result.
macro_rules! queried {
    ($alloc:ident, $number:ident, $row:ident, $calls:ident, $uids:expr,
     |$store:ident, $given:pat_param| $query:expr, |$found:ident| $is_right:expr) => {
        on($alloc, $number, both(stored($alloc, $calls), $uids), |($store, $given)| {
            judged($alloc, $query, $row.want, |$found| $is_right)
        })
    };
}

fn below(alloc: Global, number: usize, row: Row<'_>) -> CallOutcome {
    let (calls, name) = row.given.rsplit_once(';').unwrap_or(("", row.given));
    queried!(
        alloc,
        number,
        row,
        calls,
        uid_of(alloc, name.trim()),
        |store, uid| descendants(alloc, store, uid),
        |uids| are_uids(alloc, uids.as_slice(), row.want)
    )
}

fn below_of_type(alloc: Global, number: usize, row: Row<'_>) -> CallOutcome {
    let (calls, names) = row.given.rsplit_once(';').unwrap_or(("", row.given));
    let (name, ty) = names.trim().split_once(", ").unwrap_or((names, ""));
    queried!(
        alloc,
        number,
        row,
        calls,
        both(uid_of(alloc, name), typed(alloc, ty)),
        |store, (uid, ty)| descendants_of_type(alloc, store, uid, ty),
        |uids| are_uids(alloc, uids.as_slice(), row.want)
    )
}

fn shortest(alloc: Global, number: usize, row: Row<'_>) -> CallOutcome {
    let (calls, names) = row.given.rsplit_once(';').unwrap_or(("", row.given));
    queried!(
        alloc,
        number,
        row,
        calls,
        two_uids(alloc, names),
        |store, (from, to)| path(alloc, store, from, to),
        |found| match found {
            Some(uids) => are_uids(alloc, uids.as_slice(), row.want),
            None => row.want == "none",
        }
    )
}

fn explained(alloc: Global, number: usize, row: Row<'_>) -> CallOutcome {
    let (calls, names) = row.given.rsplit_once(';').unwrap_or(("", row.given));
    queried!(
        alloc,
        number,
        row,
        calls,
        two_uids(alloc, names),
        |store, (from, to)| reaches(alloc, store, from, to),
        |found| row.want == if *found { "yes" } else { "no" }
    )
}

fn affected(alloc: Global, number: usize, row: Row<'_>) -> CallOutcome {
    let (calls, names) = row.given.rsplit_once(';').unwrap_or(("", row.given));
    with(
        alloc,
        number,
        both(stored(alloc, calls), pointers(alloc, names)),
        |(store, uids)| {
            let answer: Result<Vec<SharedUid>, EntitiesError> = store.affected(alloc, uids);
            drop(store);
            judged(
                alloc,
                answer,
                row.want,
                |found| are_all(alloc, found.as_slice(), row.want),
            )
        },
    )
}

fn requested(alloc: Global, number: usize, row: Row<'_>) -> CallOutcome {
    on(alloc, number, shared(alloc, row.given), |list| {
        judged(
            alloc,
            uids_and_parents(alloc, list.as_slice()),
            row.want,
            |uids| are_worded(alloc, uids.as_slice(), row.want),
        )
    })
}

impl Calls for OnQueries {
    fn tried(&self, alloc: Global, number: usize, row: Row<'_>) -> CallOutcome {
        match row.call {
            "descendants" => below(alloc, number, row),
            "descendants_of_type" => below_of_type(alloc, number, row),
            "path" => shortest(alloc, number, row),
            "reaches" => explained(alloc, number, row),
            "Entities::affected" => affected(alloc, number, row),
            "uids_and_parents" => requested(alloc, number, row),
            _ => unmade(),
        }
    }
}

#[test]
fn each_query_of_a_store(rt: HostRuntime) {
    assert!(rt; check_failures(rt, &OnQueries, QUERIES));
}

#[test]
fn what_queries_answer(rt: HostRuntime) {
    assert!(rt; worked_rows(rt, &OnQueries, WORKED));
}
