// Tests of the steps of an edit on the map of a store. Entities are written as in `parts`, separated by commas. A case
// has a word, some uids and a map, separated by semicolons.
ghost use Rattle.std.specs.Prelude.{◌≡◌, IfOk, IfSome};
ghost use Rattle.std.specs.HashSet.{contains};
ghost use Rattle.cedar_ids.specs.UidOf.{same_uid};
ghost use Rattle.cedar_ids.specs.declared.entity.EntityUID.{EntityUID};
ghost use Rattle.cedar_entity_maps.specs.Affected.{is_affected};
ghost use Rattle.cedar_entity_maps.specs.laws.EntityMap.{held_map, UidsMatch};

use super::children::{are_found, index_of, uids_of};
use super::entities::counted;
use super::stores::mode_of;
use super::{eids, has_eids, pointers, set_of, shared};
use cedar_alloc_failures::{
    CallOutcome, Calls, Row, both, check_failures, has_words, judged, refuse, unmade, with_last,
    with_word,
};
use cedar_children::listed;
use cedar_entity::err::EntitiesError;
use cedar_entity::node::SharedEntity;
use cedar_entity_maps::affected::{
    Lost, StaleAncestors, collect_stale, forget_each, insert_uids, strip_each,
};
use cedar_entity_maps::finalize::{check, finalize_affected, finalize_all, finish};
use cedar_entity_maps::index::{Index, affected_by};
use cedar_entity_maps::merging::insert_ancestors_at;
use cedar_entity_maps::modes::{rules_of, with_repair};
use cedar_graph::TCNode;
use cedar_uid_sets::{SharedUid, UidSet};
use std::alloc::{AllocError, Global};
use std::collections::{HashMap, HashSet};

type Map = HashMap<SharedUid, SharedEntity>;

type Set = HashSet<SharedUid>;

// Inserts an entity by its uid. Returns whether that succeeded.
fn put(alloc: Global, map: &mut Map, entity: SharedEntity) -> bool
    requires { UidsMatch map.old }
    ensures { UidsMatch map.new }
{
    let key: Result<SharedUid, AllocError> = entity.get_key(alloc);
    match key {
        Ok(key) => match map.insert(key, entity) {
            Ok(former) => {
                drop(former);
                true
            }
            Err(_) => false,
        },
        Err(_) => {
            drop(entity);
            false
        }
    }
}

// Inserts the entity with this text by its uid. Returns whether that succeeded.
fn push_text(alloc: Global, map: &mut Map, text: &str) -> bool
    requires { UidsMatch map.old }
    ensures { UidsMatch map.new }
{
    match counted(alloc, text) {
        Some(entity) => put(alloc, map, entity),
        None => false,
    }
}

// Inserts the entity with this text, if the text is not empty. Returns whether that succeeded.
fn put_if_any(alloc: Global, map: &mut Map, text: &str) -> bool
    requires { UidsMatch map.old }
    ensures { UidsMatch map.new }
{
    if text.is_empty() {
        return true;
    }
    push_text(alloc, map, text)
}

// Returns the map with this text.
fn map_of(alloc: Global, texts: &str) -> Option<Map>
    ensures { IfSome result (λ m. UidsMatch m) }
{
    let mut map = HashMap::new(alloc);
    for text in texts.split(',') {
        if !put_if_any(alloc, &mut map, text.trim()) {
            drop(map);
            return None;
        }
    }
    Some(map)
}

// Returns the expected map, which is empty if an error is expected.
fn due_of(alloc: Global, want: &str) -> Option<Map> {
    if want.starts_with('!') {
        return Some(HashMap::new(alloc));
    }
    map_of(alloc, want)
}

// Returns whether two maps have the same entities with the same ancestors.
fn are_alike(map: &Map, due: &Map) -> bool {
    for (uid, entity) in due {
        match map.get(uid) {
            Some(other) if other.0.deep_eq(&entity.0) => {}
            _ => return false,
        }
    }
    map.len() == due.len()
}

// Returns the parts of a case's arguments.
fn parts_of(given: &str) -> (&str, &str, &str) {
    let (word, rest) = given.split_once(';').unwrap_or((given, ""));
    let (names, texts) = rest.split_once(';').unwrap_or((rest, ""));
    (word.trim(), names, texts)
}

// Runs a step that closes a map, checks it, or removes ancestors from it.
fn settled(alloc: Global, number: usize, row: Row<'_>, uids: Set, due: Map) -> CallOutcome {
    let (word, _names, texts) = parts_of(row.given);
    match map_of(alloc, texts) {
        Some(map) => {
            let mut map = map;
            let mode = mode_of(word);
            let none = HashSet::new(alloc);
            refuse(alloc, number);
            let answer = match row.call {
                "check" => check(alloc, &map),
                "finish" => finish(alloc, &mut map, &uids, with_repair(rules_of(mode))),
                "finalize_affected" => finalize_affected(alloc, &mut map, &uids, mode),
                "finalize_all" => finalize_all(alloc, &mut map, mode),
                _ => forget_each(alloc, &mut map, &none, &uids, word == "anew"),
            };
            let tried = judged(alloc, answer, row.want, |_| are_alike(&map, &due));
            drop(none);
            drop(map);
            drop(uids);
            drop(due);
            tried
        }
        None => {
            drop(uids);
            drop(due);
            unmade()
        }
    }
}

// Returns the entities that an edit of some uids affects.
fn affected(alloc: Global, map: &Map, uids: &Set) -> Result<Set, EntitiesError>
    ensures { IfOk result (λ s. (q : EntityUID) → contains same_uid s q
        ≡ is_affected (held_map map.now) uids.now.keys q) }
{
    let index = Index::unlisted(false);
    affected_by(alloc, map, &index, uids)
}

// Returns whether the stale ancestors are printed as this text: each uid and what is removed from it.
fn are_losses(alloc: Global, stale: &Vec<StaleAncestors>, want: &str) -> bool {
    let mut text = Some(String::new(alloc));
    for loss in stale {
        text = with_word(text, loss.uid.uid().eid().as_ref());
        text = match &loss.lost {
            Lost::All => with_word(text, "all"),
            Lost::These(uids) => match eids(alloc, uids.iter()) {
                Some(lost) => {
                    let longer = with_word(text, lost.as_str());
                    drop(lost);
                    longer
                }
                None => text,
            },
        };
    }
    match text {
        Some(text) => {
            let told = has_words(text.as_str(), want);
            drop(text);
            told
        }
        None => false,
    }
}

// Runs the search for stale ancestors after the removal of some uids.
fn losing(alloc: Global, number: usize, row: Row<'_>, map: &Map, uids: &Set) -> CallOutcome {
    let (word, _names, _texts) = parts_of(row.given);
    match affected(alloc, map, uids) {
        Ok(affected) => {
            refuse(alloc, number);
            let answer = collect_stale(alloc, map, uids, &affected, word == "anew");
            drop(affected);
            judged(
                alloc,
                answer,
                row.want,
                |stale| are_losses(alloc, stale, row.want),
            )
        }
        Err(error) => {
            drop(error);
            unmade()
        }
    }
}

// Returns the stale ancestors after the removal of some uids.
fn losses_of(alloc: Global, map: &Map, uids: &Set) -> Option<Vec<StaleAncestors>> {
    match affected(alloc, map, uids) {
        Ok(affected) => {
            let stale: Result<Vec<StaleAncestors>, AllocError> = collect_stale(
                alloc, map, uids, &affected, false,
            );
            drop(affected);
            stale.ok()
        }
        Err(error) => {
            drop(error);
            None
        }
    }
}

// Returns further shared pointers to the entities of a map.
fn copies(alloc: Global, map: &Map) -> Option<Vec<SharedEntity>> {
    let mut all = Some(Vec::new(alloc));
    for (_, entity) in map {
        let copy: Result<SharedEntity, AllocError> = entity.clone();
        all = with_last(all, copy.ok());
    }
    all
}

// Runs the removal of stale ancestors and of removed parents from a map, whose entities may be shared.
fn stripped(alloc: Global, number: usize, row: Row<'_>, map: Map, due: &Map) -> CallOutcome {
    let (word, names, _texts) = parts_of(row.given);
    let mut map = map;
    let kept = if word == "shared" {
        copies(alloc, &map)
    } else {
        None
    };
    let stale = match uids_of(alloc, names) {
        Some(uids) => {
            let stale = losses_of(alloc, &map, &uids);
            drop(uids);
            stale
        }
        None => None,
    };
    let tried = match both(stale, set_of(alloc, names)) {
        Some((stale, removed_uids)) => {
            refuse(alloc, number);
            let answer = strip_each(&mut map, stale, &removed_uids);
            drop(removed_uids);
            judged(alloc, answer, row.want, |_| are_alike(&map, due))
        }
        None => unmade(),
    };
    drop(kept);
    drop(map);
    tried
}

// Runs the search for the entities that an edit affects, with or without an index of children.
fn touching(alloc: Global, number: usize, row: Row<'_>, map: &Map, uids: &Set) -> CallOutcome {
    let (word, _names, texts) = parts_of(row.given);
    let mut index = Index::unlisted(true);
    if word == "listed" {
        index.children = index_of(alloc, texts);
    }
    refuse(alloc, number);
    let answer = affected_by(alloc, map, &index, uids);
    drop(index);
    judged(
        alloc,
        answer,
        row.want,
        |found| are_found(alloc, found, row.want),
    )
}

// Runs the insertion of the ancestors of an entity into a set, which may contain some of them after an error.
fn collecting(alloc: Global, number: usize, row: Row<'_>, map: Map, uid: SharedUid) -> CallOutcome {
    let mut found = UidSet::new(alloc);
    refuse(alloc, number);
    let answer = insert_ancestors_at(&map, &uid, &mut found);
    let tried = judged(
        alloc,
        answer,
        row.want,
        |_| has_eids(alloc, found.iter(), row.want),
    );
    drop(found);
    drop(map);
    drop(uid);
    tried
}

// Runs the insertion of some uids into a set.
fn noting(alloc: Global, number: usize, row: Row<'_>, uids: Set) -> CallOutcome {
    let (_word, _names, more) = parts_of(row.given);
    let mut noted = uids;
    let tried = match pointers(alloc, more) {
        Some(more) => {
            refuse(alloc, number);
            let answer = insert_uids(&mut noted, more);
            judged(
                alloc,
                answer,
                row.want,
                |_| are_found(alloc, &noted, row.want),
            )
        }
        None => unmade(),
    };
    drop(noted);
    tried
}

// Runs the listing of a set's uids.
fn listing(alloc: Global, number: usize, row: Row<'_>, uids: Set) -> CallOutcome {
    refuse(alloc, number);
    let answer = listed(alloc, &uids);
    let tried = judged(alloc, answer, row.want, |list| {
        list.len() == uids.len() && list.iter().all(|uid| uids.contains(uid))
    });
    drop(uids);
    tried
}

// Runs a step that only reads a map.
fn reading(alloc: Global, number: usize, row: Row<'_>, map: Map, uids: Set) -> CallOutcome {
    let tried = if row.call == "affected_by" {
        touching(alloc, number, row, &map, &uids)
    } else {
        losing(alloc, number, row, &map, &uids)
    };
    drop(map);
    drop(uids);
    tried
}

struct OnSteps;

const STEPS: &str = "
    check | ; ; a b / c, b c, c | a b / c, b c, c
    check | ; ; a b, b c | ! expected all transitive edges to exist, but `A::\"a\"` -> `A::\"b\"` and `A::\"b\"` -> `A::\"c\"` exists, while `A::\"a\"` -> `A::\"c\"` does not
    check | ; ; a a | ! input graph has a cycle containing vertex `A::\"a\"`
    finish | now; a b; a b, b c, c d, d | a b / c d, b c / d, c d, d
    finish | now; a; a b, b a | ! input graph has a cycle containing vertex `A::\"a\"`
    finish | assume; a; a b, b c, c | a b / c, b c, c
    finish | enforce; b; a b, b c, c | ! expected all transitive edges to exist, but `A::\"a\"` -> `A::\"b\"` and `A::\"b\"` -> `A::\"c\"` exists, while `A::\"a\"` -> `A::\"c\"` does not
    finalize_affected | now; a b; a b, b c, c d, d | a b / c d, b c / d, c d, d
    - finalize_affected | assume; a; a b, b c, c | a b, b c, c
    finalize_affected | enforce; a; a a | ! input graph has a cycle containing vertex `A::\"a\"`
    finalize_all | now; ; a b, b c, c d, d | a b / c d, b c / d, c d, d
    finalize_all | enforce; ; a b, b c, c | ! expected all transitive edges to exist, but `A::\"a\"` -> `A::\"b\"` and `A::\"b\"` -> `A::\"c\"` exists, while `A::\"a\"` -> `A::\"c\"` does not
    - finalize_all | assume; ; a b, b c, c | a b, b c, c
    forget_each | anew; a b; a b / c, b c, c d / e | a b, b c, c d / e
    - forget_each | ; a; a b / c, b c, c | a b / c, b c, c
    insert_ancestors_at | ; a; a b / c, b c, d e | b c
    - insert_ancestors_at | ; x; a b / c, b c, d e |
    affected_by | ; c; a b / c, b c, d e | a b c
    affected_by | listed; c; a b / c, b c, d e | a b c
    affected_by | listed; e x; a b / c, b c, d e | d e x
    collect_stale | ; b; a b / c d e, b c / d, e | a b c d
    collect_stale | anew; b; a b / c d e, b c / d, e | a all
    - strip_each | ; b; a b / c d e, b c / d, e | a / e, b c / d, e
    strip_each | shared; b; a b / c d e, b c / d, e | a / e, b c / d, e
    insert_uids | a; ; b c d e f g h i j k l m n o p q r s t u v w x y z za zb zc zd ze zf zg zh zi zj zk zl zm zn zo | a b c d e f g h i j k l m n o p q r s t u v w x y z za zb zc zd ze zf zg zh zi zj zk zl zm zn zo
    - insert_uids | a b; ; b | a b
    listed | ; a b c; | ok
";

impl Calls for OnSteps {
    fn tried(&self, alloc: Global, number: usize, row: Row<'_>) -> CallOutcome {
        let (word, names, texts) = parts_of(row.given);
        let uids = uids_of(
            alloc,
            if row.call == "insert_uids" {
                word
            } else {
                names
            },
        );
        match row.call {
            "insert_uids" | "listed" => match uids {
                Some(uids) if row.call == "listed" => listing(alloc, number, row, uids),
                Some(uids) => noting(alloc, number, row, uids),
                None => unmade(),
            },
            "affected_by" | "collect_stale" => match both(map_of(alloc, texts), uids) {
                Some((map, uids)) => reading(alloc, number, row, map, uids),
                None => unmade(),
            },
            "insert_ancestors_at" => {
                drop(uids);
                match both(map_of(alloc, texts), shared(alloc, names.trim())) {
                    Some((map, uid)) => collecting(alloc, number, row, map, uid),
                    None => unmade(),
                }
            }
            "strip_each" => {
                drop(uids);
                match both(map_of(alloc, texts), due_of(alloc, row.want)) {
                    Some((map, due)) => {
                        let tried = stripped(alloc, number, row, map, &due);
                        drop(due);
                        tried
                    }
                    None => unmade(),
                }
            }
            _ => match both(uids, due_of(alloc, row.want)) {
                Some((uids, due)) => settled(alloc, number, row, uids, due),
                None => unmade(),
            },
        }
    }
}

#[test]
fn each_step_of_an_edit(rt: HostRuntime) {
    assert!(rt; check_failures(rt, &OnSteps, STEPS));
}
