// Tests of differences. A case of `diff` has the calls that create the first store and, after `@`, those that create the
// second. A case of an edit has the calls that create a store and, after the last semicolon, the edit.
//
// A result has each list in turn: `-` and a removed entity, `+` and an added entity, `~` and an entity before and after
// its content changed. Then come `@`, a uid, and its ancestors: `<` before a lost one, `>` before a gained one. A changed
// mode is the last word.
use super::parts::text_of;
use super::stores::{parts_of, shared, store_of, uids};
use cedar_alloc_failures::{
    CallOutcome, Calls, Row, both, check_failures, has_words, judged, on, refuse, unmade,
    with_word, worked_rows,
};
use cedar_entities::entities::{Entities, TCComputation};
use cedar_entities::{EntitiesError, Entity, Uids};
use cedar_entity_diff::{
    AncestryChange, StoreDiff, diff, would_change_by_add, would_change_by_remove,
    would_change_by_upsert,
};
use cedar_ids::entity::EntityUID;
use std::alloc::Global;

struct OnDiffs;

const DIFFS: &str = "
    - diff | from: a b, b c @ from: a b, b c | _
    diff | from: a b, b @ from: b c, d | - a b / / / + d / / / ~ b / / / => b c / / / @ A::\"b\" > A::\"c\"
    diff | from: a b, b c; remove: x @ from: a b, b d | ~ b c / / / => b d / / / @ A::\"a\" < A::\"c\" > A::\"d\" @ A::\"b\" < A::\"c\" > A::\"d\"
    diff | from: a / / k=1 @ from: a / / k=2; partial | ~ a / / k=1 / => a / / k=2 / partial
    would_change_by_add | from: a b; add: b c | + b c / / / @ A::\"a\" > A::\"c\"
    would_change_by_add | from: a b; add: a c | ! duplicate entity `A::\"a\"`
    would_change_by_add | from: a b; add: c c | ! input graph has a cycle containing vertex `A::\"c\"`
    would_change_by_upsert | from: a b, b c; upsert: b d | ~ b c / / / => b d / / / @ A::\"a\" < A::\"c\" > A::\"d\" @ A::\"b\" < A::\"c\" > A::\"d\"
    would_change_by_upsert | from: a b, b c; upsert: b b | ! input graph has a cycle containing vertex `A::\"b\"`
    would_change_by_upsert | from: a b, b c, d; upsert: b c / / k=1 | ~ b c / / / => b c / / k=1 /
    would_change_by_upsert | from: a b / d, b c; upsert: b c / / k=1 | ~ b c / / / => b c / / k=1 /
    would_change_by_add | from assume: a b; add assume: b b | + b b / / /
    would_change_by_remove | from: a b, b c, c; remove: b | - b c / / / ~ a b / c / / => a / / / @ A::\"a\" < A::\"b\" < A::\"c\"
    would_change_by_remove | from assume: a b, b c; remove enforce: x | ! expected all transitive edges to exist, but `A::\"a\"` -> `A::\"b\"` and `A::\"b\"` -> `A::\"c\"` exists, while `A::\"a\"` -> `A::\"c\"` does not
";

const WORKED: &str = "
# entities that only one store has, in ascending order of uid
    diff | @ | _
    diff | @ from: b, B.0, a | + a / / / + b / / / + 0 / / /
    diff | from: b, B.0, a @ | - a / / / - b / / / - 0 / / /
# the content: attributes, tags and parents
    diff | from assume: a / / / t=1 @ from assume: a / / / t=2 | ~ a / / / t=1 => a / / / t=2
    diff | from assume: a b / c @ from assume: a c / b | ~ a b / c / / => a c / b / /
    diff | from assume: a b @ from assume: a b / b | ~ a b / / / => a b / b / /
# the ancestors of an entity with the same content
    diff | from assume: a b / c d @ from assume: a b / e d f | @ A::\"a\" < A::\"c\" > A::\"e\" > A::\"f\"
    diff | from assume: a b @ from assume: a b / a | @ A::\"a\" > A::\"a\"
    diff | from: a b, b c @ from: a b | - b c / / / @ A::\"a\" < A::\"c\"
# the mode
    diff | partial @ | concrete
    diff | from: a; partial @ from: a; partial | _
# an edit that changes nothing
    would_change_by_add | from: a b, b c; add: a b c | _
    would_change_by_upsert | from: a b, b c; upsert: a b | _
    would_change_by_remove | from: a b, b c; remove: x | _
# edits of a part of a store
    would_change_by_add | from: a b, c d, d e; add: b d, x, a b | + b d / e / / + x / / / @ A::\"a\" > A::\"d\" > A::\"e\"
    would_change_by_add | from: a b, c d; partial; add: b c | + b c / d / / @ A::\"a\" > A::\"c\" > A::\"d\"
    would_change_by_add | from: a b, b c; add: b c | _
    would_change_by_upsert | from: a b, b c, d c; upsert: b e, e f, b | + e f / / / ~ b c / / / => b / / / @ A::\"a\" < A::\"c\" @ A::\"b\" < A::\"c\"
    would_change_by_upsert | from: a b, b c, x y; partial; upsert: b y | ~ b c / / / => b y / / / @ A::\"a\" < A::\"c\" > A::\"y\" @ A::\"b\" < A::\"c\" > A::\"y\"
    would_change_by_upsert | from: a b, b c; upsert: b c / / k=1, c d | + c d / / / ~ b c / / / => b c / d / k=1 / @ A::\"a\" > A::\"d\" @ A::\"b\" > A::\"d\"
    would_change_by_remove | from: a b, b c, c d, x y; remove: c z c | - c d / / / ~ b c / d / / => b / / / @ A::\"a\" < A::\"c\" < A::\"d\" @ A::\"b\" < A::\"c\" < A::\"d\"
    would_change_by_remove | from: a b, b c; partial; remove: c | _
# edits of stores in other modes
    would_change_by_upsert | from: a b, b c; upsert assume: b d | ~ b c / / / => b d / / / @ A::\"a\" < A::\"c\" @ A::\"b\" < A::\"c\" > A::\"d\"
";

// Appends the text of an entity.
fn with_entity(alloc: Global, text: Option<String>, entity: &Entity) -> Option<String> {
    match text_of(alloc, entity) {
        Some(word) => {
            let more = with_word(text, word.as_str());
            drop(word);
            more
        }
        None => None,
    }
}

// Appends a mark and the text of an entity, for each of the entities.
fn with_entities(
    alloc: Global,
    text: Option<String>,
    mark: &str,
    entities: &[Entity],
) -> Option<String> {
    let mut text = text;
    for entity in entities {
        text = with_entity(alloc, with_word(text, mark), entity);
    }
    text
}

// Appends a uid.
fn with_uid(alloc: Global, text: Option<String>, uid: &EntityUID) -> Option<String> {
    match uid.to_string(alloc) {
        Ok(word) => {
            let more = with_word(text, word.as_str());
            drop(word);
            more
        }
        Err(_) => None,
    }
}

// Appends a mark and a uid, for each of the uids.
fn with_uids(alloc: Global, text: Option<String>, mark: &str, uids: Uids<'_>) -> Option<String> {
    let mut text = text;
    for uid in uids {
        text = with_uid(alloc, with_word(text, mark), uid);
    }
    text
}

// Appends a uid and the ancestors that it lost and gained.
fn with_ancestry(alloc: Global, text: Option<String>, change: &AncestryChange) -> Option<String> {
    let text = with_uid(alloc, with_word(text, "@"), change.uid());
    let text = with_uids(alloc, text, "<", change.lost());
    with_uids(alloc, text, ">", change.gained())
}

// Returns the text of a difference.
fn written(alloc: Global, found: &StoreDiff) -> Option<String> {
    let mut text = with_entities(alloc, Some(String::new(alloc)), "-", found.removed());
    text = with_entities(alloc, text, "+", found.added());
    for change in found.changed() {
        text = with_entity(alloc, with_word(text, "~"), change.before());
        text = with_entity(alloc, with_word(text, "=>"), change.after());
    }
    for change in found.ancestry() {
        text = with_ancestry(alloc, text, change);
    }
    match found.partial() {
        Some(partial) => with_word(text, if partial { "partial" } else { "concrete" }),
        None => text,
    }
}

// Returns whether this is the difference with a text. `_` stands for no difference.
fn is_diff(alloc: Global, found: &StoreDiff, want: &str) -> bool {
    if want == "_" {
        return found.is_empty();
    }
    match written(alloc, found) {
        Some(text) => {
            let told = has_words(text.as_str(), want);
            drop(text);
            told && !found.is_empty()
        }
        None => false,
    }
}

fn difference(alloc: Global, number: usize, row: Row<'_>) -> CallOutcome {
    let (one, other) = row.given.split_once('@').unwrap_or((row.given, ""));
    on(
        alloc,
        number,
        both(store_of(alloc, one), store_of(alloc, other)),
        |(one, other)| {
            judged(alloc, diff(alloc, one, other), row.want, |found| {
                is_diff(alloc, found, row.want)
            })
        },
    )
}

// Tries an edit, while the allocation with this number is forced to fail.
fn change(
    alloc: Global,
    number: usize,
    store: &Entities,
    word: &str,
    mode: TCComputation,
    rest: &str,
) -> Option<Result<StoreDiff, EntitiesError>> {
    if word == "remove" {
        return match uids(alloc, rest) {
            Some(list) => {
                refuse(alloc, number);
                Some(would_change_by_remove(alloc, store, list, mode))
            }
            None => None,
        };
    }
    match shared(alloc, rest) {
        Some(list) => {
            refuse(alloc, number);
            if word == "add" {
                return Some(would_change_by_add(alloc, store, list, mode));
            }
            Some(would_change_by_upsert(alloc, store, list, mode))
        }
        None => None,
    }
}

fn edit(alloc: Global, number: usize, row: Row<'_>, wanted: &str) -> CallOutcome {
    let (calls, call) = row.given.rsplit_once(';').unwrap_or(("", row.given));
    let (word, mode, rest) = parts_of(call);
    if word != wanted {
        return unmade();
    }
    match store_of(alloc, calls) {
        Some(store) => {
            let found = change(alloc, number, &store, word, mode, rest);
            drop(store);
            match found {
                Some(found) => judged(
                    alloc,
                    found,
                    row.want,
                    |found| is_diff(alloc, found, row.want),
                ),
                None => unmade(),
            }
        }
        None => unmade(),
    }
}

impl Calls for OnDiffs {
    fn tried(&self, alloc: Global, number: usize, row: Row<'_>) -> CallOutcome {
        match row.call {
            "diff" => difference(alloc, number, row),
            "would_change_by_add" => edit(alloc, number, row, "add"),
            "would_change_by_upsert" => edit(alloc, number, row, "upsert"),
            "would_change_by_remove" => edit(alloc, number, row, "remove"),
            _ => unmade(),
        }
    }
}

#[test]
fn each_difference(rt: HostRuntime) {
    assert!(rt; check_failures(rt, &OnDiffs, DIFFS));
}

#[test]
fn what_differences_list(rt: HostRuntime) {
    assert!(rt; worked_rows(rt, &OnDiffs, WORKED));
}
