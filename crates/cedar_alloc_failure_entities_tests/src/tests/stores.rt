// Stores as short texts of calls. Entities are written as in `parts`, separated by commas.
//
// A call is a word and, after a colon, its entities or uids. The words are `from`, `with` (`from` with a builder of
// hashers), `add`, `upsert`, `remove` and `partial`. A second word is the mode: `from assume`, `add enforce`. Calls are
// separated by semicolons. The first call starts from an empty store.
use super::entities::is_entity;
use super::parts::{entity, text_of};
use super::terms::expr;
use super::uid_of;
use cedar_alloc_failures::{
    CallOutcome, Calls, Row, both, check_failures, copied_with_text, counted, has_words, is_worded,
    judged, on, refuse, stop_failing, unmade, with_last, with_word,
};
use cedar_dry_run::{would_add, would_upsert};
use cedar_entities::dereference::Dereference;
use cedar_entities::entities::{Entities, TCComputation};
use cedar_entity::entity::Entity;
use cedar_entity::err::EntitiesError;
use cedar_ids::entity::EntityUID;
use cedar_slice::slice;
use std::alloc::{AllocError, Global};
use std::hash::BuildHasherDefault;
use std::rc::Rc;

type Outcome = Result<Entities, EntitiesError>;

fn entities(alloc: Global, texts: &str) -> Option<Vec<Entity>> {
    let mut all = Some(Vec::new(alloc));
    for text in texts.split(',') {
        if !text.trim().is_empty() {
            all = with_last(all, entity(alloc, text.trim()));
        }
    }
    all
}

pub(super) fn shared(alloc: Global, texts: &str) -> Option<Vec<Rc<Entity>>> {
    let mut all = Some(Vec::new(alloc));
    for text in texts.split(',') {
        if !text.trim().is_empty() {
            all = with_last(all, counted(alloc, entity(alloc, text.trim())));
        }
    }
    all
}

pub(super) fn uids(alloc: Global, names: &str) -> Option<Vec<EntityUID>> {
    let mut all = Some(Vec::new(alloc));
    for name in names.split_whitespace() {
        all = with_last(all, uid_of(alloc, name));
    }
    all
}

pub(super) fn mode_of(word: &str) -> TCComputation {
    match word {
        "assume" => TCComputation::AssumeAlreadyComputed,
        "enforce" => TCComputation::EnforceAlreadyComputed,
        _ => TCComputation::ComputeNow,
    }
}

// Returns the word of a call, its mode and its arguments.
pub(super) fn parts_of(call: &str) -> (&str, TCComputation, &str) {
    let (head, rest) = call.split_once(':').unwrap_or((call, ""));
    let head = head.trim();
    let (word, mode) = head.split_once(' ').unwrap_or((head, ""));
    (word, mode_of(mode), rest)
}

// Runs a call that creates a new store, with or without a builder of hashers.
fn from(
    alloc: Global,
    number: usize,
    texts: &str,
    with: bool,
    mode: TCComputation,
) -> Option<Outcome> {
    match entities(alloc, texts) {
        Some(list) => {
            let hasher = BuildHasherDefault::new();
            refuse(alloc, number);
            if with {
                return Some(Entities::from_entities_with_hasher(alloc, hasher, list, mode));
            }
            Some(Entities::from_entities(alloc, list, mode))
        }
        None => None,
    }
}

// Runs a call that adds or upserts entities.
fn joined(
    alloc: Global,
    number: usize,
    made: Option<(Entities, Vec<Rc<Entity>>)>,
    over: bool,
    mode: TCComputation,
) -> Option<Outcome> {
    match made {
        Some((store, list)) => {
            refuse(alloc, number);
            if over {
                return Some(store.upsert_entities(alloc, list, mode));
            }
            Some(store.add_entities(alloc, list, mode))
        }
        None => None,
    }
}

// Runs a call that removes entities.
fn removed(
    alloc: Global,
    number: usize,
    made: Option<(Entities, Vec<EntityUID>)>,
    mode: TCComputation,
) -> Option<Outcome> {
    match made {
        Some((store, list)) => {
            refuse(alloc, number);
            Some(store.remove_entities(alloc, list, mode))
        }
        None => None,
    }
}

// Runs one call on a store, while the allocation with this number is forced to fail.
pub(super) fn step(alloc: Global, number: usize, store: Entities, call: &str) -> Option<Outcome> {
    let (word, mode, rest) = parts_of(call);
    match word {
        "from" | "with" => {
            drop(store);
            from(alloc, number, rest, word == "with", mode)
        }
        "add" | "upsert" => joined(
            alloc,
            number,
            both(Some(store), shared(alloc, rest)),
            word == "upsert",
            mode,
        ),
        "remove" => removed(alloc, number, both(Some(store), uids(alloc, rest)), mode),
        "validate" => {
            refuse(alloc, number);
            Some(store.try_validate(alloc))
        }
        _ => Some(Ok(store.partial())),
    }
}

// The number of an allocation that no call reaches.
const NEVER: usize = 1 << 32;

// Returns the store after a call with enough memory.
pub(super) fn next(alloc: Global, store: Option<Entities>, call: &str) -> Option<Entities> {
    let outcome = match store {
        Some(store) => step(alloc, NEVER, store, call),
        None => None,
    };
    let _ = stop_failing(alloc);
    match outcome {
        Some(Ok(store)) => Some(store),
        Some(Err(error)) => {
            drop(error);
            None
        }
        None => None,
    }
}

// Returns the store after these calls, all of which must succeed.
pub(super) fn store_of(alloc: Global, calls: &str) -> Option<Entities> {
    let mut store = Some(Entities::new(alloc));
    for call in calls.split(';') {
        if !call.trim().is_empty() {
            store = next(alloc, store, call);
        }
    }
    store
}

fn in_order(alloc: Global, texts: Vec<String>) -> Option<String> {
    let mut texts = texts;
    texts.sort_unstable();
    let mut whole = Some(String::new(alloc));
    for text in &texts {
        whole = with_word(with_word(whole, text.as_str()), ",");
    }
    drop(texts);
    whole
}

// Returns the texts of the entities of a store, in order, with a comma after each.
fn text(alloc: Global, store: &Entities) -> Option<String> {
    let mut texts = Some(Vec::new(alloc));
    for entity in store.iter() {
        texts = with_last(texts, text_of(alloc, entity));
    }
    match texts {
        Some(texts) => in_order(alloc, texts),
        None => None,
    }
}

fn is_store(alloc: Global, store: &Entities, want: &str) -> bool {
    match text(alloc, store) {
        Some(text) => {
            let told = has_words(text.as_str(), want);
            drop(text);
            told
        }
        None => false,
    }
}

pub(super) struct OnStores;

const STORES: &str = "
    Entities::from_entities | ; from: a b, b c | a b / c / / , b c / / / ,
    Entities::from_entities | ; from: a b, b a | ! input graph has a cycle containing vertex `A::\"a\"`
    Entities::from_entities | ; from: a b, a c | ! duplicate entity `A::\"a\"`
    Entities::from_entities | ; from enforce: a b, b c | ! expected all transitive edges to exist, but `A::\"a\"` -> `A::\"b\"` and `A::\"b\"` -> `A::\"c\"` exists, while `A::\"a\"` -> `A::\"c\"` does not
    Entities::from_entities | ; from assume: a b, b c | a b / / / , b c / / / ,
    Entities::from_entities_with_hasher | ; with: a b, b c | a b / c / / , b c / / / ,
    Entities::from_entities_with_hasher | ; with: a b, b a | ! input graph has a cycle containing vertex `A::\"a\"`
    Entities::from_entities_with_hasher | ; with: a b, a c | ! duplicate entity `A::\"a\"`
    Entities::from_entities_with_hasher | ; with enforce: a b, b c | ! expected all transitive edges to exist, but `A::\"a\"` -> `A::\"b\"` and `A::\"b\"` -> `A::\"c\"` exists, while `A::\"a\"` -> `A::\"c\"` does not
    Entities::from_entities_with_hasher | ; with assume: a b, b c | a b / / / , b c / / / ,
    Entities::add_entities | from: a b, b c; add: c d, e | a b / c d / / , b c / d / / , c d / / / , e / / / ,
    Entities::add_entities | from: a b, b c, c; add: a b c | a b / c / / , b c / / / , c / / / ,
    Entities::add_entities | from: a b, b c; add: a c | ! duplicate entity `A::\"a\"`
    Entities::add_entities | from: a b; add: c c | ! input graph has a cycle containing vertex `A::\"c\"`
    Entities::add_entities | from: a b; add enforce: b c | ! expected all transitive edges to exist, but `A::\"a\"` -> `A::\"b\"` and `A::\"b\"` -> `A::\"c\"` exists, while `A::\"a\"` -> `A::\"c\"` does not
    Entities::upsert_entities | from: a b, b c; upsert: b d, e | a b / d / / , b d / / / , e / / / ,
    Entities::upsert_entities | from: a b, b c; upsert: b b | ! input graph has a cycle containing vertex `A::\"b\"`
    Entities::upsert_entities | from: b c; upsert enforce: b d, d e | ! expected all transitive edges to exist, but `A::\"b\"` -> `A::\"d\"` and `A::\"d\"` -> `A::\"e\"` exists, while `A::\"b\"` -> `A::\"e\"` does not
    Entities::remove_entities | from: a b d, b c, d c, c e; remove: b | a d / c e / / , c e / / / , d c / e / / ,
    Entities::remove_entities | from: a b, b c, c; remove enforce: b | a / / / , c / / / ,
    Entities::remove_entities | from assume: a b, b c; remove enforce: x | ! expected all transitive edges to exist, but `A::\"a\"` -> `A::\"b\"` and `A::\"b\"` -> `A::\"c\"` exists, while `A::\"a\"` -> `A::\"c\"` does not
    Entities::try_validate | from: a b, b c; validate | a b / c / / , b c / / / ,
    Entities::try_validate | from assume: a b, b c; validate | ! expected all transitive edges to exist, but `A::\"a\"` -> `A::\"b\"` and `A::\"b\"` -> `A::\"c\"` exists, while `A::\"a\"` -> `A::\"c\"` does not
    Entities::try_validate | from assume: a a; validate | ! input graph has a cycle containing vertex `A::\"a\"`
    Entities::try_validate | from assume: a b / b; validate | ! entity `A::\"a\"` has `A::\"b\"` as parent and as indirect ancestor
    Entities::try_validate | from: Action.a b; validate | ! action `Action::\"a\"` has the ancestor `A::\"b\"`, which is not an action
    Entities::try_validate | from: a / / k=!; validate | ! the key `__extn` is reserved
";

// Returns the word for a function in the texts.
fn word_of(call: &str) -> &str {
    match call {
        "Entities::from_entities" => "from",
        "Entities::from_entities_with_hasher" => "with",
        "Entities::add_entities" => "add",
        "Entities::upsert_entities" => "upsert",
        "Entities::remove_entities" => "remove",
        "Entities::try_validate" => "validate",
        _ => "",
    }
}

// Runs the last of some calls, which must be the case's call.
fn last_tried(alloc: Global, number: usize, row: Row<'_>) -> CallOutcome {
    let (calls, call) = row.given.rsplit_once(';').unwrap_or(("", row.given));
    if parts_of(call).0 != word_of(row.call) {
        return unmade();
    }
    let outcome = match store_of(alloc, calls) {
        Some(store) => step(alloc, number, store, call),
        None => None,
    };
    match outcome {
        Some(outcome) => judged(
            alloc,
            outcome,
            row.want,
            |store| is_store(alloc, store, row.want),
        ),
        None => unmade(),
    }
}

impl Calls for OnStores {
    fn tried(&self, alloc: Global, number: usize, row: Row<'_>) -> CallOutcome {
        last_tried(alloc, number, row)
    }
}

#[test]
fn each_call_that_takes_a_store(rt: HostRuntime) {
    assert!(rt; check_failures(rt, &OnStores, STORES));
}

pub(super) struct OnReading;

const READING: &str = "
    - Entities::entity | from: a b / / k=1; a | data
    - Entities::entity | from: a b; b | none
    Entities::entity | partial; A.b | unknown(\"A::\\\"b\\\"\")
    Entities::clone | from: a b, b c | a b / c / / , b c / / / ,
    IntoIter::next | from: a b / / k=1 | a b / / k=1 /
    Dereference::clone | text | \"text\"
    - Dereference::clone | unknown | unknown(\"u\")
    slice | from: a b, b c, d / / k=1; a | a b / c / / , b c / / / ,
    slice | from: a b, b c, d / / k=1; x d d | d / / k=1 / ,
    would_add | from: a b, b c; c d, x a | done
    would_add | from: a b, b c; a c | ! duplicate entity `A::\"a\"`
    would_add | from: a b; c c | ! input graph has a cycle containing vertex `A::\"c\"`
    would_upsert | from: a b, b c; b d, e | done
    would_upsert | from: a b, b c; b b | ! input graph has a cycle containing vertex `A::\"b\"`
";

// Returns whether a lookup returned the expected result.
fn is_found(alloc: Global, found: &Dereference<'_, Entity>, want: &str) -> bool {
    match found {
        Dereference::NoSuchEntity => want == "none",
        Dereference::Residual(unknown) => is_worded(alloc, unknown, want),
        Dereference::Data(_) => want == "data",
    }
}

fn looked_up(alloc: Global, number: usize, row: Row<'_>) -> CallOutcome {
    let (calls, name) = row.given.rsplit_once(';').unwrap_or((row.given, ""));
    on(
        alloc,
        number,
        both(store_of(alloc, calls), uid_of(alloc, name.trim())),
        |(store, uid)| {
            judged(alloc, store.entity(alloc, uid), row.want, |found| {
                is_found(alloc, found, row.want)
            })
        },
    )
}

fn sliced(alloc: Global, number: usize, row: Row<'_>) -> CallOutcome {
    let (calls, names) = row.given.rsplit_once(';').unwrap_or((row.given, ""));
    on(
        alloc,
        number,
        both(store_of(alloc, calls), uids(alloc, names)),
        |(store, uids)| {
            judged(
                alloc,
                slice(alloc, store, uids.as_slice()),
                row.want,
                |part| { is_store(alloc, part, row.want) },
            )
        },
    )
}

// Runs the owning iterator of a store that shares its entities with another store.
fn given_out(alloc: Global, number: usize, store: &Entities, want: &str) -> CallOutcome {
    let copy: Result<Entities, AllocError> = store.clone();
    match copy {
        Ok(copy) => {
            let mut items = copy.into_iter();
            refuse(alloc, number);
            let tried = match items.next() {
                Some(answer) => judged(
                    alloc,
                    answer,
                    want,
                    |entity| is_entity(alloc, entity, want),
                ),
                None => unmade(),
            };
            drop(items);
            tried
        }
        Err(_) => unmade(),
    }
}

fn residual_text(alloc: Global, found: &Dereference<'_, Entity>) -> Option<String> {
    match found {
        Dereference::Residual(expr) => expr.to_string(alloc).ok(),
        Dereference::NoSuchEntity | Dereference::Data(_) => None,
    }
}

fn residual_copied(alloc: Global, number: usize, row: Row<'_>) -> CallOutcome {
    match expr(alloc, row.given) {
        Some(expr) => {
            let found: Dereference<'_, Entity> = Dereference::Residual(expr);
            copied_with_text(alloc, number, Some(found), row.want, residual_text)
        }
        None => unmade(),
    }
}

// Runs the dry run of an edit.
fn edit_tried(alloc: Global, number: usize, row: Row<'_>) -> CallOutcome {
    let (calls, texts) = row.given.rsplit_once(';').unwrap_or((row.given, ""));
    on(
        alloc,
        number,
        both(store_of(alloc, calls), shared(alloc, texts)),
        |(store, list)| {
            let answer = if row.call == "would_add" {
                would_add(alloc, store, list.as_slice())
            } else {
                would_upsert(alloc, store, list.as_slice())
            };
            judged(alloc, answer, row.want, |_done| row.want == "done")
        },
    )
}

impl Calls for OnReading {
    fn tried(&self, alloc: Global, number: usize, row: Row<'_>) -> CallOutcome {
        match row.call {
            "Entities::entity" => looked_up(alloc, number, row),
            "Entities::clone" => {
                copied_with_text(alloc, number, store_of(alloc, row.given), row.want, text)
            }
            "IntoIter::next" => match store_of(alloc, row.given) {
                Some(store) => {
                    let tried = given_out(alloc, number, &store, row.want);
                    drop(store);
                    tried
                }
                None => unmade(),
            },
            "Dereference::clone" => residual_copied(alloc, number, row),
            "slice" => sliced(alloc, number, row),
            "would_add" | "would_upsert" => edit_tried(alloc, number, row),
            _ => unmade(),
        }
    }
}

#[test]
fn each_call_that_reads_a_store(rt: HostRuntime) {
    assert!(rt; check_failures(rt, &OnReading, READING));
}
