// Tests of lists of calls on a store. An entity is written as its name and its parents, all of type `A`. Entities are
// separated by commas, and calls by semicolons: `from: a b, b c`, `add: c`, `upsert: a d`, `remove: b c`, `partial`.
ghost use Rattle.std.specs.Prelude.{◌≡◌, ◌++◌, ◌∷◌, [], IfSome};
ghost use Rattle.std.specs.List.{AllByRecursion};
ghost use Rattle.cedar_entity_maps.specs.Plain.{HaveNoIndirect, HasNoIndirect, entities_in};
ghost use Rattle.cedar_replay.specs.CallsOf.{EntitiesHaveNoIndirect};

use cedar_alloc_failures::{
    Answer, CallOutcome, Calls, Row, ample_if, both, check_failures, has_words, is_worded, joined,
    refuse, stop_failing, unmade, with_last, with_word, worked_rows,
};
use cedar_entities::{Entities, EntitiesError, Entity};
use cedar_ids::entity::EntityUID;
use cedar_replay::{EntityCall, replay_entities, replay_entities_with_hasher};
use std::alloc::Global;
use std::collections::HashSet;
use std::hash::BuildHasherDefault;
use std::rc::Rc;

fn uid(alloc: Global, name: &str) -> Option<EntityUID> {
    EntityUID::with_eid_and_type(alloc, "A", name).ok()
}

fn uids(alloc: Global, names: &str) -> Option<Vec<EntityUID>> {
    let mut all = Some(Vec::new(alloc));
    for name in names.split_whitespace() {
        all = with_last(all, uid(alloc, name));
    }
    all
}

fn set_of(alloc: Global, names: &str) -> Option<HashSet<EntityUID>> {
    let mut all = Some(HashSet::new(alloc));
    for name in names.split_whitespace() {
        all = joined(all, uid(alloc, name));
    }
    all
}

// Returns the entity with this name and these parents.
fn made(alloc: Global, name: &str, parents: &str) -> Option<Entity> {
    match both(uid(alloc, name), set_of(alloc, parents)) {
        Some((uid, parents)) => Entity::new_with_attr_partial_value(
            alloc,
            uid,
            Vec::new(alloc),
            HashSet::new(alloc),
            parents,
            Vec::new(alloc),
        )
        .ok(),
        None => None,
    }
}

// Returns the entity with this text.
fn bare(alloc: Global, text: &str) -> Option<Entity>
    ensures { IfSome result HasNoIndirect }
{
    let (name, parents) = text.split_once(' ').unwrap_or((text, ""));
    match made(alloc, name, parents) {
        Some(entity) => {
            let mut entity = entity;
            entity.remove_all_indirect_ancestors();
            Some(entity)
        }
        None => None,
    }
}

// Returns the list with one more element.
fn pushed<T: Drop>(list: Vec<T>, one: T) -> Option<Vec<T>>
    ensures { IfSome result (λ v. v.items ≡ list.items ++ one ∷ []) }
{
    let mut list = list;
    match list.push(one) {
        Ok(()) => Some(list),
        Err(_) => {
            drop(list);
            None
        }
    }
}

// Returns the entities with these texts.
fn bare_of(alloc: Global, texts: &str) -> Option<Vec<Entity>>
    ensures { IfSome result (λ v. HaveNoIndirect v.items) }
{
    let mut list = Vec::new(alloc);
    for text in texts.split(',') {
        match bare(alloc, text.trim()) {
            Some(entity) => list = pushed(list, entity)?,
            None => {
                drop(list);
                return None;
            }
        }
    }
    Some(list)
}

// Moves each entity into an `Rc`.
fn shared_all(alloc: Global, list: Vec<Entity>) -> Option<Vec<Rc<Entity>>>
    ensures { IfSome result (λ v. entities_in v.items ≡ list.items) }
{
    let mut all = Vec::new(alloc);
    for entity in list {
        let one = Rc::new(alloc, entity).ok()?;
        all = pushed(all, one)?;
    }
    Some(all)
}

// Returns the call with this text.
fn call_of(alloc: Global, text: &str) -> Option<EntityCall>
    ensures { IfSome result EntitiesHaveNoIndirect }
{
    let (word, rest) = text.split_once(": ").unwrap_or((text, ""));
    match word {
        "from" => Some(EntityCall::From(bare_of(alloc, rest)?)),
        "add" => Some(EntityCall::Add(shared_all(alloc, bare_of(alloc, rest)?)?)),
        "upsert" => Some(EntityCall::Upsert(shared_all(alloc, bare_of(alloc, rest)?)?)),
        "remove" => Some(EntityCall::Remove(uids(alloc, rest)?)),
        _ => Some(EntityCall::Partial),
    }
}

// Returns the calls with these texts.
fn calls_of(alloc: Global, texts: &str) -> Option<Vec<EntityCall>>
    ensures { IfSome result (λ v. AllByRecursion EntitiesHaveNoIndirect v.items) }
{
    let mut list = Vec::new(alloc);
    for text in texts.split(';') {
        match call_of(alloc, text.trim()) {
            Some(call) => list = pushed(list, call)?,
            None => {
                drop(list);
                return None;
            }
        }
    }
    Some(list)
}

// Returns the eids of a store's entities, each with a comma and the number of its ancestors.
fn told_of(alloc: Global, store: &Entities) -> Option<String> {
    let mut texts = Some(Vec::new(alloc));
    for entity in store.iter() {
        texts = with_last(texts, entity_text(alloc, entity));
    }
    match texts {
        Some(texts) => in_order(alloc, texts),
        None => None,
    }
}

fn entity_text(alloc: Global, entity: &Entity) -> Option<String> {
    let eid = entity.uid().eid().as_ref();
    let ancestors = entity.ancestors().count();
    format!(in alloc; "{eid} {ancestors},").ok()
}

fn in_order(alloc: Global, texts: Vec<String>) -> Option<String> {
    let mut texts = texts;
    texts.sort_unstable();
    let mut whole = Some(String::new(alloc));
    for text in &texts {
        whole = with_word(whole, text.as_str());
    }
    drop(texts);
    whole
}

// Returns whether a store has this text.
fn is_store(alloc: Global, store: &Entities, want: &str) -> bool {
    match told_of(alloc, store) {
        Some(text) => {
            let told = has_words(text.as_str(), want);
            drop(text);
            told
        }
        None => false,
    }
}

// Returns the outcome for an error. The expected number of calls before it and its expected text follow `! `.
fn refusal(alloc: Global, done: usize, error: EntitiesError, want: &str) -> Answer {
    let is_memory = is_worded(alloc, &error, "out of memory");
    let (number, text) = want
        .trim_start_matches("! ")
        .split_once(' ')
        .unwrap_or((want, ""));
    let told = is_worded(alloc, &done, number) && is_worded(alloc, &error, text);
    drop(error);
    if is_memory {
        Answer::Memory
    } else {
        ample_if(told)
    }
}

struct OnLists;

const LISTS: &str = "
    replay_entities | from: a b, b c; add: c d; upsert: b e; remove: c; partial | a 2, b 1,
    replay_entities | add: a b; add: b c, d a; remove: b | a 0, d 1,
    replay_entities | from: a b, a c | ! 0 duplicate entity `A::\"a\"`
    replay_entities | from: a b; upsert: b a | ! 1 input graph has a cycle containing vertex `A::\"b\"`
    replay_entities | partial; from: a b; partial; upsert: a c, d a | a 1, d 2,
    replay_entities | from: a b; add: c c | ! 1 input graph has a cycle containing vertex `A::\"c\"`
    replay_entities | add: a b; remove: x; add: a c | ! 2 duplicate entity `A::\"a\"`
    - replay_entities | partial
    replay_entities_with_hasher | from: a b, b c; add: c d; upsert: b e; remove: c; partial | a 2, b 1,
    replay_entities_with_hasher | from: a b; add: c c | ! 1 input graph has a cycle containing vertex `A::\"c\"`
";

impl Calls for OnLists {
    fn tried(&self, alloc: Global, number: usize, row: Row<'_>) -> CallOutcome {
        match calls_of(alloc, row.given) {
            Some(calls) => {
                refuse(alloc, number);
                let answer = if row.call == "replay_entities" {
                    replay_entities(alloc, calls)
                } else {
                    replay_entities_with_hasher(alloc, BuildHasherDefault::new(), calls)
                };
                let refused = stop_failing(alloc);
                let answer = match answer {
                    Ok(store) => {
                        let told = is_store(alloc, &store, row.want);
                        drop(store);
                        ample_if(told)
                    }
                    Err((done, error)) => refusal(alloc, done, error, row.want),
                };
                CallOutcome { answer, refused }
            }
            None => unmade(),
        }
    }
}

#[test]
fn each_list_of_calls(rt: HostRuntime) {
    assert!(rt; check_failures(rt, &OnLists, LISTS));
}

const WORKED: &str = "
# calls are made in turn
    replay_entities | from: a b, b c, c; remove: b | a 0, c 0,
    replay_entities | from: a b d, b c, d c, c; remove: b | a 2, c 0, d 1,
    replay_entities | from: a b | a 1,
    replay_entities | from: a b; remove: b | a 1,
    replay_entities | from: a b; remove: b; add: b c | a 2, b 1,
    replay_entities | from: a b d, b c, d c, c e; remove: b d | a 0, c 1,
    replay_entities | from: a b d, b c, d c, c e; remove: b | a 3, c 1, d 2,
    replay_entities | from: a b, b c, c; upsert: c b, b | a 1, b 0, c 1,
    replay_entities | from: a b; upsert: a c, a d | a 1,
    replay_entities | from: a b, b c, c; add: a b c | a 2, b 1, c 0,
# the first refusal ends the calls
    replay_entities | from: a b; add: b a; from: c | ! 1 input graph has a cycle containing vertex _
    replay_entities | from: a a | ! 0 input graph has a cycle containing vertex `A::\"a\"`
    replay_entities | from: a b, b c, c; add: a b | ! 1 duplicate entity `A::\"a\"`
    replay_entities | from: c; add: a b; upsert: b a; remove: a | ! 2 input graph has a cycle containing vertex _
    replay_entities | add: a b, a c | ! 0 duplicate entity `A::\"a\"`
    replay_entities | partial; remove: z; add: b; from: b c, b | ! 3 duplicate entity `A::\"b\"`
# a store starts anew and becomes partial
    replay_entities | from: a b; from: c | c 0,
    replay_entities | partial
    replay_entities | partial; add: a | a 0,
    replay_entities | from: a; partial; upsert: b a; remove: a | b 0,
    replay_entities | partial; from: a | a 0,
";

#[test]
fn what_lists_of_calls_leave(rt: HostRuntime) {
    assert!(rt; worked_rows(rt, &OnLists, WORKED));
}
