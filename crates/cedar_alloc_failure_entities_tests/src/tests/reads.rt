// Tests of comparing, printing and counting entities and stores. They do not allocate in the tested layer, or test no
// function of its own.
use super::parts::entity;
use super::stores::{next, store_of};
use cedar_alloc_failures::{
    CallOutcome, Calls, InTurn, Row, both, in_turn, made, on, row_of, unmade, with_last,
    worked_rows,
};
use cedar_entities::entities::{Entities, TCComputation};
use cedar_entity::entity::Entity;
use std::alloc::{AllocError, Global};
use std::hash::{DefaultHasher, Hash, Hasher};

struct OnReads;

const READS: &str = "
# stores are equal where they have the same uids, and deeply where their entities are the same
    compare | ~ | deeply
    compare | ~ partial | not
    compare | ~ from: a | not
    compare | from: a b, b c ~ from: b c, a b | deeply
    compare | from: a b, b c ~ from: a b c, b c | deeply
    compare | from: a b ~ from: a c | by uids
    compare | from: a ~ from: b | not
    compare | from: a, b ~ from: a | not
    compare | from: a, b ~ from: a, c | not
    compare | from: a / / k=1 ~ from: a / / k=2 | by uids
    compare | from: a / / / k=1 ~ from: a | by uids
    compare | from: a b; partial ~ from: a b | not
    compare | from: a b; partial ~ partial; add: a b | deeply
    compare | from assume: a b, b c ~ from: a b, b c | by uids
    compare | from: a ~ from: B.a | not
# how many entities and how many ancestors of all of them there are, of a partial store too
    count | ; | 0 0
    count | from: a b, b c | 2 3
    count | from: a, b, c; remove: b | 2 0
    count | from: a b; partial | partial 1 1
    count | partial; from: a | 1 0
    count | partial; add: a | partial 1 0
    count | chain 500 | 500 124750
    count | chain 500; remove: n250 | 499 62001
# stores are written in the order of their uids
    write | ; | <empty Entities>
    write | partial | <empty Entities>
    write | from: a b / / k=1 / t=2 | A::\"a\": attrs:k: 1 ancestors:A::\"b\"
    write | from: b z, a c b, Z.a, c | A::\"a\": attrs: ancestors:A::\"b\", A::\"c\", A::\"z\" A::\"b\": attrs: ancestors:A::\"z\" A::\"c\": attrs: ancestors: Z::\"a\": attrs: ancestors:
# deep equality looks at all but who is a parent, equality and hash at the uid alone
    entities | a b / c / k=1 / k=1 ~ a b / c / k=1 / k=1 | deep equal
    entities | a b / c / k=1 / k=1 ~ a c / b / k=1 / k=1 | deep equal
    entities | a b / c / k=1 / k=1 ~ a b c / / k=1 / k=1 | deep equal
    entities | a b / c / k=1 / k=1 ~ a b c / b c / k=1 / k=1 | deep equal
    entities | a b / c / k=1 / k=1 ~ d b / c / k=1 / k=1 | other
    entities | a b / c / k=1 / k=1 ~ a b / c / k=2 / k=1 | equal
    entities | a b / c / k=1 / k=1 ~ a b / c / k=1 / k=2 | equal
    entities | a b / c / k=1 / k=1 ~ a b / / k=1 / k=1 | equal
    entities | a b / c / k=1 / k=1 ~ a b / d / k=1 / k=1 | equal
    entities | a b / c / k=2 k=1 / ~ a / / / | equal
    entities | a b / c / k=2 k=1 / ~ b / / / | other
# an entity is written on three lines, its ancestors in order and once, its attributes in order and past ASCII
    entity | a b / c / k=2 k=1 / | A::\"a\": attrs:k: 1 ancestors:A::\"b\", A::\"c\"
    entity | A::B. / / / | A::B::\"\": attrs: ancestors:
    entity | T.t Z.a z B.m / z b B::A.x C.0 / / | T::\"t\": attrs: ancestors:A::\"b\", A::\"z\", B::A::\"x\", B::\"m\", C::\"0\", Z::\"a\"
";

// Compares two entities in both directions, and by hash.
fn beside(one: &Entity, other: &Entity) -> &'static str {
    let deeply = (one.deep_eq(other), other.deep_eq(one));
    let plainly = (one == other, other == one, hash_of(one) == hash_of(other));
    match (deeply, plainly) {
        ((true, true), (true, true, true)) => "deep equal",
        ((false, false), (true, true, true)) => "equal",
        ((false, false), (false, false, false)) => "other",
        _ => "neither so nor so",
    }
}

fn hash_of(entity: &Entity) -> u64 {
    let mut state = DefaultHasher::new();
    entity.hash(&mut state);
    state.finish()
}

fn entities_compared(alloc: Global, number: usize, row: Row<'_>) -> CallOutcome {
    let (one, other) = row.given.split_once('~').unwrap_or((row.given, ""));
    on(
        alloc,
        number,
        both(entity(alloc, one.trim()), entity(alloc, other.trim())),
        |(one, other)| {
            let told: Result<&'static str, AllocError> = Ok(beside(one, other));
            made(alloc, told, row.want)
        },
    )
}

// Compares two stores in both directions.
fn stand(one: &Entities, other: &Entities) -> &'static str {
    let deeply = (one.deep_eq(other), other.deep_eq(one));
    let plainly = (one == other, other == one);
    match (deeply, plainly) {
        ((true, true), (true, true)) => "deeply",
        ((false, false), (true, true)) => "by uids",
        ((false, false), (false, false)) => "not",
        _ => "neither so nor so",
    }
}

fn compared(alloc: Global, number: usize, row: Row<'_>) -> CallOutcome {
    let (one, other) = row.given.split_once('~').unwrap_or((row.given, ""));
    on(
        alloc,
        number,
        both(store_of(alloc, one), store_of(alloc, other)),
        |(one, other)| {
            let told: Result<&'static str, AllocError> = Ok(stand(one, other));
            made(alloc, told, row.want)
        },
    )
}

// Returns the entity with this number in a chain. The next entity is its parent, unless it is the last one.
fn chained(alloc: Global, number: u32, many: u32) -> Option<Entity> {
    let next = number.saturating_add(1);
    let text = if next < many {
        format!(in alloc; "n{number} n{next}")
    } else {
        format!(in alloc; "n{number}")
    };
    match text {
        Ok(text) => {
            let made = entity(alloc, text.as_str());
            drop(text);
            made
        }
        Err(_) => None,
    }
}

// Returns a store of a chain of this many entities. Each has the next as its parent.
fn chain(alloc: Global, many: u32) -> Option<Entities> {
    let mut all = Some(Vec::new(alloc));
    for number in 0..many {
        all = with_last(all, chained(alloc, number, many));
    }
    match all {
        Some(all) => Entities::from_entities(alloc, all, TCComputation::ComputeNow).ok(),
        None => None,
    }
}

// Returns the store after the calls of a text. If the text begins with `chain N`, the calls begin with a chain of N
// entities.
fn counted_store(alloc: Global, calls: &str) -> Option<Entities> {
    match calls.strip_prefix("chain ") {
        Some(rest) => {
            let (many, call) = rest.split_once(';').unwrap_or((rest, "add:"));
            next(alloc, chain(alloc, many.parse().unwrap_or(0)), call)
        }
        None => store_of(alloc, calls),
    }
}

// Returns the number of entities of a store, and the number of their ancestors.
fn counts(store: &Entities) -> (usize, usize) {
    let mut many = 0_usize;
    let mut above = 0_usize;
    for entity in store.iter() {
        many = many.saturating_add(1);
        above = above.saturating_add(entity.ancestors().count());
    }
    (many, above)
}

fn count(alloc: Global, store: &Entities) -> Result<String, AllocError> {
    let (many, above) = counts(store);
    let word = match (
        store.is_partial(),
        many == store.len(),
        store.is_empty() == (many == 0),
    ) {
        (true, true, true) => "partial ",
        (false, true, true) => "",
        _ => "miscounted ",
    };
    format!(in alloc; "{word}{many} {above}")
}

impl Calls for OnReads {
    fn tried(&self, alloc: Global, number: usize, row: Row<'_>) -> CallOutcome {
        match row.call {
            "entities" => entities_compared(alloc, number, row),
            "entity" => on(alloc, number, entity(alloc, row.given), |entity| {
                made(alloc, entity.to_string(alloc), row.want)
            }),
            "compare" => compared(alloc, number, row),
            "count" => on(alloc, number, counted_store(alloc, row.given), |store| {
                made(alloc, count(alloc, store), row.want)
            }),
            "write" => on(alloc, number, store_of(alloc, row.given), |store| {
                made(alloc, store.to_string(alloc), row.want)
            }),
            _ => unmade(),
        }
    }
}

#[test]
fn what_stores_are(rt: HostRuntime) {
    assert!(rt; worked_rows(rt, &OnReads, READS));
}

// Cases of writing a store with injected failures. If the list of the ordered entities cannot be allocated, each entity
// is found by a scan.
const WRITTEN: &str = "
    write | ; | <empty Entities>
    write | from: b z, a c b, Z.a, c | A::\"a\": attrs: ancestors:A::\"b\", A::\"c\", A::\"z\" A::\"b\": attrs: ancestors:A::\"z\" A::\"c\": attrs: ancestors: Z::\"a\": attrs: ancestors:
";

// Returns whether all cases of a text succeed with injected failures.
fn go_well(alloc: Global, rows: &str) -> bool {
    for line in rows.lines() {
        if let Some(row) = row_of(line)
            && !matches!(in_turn(alloc, &OnReads, row), InTurn::Well(_))
        {
            return false;
        }
    }
    true
}

#[test]
fn stores_are_written_in_order_where_memory_for_it_is_refused(rt: HostRuntime) {
    assert!(rt; go_well(rt.alloc(), WRITTEN));
}
