// A map is written as its keys, in order: `abc`. Each key is a letter, and its value is the same letter. In the second
// field of a case a space separates the two arguments of a call. `nothing` is the map without keys.
use cedar_alloc_failures::{
    CallOutcome, Calls, Row, check_failures, judged, refuse, unmade, worked_rows,
};
use cedar_linked_map::{LinkedMap, LinkedSet};
use indexmap::{IndexMap, IndexSet};
use std::alloc::{AllocError, Global};
use std::hash::{BuildHasherDefault, FoldHasher};

type Hashing = BuildHasherDefault<FoldHasher>;

type Map = LinkedMap<u8, u8, Hashing>;

type Set = LinkedSet<u8, Hashing>;

// Returns the map with these keys.
fn map_of(alloc: Global, keys: &str) -> Option<Map> {
    let mut map = LinkedMap::with_hasher(alloc, BuildHasherDefault::new());
    for key in keys.as_bytes() {
        if map.insert(*key, *key).is_err() {
            drop(map);
            return None;
        }
    }
    Some(map)
}

// Returns the set with these values.
fn set_of(alloc: Global, values: &str) -> Option<Set> {
    let mut set = LinkedSet::with_hasher(alloc, BuildHasherDefault::new());
    for value in values.as_bytes() {
        if set.insert(*value).is_err() {
            drop(set);
            return None;
        }
    }
    Some(set)
}

// Returns the `IndexMap` with these keys.
fn index_map_of(alloc: Global, keys: &str) -> Option<IndexMap<u8, u8, Hashing>> {
    let mut map = IndexMap::with_hasher(alloc, BuildHasherDefault::new());
    for key in keys.as_bytes() {
        if map.insert(*key, *key).is_err() {
            drop(map);
            return None;
        }
    }
    Some(map)
}

// Returns the `IndexSet` with these values.
fn index_set_of(alloc: Global, values: &str) -> Option<IndexSet<u8, Hashing>> {
    let mut set = IndexSet::with_hasher(alloc, BuildHasherDefault::new());
    for value in values.as_bytes() {
        if set.insert(*value).is_err() {
            drop(set);
            return None;
        }
    }
    Some(set)
}

// Returns whether the iterators and the lookups of a map return exactly these keys, in order.
fn has_keys(map: &Map, want: &str) -> bool {
    let mut due = want.as_bytes().iter();
    let mut values = map.values();
    let mut next = 0;
    for (key, value) in map.iter() {
        let found = match map.get_near(key, &mut next) {
            Some((_, found)) => found == value && map.get(key) == Some(value),
            None => false,
        };
        if !found || due.next() != Some(key) || values.next() != Some(value) || key != value {
            return false;
        }
    }
    let last = match map.last() {
        Some((key, _)) => want.as_bytes().last() == Some(key),
        None => want.is_empty() && map.is_empty(),
    };
    due.next().is_none() && values.next().is_none() && last && map.len() == want.len()
}

// Returns whether a set contains exactly these values, in order.
fn has_values(set: &Set, want: &str) -> bool {
    let mut due = want.as_bytes().iter();
    for value in set.iter() {
        if due.next() != Some(value) {
            return false;
        }
    }
    due.next().is_none() && set.len() == want.len() && set.is_empty() == want.is_empty()
}

// Returns the outcome of a call on a map, which has these keys after it, also after an error.
fn left(
    alloc: Global,
    map: Map,
    answer: Result<(), AllocError>,
    keys: (&str, &str),
) -> CallOutcome {
    let (before, after) = keys;
    let kept = has_keys(&map, if answer.is_ok() { after } else { before });
    drop(map);
    let outcome = judged(alloc, answer, after, |_| true);
    if kept { outcome } else { unmade() }
}

// Returns the outcome of a call on a set, which has these values after it, also after an error.
fn left_in_set(
    alloc: Global,
    set: Set,
    answer: Result<(), AllocError>,
    values: (&str, &str),
) -> CallOutcome {
    let (before, after) = values;
    let kept = has_values(&set, if answer.is_ok() { after } else { before });
    drop(set);
    let outcome = judged(alloc, answer, after, |_| true);
    if kept { outcome } else { unmade() }
}

fn reserved(alloc: Global, number: usize, row: Row<'_>) -> CallOutcome {
    match map_of(alloc, row.given) {
        Some(map) => {
            let mut map = map;
            refuse(alloc, number);
            let answer = map.reserve(20);
            left(alloc, map, answer, (row.given, row.want))
        }
        None => unmade(),
    }
}

fn appended(alloc: Global, number: usize, row: Row<'_>) -> CallOutcome {
    let (here, there) = row.given.split_once(' ').unwrap_or((row.given, ""));
    match map_of(alloc, here) {
        Some(map) => match map_of(alloc, there) {
            Some(other) => {
                let mut map = map;
                let mut other = other;
                refuse(alloc, number);
                let answer = map.append(&mut other);
                let emptied = has_keys(&other, if answer.is_ok() { "" } else { there });
                drop(other);
                let outcome = left(alloc, map, answer, (here, row.want));
                if emptied { outcome } else { unmade() }
            }
            None => {
                drop(map);
                unmade()
            }
        },
        None => unmade(),
    }
}

fn copied(alloc: Global, number: usize, row: Row<'_>) -> CallOutcome {
    match map_of(alloc, row.given) {
        Some(map) => {
            refuse(alloc, number);
            let copy: Result<Map, AllocError> = map.clone();
            drop(map);
            judged(alloc, copy, row.want, |copy| has_keys(copy, row.want))
        }
        None => unmade(),
    }
}

fn converted(alloc: Global, number: usize, row: Row<'_>) -> CallOutcome {
    match index_map_of(alloc, row.given) {
        Some(map) => {
            refuse(alloc, number);
            let linked = LinkedMap::from_index_map(alloc, map);
            judged(alloc, linked, row.want, |map| has_keys(map, row.want))
        }
        None => unmade(),
    }
}

fn with_space(alloc: Global, number: usize, row: Row<'_>) -> CallOutcome {
    refuse(alloc, number);
    let map: Result<Map, AllocError> = LinkedMap::with_capacity_and_hasher(
        alloc,
        20,
        BuildHasherDefault::new(),
    );
    judged(alloc, map, row.want, |map| has_keys(map, row.want))
}

fn reserved_in_set(alloc: Global, number: usize, row: Row<'_>) -> CallOutcome {
    match set_of(alloc, row.given) {
        Some(set) => {
            let mut set = set;
            refuse(alloc, number);
            let answer = set.reserve(20);
            left_in_set(alloc, set, answer, (row.given, row.want))
        }
        None => unmade(),
    }
}

fn appended_to_set(alloc: Global, number: usize, row: Row<'_>) -> CallOutcome {
    let (here, there) = row.given.split_once(' ').unwrap_or((row.given, ""));
    match set_of(alloc, here) {
        Some(set) => match set_of(alloc, there) {
            Some(other) => {
                let mut set = set;
                let mut other = other;
                refuse(alloc, number);
                let answer = set.append(&mut other);
                let emptied = has_values(&other, if answer.is_ok() { "" } else { there });
                drop(other);
                let outcome = left_in_set(alloc, set, answer, (here, row.want));
                if emptied { outcome } else { unmade() }
            }
            None => {
                drop(set);
                unmade()
            }
        },
        None => unmade(),
    }
}

fn copied_set(alloc: Global, number: usize, row: Row<'_>) -> CallOutcome {
    match set_of(alloc, row.given) {
        Some(set) => {
            refuse(alloc, number);
            let copy: Result<Set, AllocError> = set.clone();
            drop(set);
            judged(alloc, copy, row.want, |copy| has_values(copy, row.want))
        }
        None => unmade(),
    }
}

fn converted_set(alloc: Global, number: usize, row: Row<'_>) -> CallOutcome {
    match index_set_of(alloc, row.given) {
        Some(set) => {
            refuse(alloc, number);
            let linked = LinkedSet::from_index_set(alloc, set);
            judged(alloc, linked, row.want, |set| has_values(set, row.want))
        }
        None => unmade(),
    }
}

// Removes keys from a map and from a set, one after another. No removal allocates.
fn removed(alloc: Global, number: usize, row: Row<'_>) -> CallOutcome {
    let (keys, gone) = row.given.split_once(' ').unwrap_or((row.given, ""));
    match map_of(alloc, keys) {
        Some(map) => match set_of(alloc, keys) {
            Some(set) => {
                let mut map = map;
                let mut set = set;
                refuse(alloc, number);
                let mut were_there = true;
                for key in gone.as_bytes() {
                    were_there = were_there && map.shift_remove(key) == Some(*key);
                    were_there = were_there && set.shift_remove(key) && !set.shift_remove(key);
                }
                let is_right = were_there && has_values(&set, row.want);
                drop(set);
                let outcome = left(alloc, map, Ok(()), (keys, row.want));
                if is_right { outcome } else { unmade() }
            }
            None => {
                drop(map);
                unmade()
            }
        },
        None => unmade(),
    }
}

// Removes keys from a map near their places, one after another. No removal allocates.
fn removed_near(alloc: Global, number: usize, row: Row<'_>) -> CallOutcome {
    let (keys, gone) = row.given.split_once(' ').unwrap_or((row.given, ""));
    match map_of(alloc, keys) {
        Some(map) => {
            let mut map = map;
            refuse(alloc, number);
            let mut were_there = true;
            for key in gone.as_bytes() {
                let mut next = usize::MAX;
                let place = match map.get_near(key, &mut next) {
                    Some((place, _)) => place,
                    None => usize::MAX,
                };
                were_there = were_there && map.shift_remove_near(key, place) == Some(*key);
                were_there = were_there && map.shift_remove_near(key, place).is_none();
            }
            let outcome = left(alloc, map, Ok(()), (keys, row.want));
            if were_there { outcome } else { unmade() }
        }
        None => unmade(),
    }
}

// Consumes the values of a map.
fn consumed(alloc: Global, number: usize, row: Row<'_>) -> CallOutcome {
    let (keys, gone) = row.given.split_once(' ').unwrap_or((row.given, ""));
    match map_of(alloc, keys) {
        Some(map) => {
            let mut map = map;
            for key in gone.as_bytes() {
                drop(map.shift_remove(key));
            }
            refuse(alloc, number);
            let mut due = row.want.as_bytes().iter();
            let mut is_right = true;
            for value in map.into_values() {
                is_right = is_right && due.next() == Some(&value);
            }
            let is_right = is_right && due.next().is_none();
            let answer: Result<(), AllocError> = Ok(());
            judged(alloc, answer, row.want, |_| is_right)
        }
        None => unmade(),
    }
}

struct OnMaps;

const CALLS: &str = "
    LinkedMap::reserve | abc | abc
    LinkedMap::append | abc defghijklmnopqrstuvwxyz | abcdefghijklmnopqrstuvwxyz
    - LinkedMap::append | abc cbx | abcx
    LinkedMap::clone | abc | abc
    - LinkedMap::clone | nothing | nothing
    LinkedMap::from_index_map | abc | abc
    LinkedMap::with_capacity_and_hasher | nothing | nothing
    LinkedSet::reserve | abc | abc
    LinkedSet::append | abc defghijklmnopqrstuvwxyz | abcdefghijklmnopqrstuvwxyz
    - LinkedSet::append | abc cbx | abcx
    LinkedSet::clone | abc | abc
    LinkedSet::from_index_set | abc | abc
    - LinkedMap::shift_remove | abcde a | bcde
    - LinkedMap::shift_remove | abcde c | abde
    - LinkedMap::shift_remove | abcde e | abcd
    - LinkedMap::shift_remove | abcde bd | ace
    - LinkedMap::shift_remove | abcde db | ace
    - LinkedMap::shift_remove_near | abcde a | bcde
    - LinkedMap::shift_remove_near | abcde eb | acd
    - LinkedMap::into_values | abcde b | acde
    - LinkedMap::into_values | abcde ea | bcd
";

// The last of four entries, after removals in all orders.
const ORDERS: &str = "
    removed | abcd abc | d
    removed | abcd abd | c
    removed | abcd acb | d
    removed | abcd acd | b
    removed | abcd adb | c
    removed | abcd adc | b
    removed | abcd bac | d
    removed | abcd bad | c
    removed | abcd bca | d
    removed | abcd bcd | a
    removed | abcd bda | c
    removed | abcd bdc | a
    removed | abcd cab | d
    removed | abcd cad | b
    removed | abcd cba | d
    removed | abcd cbd | a
    removed | abcd cda | b
    removed | abcd cdb | a
    removed | abcd dab | c
    removed | abcd dac | b
    removed | abcd dba | c
    removed | abcd dbc | a
    removed | abcd dca | b
    removed | abcd dcb | a
    removed | abcd ab | cd
    removed | abcd ac | bd
    removed | abcd ad | bc
    removed | abcd ba | cd
    removed | abcd bc | ad
    removed | abcd bd | ac
    removed | abcd ca | bd
    removed | abcd cb | ad
    removed | abcd cd | ab
    removed | abcd da | bc
    removed | abcd db | ac
    removed | abcd dc | ab
    removed | abcd abcd | nothing
    removed | abcd dcba | nothing
    removed | abcdefgh aceg | bdfh
    removed | abcdefgh hfdb | aceg
    consumed | abcdefgh aceg | bdfh
    consumed | abcdefgh hb | acdefg
";

// Returns the keys of a field of a case.
fn keys_in(text: &str) -> &str {
    if text == "nothing" { "" } else { text }
}

impl Calls for OnMaps {
    fn tried(&self, alloc: Global, number: usize, row: Row<'_>) -> CallOutcome {
        let row = Row {
            given: keys_in(row.given),
            want: keys_in(row.want),
            ..row
        };
        match row.call {
            "LinkedMap::reserve" => reserved(alloc, number, row),
            "LinkedMap::append" => appended(alloc, number, row),
            "LinkedMap::clone" => copied(alloc, number, row),
            "LinkedMap::from_index_map" => converted(alloc, number, row),
            "LinkedMap::with_capacity_and_hasher" => with_space(alloc, number, row),
            "LinkedSet::reserve" => reserved_in_set(alloc, number, row),
            "LinkedSet::append" => appended_to_set(alloc, number, row),
            "LinkedSet::clone" => copied_set(alloc, number, row),
            "LinkedSet::from_index_set" => converted_set(alloc, number, row),
            "LinkedMap::shift_remove" | "removed" => removed(alloc, number, row),
            "LinkedMap::shift_remove_near" => removed_near(alloc, number, row),
            "LinkedMap::into_values" | "consumed" => consumed(alloc, number, row),
            _ => unmade(),
        }
    }
}

#[test]
fn each_allocation_can_fail(rt: HostRuntime) {
    assert!(rt; check_failures(rt, &OnMaps, CALLS));
}

#[test]
fn removals_keep_the_order(rt: HostRuntime) {
    assert!(rt; worked_rows(rt, &OnMaps, ORDERS));
}
