// Tests of values: printed texts, order, and the creation of sets and records.
use super::{
    boolean, both, called, copies, copy_of, differ, entity, extension, hash_of, is_written, long,
    longs, owned, place, record, record_of, set_of, shows, start_of, text, with_last,
};
use cedar_terms::literal::Literal;
use cedar_terms::value::{Value, ValueKind};
use std::alloc::Global;

// The number of values of `nth`.
const VALUES: usize = 29;

// Returns values in ascending order.
fn nth(alloc: Global, place: usize) -> Option<Value> {
    match place {
        0 => Some(boolean(false)),
        1 => Some(boolean(true)),
        2 => Some(long(i64::MIN)),
        3 => Some(long(-42)),
        4 => Some(long(0)),
        5 => Some(long(7)),
        6 => text(alloc, ""),
        7 => text(alloc, "\u{1}\u{7f}\0"),
        8 => text(alloc, "it's\t\"x\"\\"),
        9 => text(alloc, "it's\t\"x\"\\y"),
        10 => text(alloc, "é"),
        11 => entity(alloc, "AA", "it's"),
        12 => entity(alloc, "AA", "zzz"),
        13 => entity(alloc, "B::AA", "aaa"),
        14 => entity(alloc, "B", "aaa"),
        15 => longs(alloc, &[]),
        16 => longs(alloc, &[1]),
        17 => longs(alloc, &[3, 1, 2]),
        18 => longs(alloc, &[1, 3]),
        19 => longs(alloc, &[2]),
        20 => record(alloc, &[]),
        21 => record(alloc, &[("a", 1)]),
        22 => record(alloc, &[("x\"y", 1), ("a", 1), ("é", 3)]),
        23 => record(alloc, &[("a", 2)]),
        24 => record(alloc, &[("b", 0)]),
        25 => extension(alloc, "A::decimal", "it's"),
        26 => extension(alloc, "ip", "10.0.0.1"),
        27 => extension(alloc, "ip", "é"),
        _ => extension(alloc, "A::ip", ""),
    }
}

// The printed texts of the values of `nth`.
const TEXTS: [&str; 29] = [
    "false",
    "true",
    "-9223372036854775808",
    "-42",
    "0",
    "7",
    "\"\"",
    "\"\\u{1}\\u{7f}\\0\"",
    "\"it\\'s\\t\\\"x\\\"\\\\\"",
    "\"it\\'s\\t\\\"x\\\"\\\\y\"",
    "\"é\"",
    "AA::\"it\\'s\"",
    "AA::\"zzz\"",
    "B::AA::\"aaa\"",
    "B::\"aaa\"",
    "[]",
    "[1]",
    "[1, 2, 3]",
    "[1, 3]",
    "[2]",
    "{}",
    "{\"a\": 1}",
    "{\"a\": 1, \"x\\\"y\": 1, \"é\": 3}",
    "{\"a\": 2}",
    "{\"b\": 0}",
    "A::decimal(\"it\\'s\")",
    "ip(\"10.0.0.1\")",
    "ip(\"é\")",
    "A::ip(\"\")",
];

#[test]
fn values_are_written(rt: HostRuntime) {
    let alloc = rt.alloc();
    for (i, want) in TEXTS.iter().enumerate() {
        assert!(rt; shows(alloc, nth(alloc, i), want), "{want}");
    }
}

// Returns whether two values compare as their indices do, in each comparison.
fn stand(a: &Value, b: &Value, i: usize, j: usize) -> bool {
    let same = i == j;
    a.cmp(b) == i.cmp(&j)
        && a.partial_cmp(b) == Some(i.cmp(&j))
        && (a == b) == same
        && (a.value == b.value) == same
        && (hash_of(a) == hash_of(b)) == same
        && (hash_of(&a.value) == hash_of(&b.value)) == same
}

// Returns whether the values at two indices compare as the indices do, in each comparison.
fn nth_stand(alloc: Global, i: usize, j: usize) -> bool {
    match both(nth(alloc, i), nth(alloc, j)) {
        Some((a, b)) => {
            let told = stand(&a, &b, i, j);
            drop(a);
            drop(b);
            told
        }
        None => false,
    }
}

#[test]
fn values_have_one_order(rt: HostRuntime) {
    let alloc = rt.alloc();
    for i in 0..VALUES {
        for j in 0..VALUES {
            assert!(rt; nth_stand(alloc, i, j), "{i} and {j}");
        }
    }
}

// Returns the kind and content of the value at an index.
fn kind_of(alloc: Global, place: usize) -> Option<ValueKind> {
    match nth(alloc, place) {
        Some(value) => {
            let Value { value: kind, loc } = value;
            drop(loc);
            Some(kind)
        }
        None => None,
    }
}

// Returns whether a copy of the content of the value at an index equals it.
fn kind_copies(alloc: Global, place: usize) -> bool {
    match both(copy_of(kind_of(alloc, place)), kind_of(alloc, place)) {
        Some((copy, kind)) => {
            let told = copy == kind;
            drop(copy);
            drop(kind);
            told
        }
        None => false,
    }
}

#[test]
fn a_copy_is_equal(rt: HostRuntime) {
    let alloc = rt.alloc();
    for i in 0..VALUES {
        assert!(rt; copies(nth(alloc, i)), "{i}");
        assert!(rt; kind_copies(alloc, i), "{i}");
    }
}

// `[{"k": 1, "j": 2}, [5, 4]]`, unsorted, and two more values.
fn inner(alloc: Global) -> Option<Vec<Value>> {
    let first = with_last(Some(Vec::new(alloc)), record(alloc, &[("k", 1), ("j", 2)]));
    let second = with_last(first, longs(alloc, &[5, 4]));
    let third = with_last(second, extension(alloc, "decimal", "1.5"));
    with_last(third, text(alloc, "t"))
}

// A record with the set of these values.
fn outer(alloc: Global) -> Option<Value> {
    let field = both(owned(alloc, "s"), set_of(alloc, inner(alloc)));
    record_of(alloc, with_last(Some(Vec::new(alloc)), field))
}

#[test]
fn values_within_values_are_written(rt: HostRuntime) {
    let alloc = rt.alloc();
    let want = "{\"s\": [\"t\", [4, 5], {\"j\": 2, \"k\": 1}, decimal(\"1.5\")]}";
    assert!(rt; shows(alloc, outer(alloc), want));
}

fn string(alloc: Global, text: &str) -> Option<Literal> {
    match owned(alloc, text) {
        Some(text) => Some(Literal::String(text)),
        None => None,
    }
}

#[test]
fn literals_are_told_apart(rt: HostRuntime) {
    let alloc = rt.alloc();
    assert!(rt; copies(Some(Literal::Long(1))));
    assert!(rt; copies(string(alloc, "n")));
    assert!(rt; differ(Some(Literal::Long(1)), Some(Literal::Bool(true))));
    assert!(rt; shows(alloc, string(alloc, "n\n"), "\"n\\n\""));
}

#[test]
fn extension_values_are_told_apart(rt: HostRuntime) {
    let alloc = rt.alloc();
    assert!(rt; copies(called(alloc, "ip", "1")));
    assert!(rt; differ(called(alloc, "ip", "1"), called(alloc, "ip", "2")));
    assert!(rt; differ(called(alloc, "ip", "1"), called(alloc, "decimal", "1")));
}

// A number with a location.
fn long_at(alloc: Global, n: i64, start: usize) -> Option<Value> {
    match place(alloc, start) {
        Some(loc) => Some(Value::new(ValueKind::Lit(Literal::Long(n)), Some(loc))),
        None => None,
    }
}

// The set of some numbers, each with a location.
fn set_at(alloc: Global, pairs: &[(i64, usize)]) -> Option<Value> {
    let mut values = Some(Vec::new(alloc));
    for (n, start) in pairs {
        values = with_last(values, long_at(alloc, *n, *start));
    }
    set_of(alloc, values)
}

// Returns whether the elements of a set have these locations.
fn stand_at(set: &Value, starts: &[usize]) -> bool {
    match &set.value {
        ValueKind::Set(elements) => {
            let mut found = elements.iter().zip(starts);
            elements.len() == starts.len()
                && found.all(|(e, start)| start_of(e.loc.as_ref()) == Some(*start))
        }
        ValueKind::Lit(_) | ValueKind::Record(_) | ValueKind::ExtensionValue(_) => false,
    }
}

// Returns whether a set has this printed text, and its elements have these locations.
fn is_set_at(alloc: Global, made: Option<Value>, want: &str, starts: &[usize]) -> bool {
    match made {
        Some(set) => {
            let told = is_written(alloc, &set, want) && stand_at(&set, starts);
            drop(set);
            told
        }
        None => false,
    }
}

#[test]
fn a_set_sorts_and_keeps_the_first_of_equal_ones(rt: HostRuntime) {
    let alloc = rt.alloc();
    let set = set_at(alloc, &[(2, 1), (1, 2), (2, 3), (3, 4), (1, 5), (2, 6)]);
    assert!(rt; is_set_at(alloc, set, "[1, 2, 3]", &[2, 1, 4]));
}

#[test]
fn a_record_keeps_the_last_of_each_key(rt: HostRuntime) {
    let alloc = rt.alloc();
    let pairs = [
        ("b", 1),
        ("a", 2),
        ("B", 3),
        ("b", 4),
        ("", 5),
        ("a", 6),
        ("é", 7),
        ("z", 8),
    ];
    let want = "{\"\": 5, \"B\": 3, \"a\": 6, \"b\": 4, \"z\": 8, \"é\": 7}";
    assert!(rt; shows(alloc, record(alloc, &pairs), want));
}
