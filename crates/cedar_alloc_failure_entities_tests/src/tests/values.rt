// Tests of values: a number, a string, a set, a record, and an extension value.
use super::named;
use super::terms::{expr, literal};
use cedar_alloc_failures::{
    CallOutcome, Calls, Row, both, check_failures, copied, counted, made, owned, same_copied,
    unmade, with, with_last,
};
use cedar_terms::partial_value::PartialValue;
use cedar_terms::value::{ExtensionValue, Value, ValueKind};
use std::alloc::Global;

pub(super) fn long(n: i64) -> Value {
    Value::new(ValueKind::Lit(cedar_terms::Literal::Long(n)), None)
}

fn lit(alloc: Global, word: &str) -> Option<Value> {
    match literal(alloc, word) {
        Some(literal) => Some(Value::new(ValueKind::Lit(literal), None)),
        None => None,
    }
}

fn lits(alloc: Global, words: &str) -> Option<Vec<Value>> {
    let mut all = Some(Vec::new(alloc));
    for word in words.split_whitespace() {
        all = with_last(all, lit(alloc, word));
    }
    all
}

// Returns pairs of a key and a literal, written `k=1`.
fn pairs(alloc: Global, words: &str) -> Option<Vec<(String, Value)>> {
    let mut all = Some(Vec::new(alloc));
    for word in words.split_whitespace() {
        let (key, value) = word.split_once('=').unwrap_or((word, ""));
        all = with_last(all, both(owned(alloc, key), lit(alloc, value)));
    }
    all
}

// Returns a call of `ip` with a text.
fn extension(alloc: Global, text: &str) -> Option<ExtensionValue> {
    match both(named(alloc, "ip"), owned(alloc, text)) {
        Some((func, arg)) => Some(ExtensionValue { func, arg }),
        None => None,
    }
}

// Returns a value: `set 1 2`, `record k=1`, `ip text`, `deep 8` with this many levels, or a literal.
pub(super) fn value(alloc: Global, text: &str) -> Option<Value> {
    let (word, rest) = text.split_once(' ').unwrap_or((text, ""));
    match word {
        "set" => match lits(alloc, rest) {
            Some(all) => Value::set(alloc, all, None).ok(),
            None => None,
        },
        "record" => match pairs(alloc, rest) {
            Some(pairs) => Value::record(alloc, pairs, None).ok(),
            None => None,
        },
        "ip" => match counted(alloc, extension(alloc, rest)) {
            Some(extension) => Some(Value::new(ValueKind::ExtensionValue(extension), None)),
            None => None,
        },
        "deep" => deep(alloc, rest.parse().unwrap_or(0)),
        _ => lit(alloc, text),
    }
}

// Returns a set of a value and the number 1, or a record with one key of both.
fn around(alloc: Global, inner: Value, is_set: bool) -> Option<Value> {
    if is_set {
        let both = with_last(with_last(Some(Vec::new(alloc)), Some(inner)), Some(long(1)));
        return match both {
            Some(both) => Value::set(alloc, both, None).ok(),
            None => None,
        };
    }
    let pair = both(owned(alloc, "k"), Some(inner));
    match with_last(Some(Vec::new(alloc)), pair) {
        Some(pairs) => Value::record(alloc, pairs, None).ok(),
        None => None,
    }
}

// Returns a value with this many levels, which are sets and records alternately.
fn deep(alloc: Global, levels: usize) -> Option<Value> {
    let mut all = Some(long(0));
    for level in 0..levels {
        all = match all {
            Some(inner) => around(alloc, inner, level % 2 == 0),
            None => None,
        };
    }
    all
}

fn kind(alloc: Global, text: &str) -> Option<ValueKind> {
    match value(alloc, text) {
        Some(value) => Some(value.value),
        None => None,
    }
}

fn partial(alloc: Global, text: &str) -> Option<PartialValue> {
    match text.strip_prefix("residual ") {
        Some(words) => match expr(alloc, words) {
            Some(expr) => Some(PartialValue::Residual(expr)),
            None => None,
        },
        None => match value(alloc, text) {
            Some(value) => Some(PartialValue::Value(value)),
            None => None,
        },
    }
}

struct OnValues;

const VALUES: &str = "
    Value::set | 2 1 2 | [1, 2]
    Value::set | 1 | [1]
    Value::record | k=2 j=1 k=3 | {\"j\": 1, \"k\": 3}
    Value::clone | text | \"text\"
    - Value::clone | 1 | 1
    - Value::clone | set 1 2 | [1, 2]
    - Value::clone | record k=1 | {\"k\": 1}
    - Value::clone | ip a | ip(\"a\")
    - Value::clone | deep 8 | {\"k\": [1, {\"k\": [1, {\"k\": [1, {\"k\": [0, 1]}]}]}]}
    ValueKind::clone | text
    - ValueKind::clone | set 1 2
    ExtensionValue::clone | a
    PartialValue::clone | text | \"text\"
    PartialValue::clone | residual text | \"text\"
    - PartialValue::clone | residual ?principal | ?principal
";

impl Calls for OnValues {
    fn tried(&self, alloc: Global, number: usize, row: Row<'_>) -> CallOutcome {
        match row.call {
            "Value::set" => {
                with(alloc, number, lits(alloc, row.given), |all| {
                    made(alloc, Value::set(alloc, all, None), row.want)
                })
            }
            "Value::record" => {
                with(alloc, number, pairs(alloc, row.given), |pairs| {
                    made(alloc, Value::record(alloc, pairs, None), row.want)
                })
            }
            "Value::clone" => copied(alloc, number, value(alloc, row.given), row.want),
            "ValueKind::clone" => same_copied(alloc, number, kind(alloc, row.given)),
            "ExtensionValue::clone" => same_copied(alloc, number, extension(alloc, row.given)),
            "PartialValue::clone" => copied(alloc, number, partial(alloc, row.given), row.want),
            _ => unmade(),
        }
    }
}

#[test]
fn each_call_on_values(rt: HostRuntime) {
    assert!(rt; check_failures(rt, &OnValues, VALUES));
}
