//! The order of values: by kind, then by content.
ghost use Rattle.std.specs.Prelude.{◌≡◌};
ghost use Rattle.cedar_terms.specs.ValueTree.{value_cmp, values_cmp, fields_cmp, value_trees};
ghost use Rattle.cedar_terms.specs.ValueViews.{kind_tree, field_trees};

use crate::literal::compare_literals;
use crate::value::{Value, ValueKind};
use std::cmp::Ordering;
use std::collections::BTreeMap;

// Compares two values.
#[cycle(compare)]
pub(crate) fn compare(a: &Value, b: &Value) -> Ordering
    ensures { result ≡ value_cmp a.now b.now }
{
    compare_kinds(&a.value, &b.value)
}

// Compares two values by their kinds and contents.
#[cycle(compare)]
pub(crate) fn compare_kinds(a: &ValueKind, b: &ValueKind) -> Ordering
    ensures { result ≡ value_cmp (kind_tree a.now) (kind_tree b.now) }
{
    match a {
        ValueKind::Lit(x) => match b {
            ValueKind::Lit(y) => compare_literals(x, y),
            ValueKind::Set(_) | ValueKind::Record(_) | ValueKind::ExtensionValue(_) =>
                Ordering::Less,
        },
        ValueKind::Set(x) => match b {
            ValueKind::Lit(_) => Ordering::Greater,
            ValueKind::Set(y) => compare_elements(x, y),
            ValueKind::Record(_) | ValueKind::ExtensionValue(_) => Ordering::Less,
        },
        ValueKind::Record(x) => match b {
            ValueKind::Lit(_) | ValueKind::Set(_) => Ordering::Greater,
            ValueKind::Record(y) => compare_fields(x, y),
            ValueKind::ExtensionValue(_) => Ordering::Less,
        },
        ValueKind::ExtensionValue(x) => match b {
            ValueKind::Lit(_) | ValueKind::Set(_) | ValueKind::Record(_) => Ordering::Greater,
            ValueKind::ExtensionValue(y) => x.func.cmp(&y.func).then_with(|| x.arg.cmp(&y.arg)),
        },
    }
}

// Compares two lists. The first pair of different elements decides, else the lengths decide.
#[cycle(compare)]
fn compare_elements(a: &Vec<Value>, b: &Vec<Value>) -> Ordering
    ensures { result ≡ values_cmp (value_trees a.now.items) (value_trees b.now.items) }
{
    let mut others = b.iter();
    for value in a {
        match others.next() {
            None => return Ordering::Greater,
            Some(other) => match compare(value, other) {
                Ordering::Equal => {}
                decided => return decided,
            },
        }
    }
    if others.next().is_some() {
        Ordering::Less
    } else {
        Ordering::Equal
    }
}

// Compares two records as lists of pairs. The first difference decides, keys before values, else the lengths decide.
#[cycle(compare)]
fn compare_fields(a: &BTreeMap<String, Value>, b: &BTreeMap<String, Value>) -> Ordering
    ensures { result ≡ fields_cmp (field_trees a.now.entries) (field_trees b.now.entries) }
{
    let mut others = b.iter();
    for (key, value) in a.iter() {
        match others.next() {
            None => return Ordering::Greater,
            Some((other_key, other)) => match key.cmp(other_key) {
                Ordering::Equal => match compare(value, other) {
                    Ordering::Equal => {}
                    decided => return decided,
                },
                decided => return decided,
            },
        }
    }
    if others.next().is_some() {
        Ordering::Less
    } else {
        Ordering::Equal
    }
}
