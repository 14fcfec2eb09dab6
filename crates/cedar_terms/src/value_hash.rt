//! Hashing of values: the index of the kind, then the content.
ghost use Rattle.std.specs.Prelude.{◌≡◌, fold};
ghost use Rattle.cedar_terms.specs.ValueTree.{value_trees};
ghost use Rattle.cedar_terms.specs.ValueHash.{value_hash, values_hash, fields_hash};
ghost use Rattle.cedar_terms.specs.ValueViews.{kind_tree, field_trees};

use crate::value::{Value, ValueKind};
use std::collections::BTreeMap;
use std::hash::{Hash, Hasher};

// Feeds a value to the hasher, without its location.
#[cycle(feed)]
pub(crate) fn feed<H: Hasher>(value: &Value, state: &mut H)
    ensures { state.new ≡ fold H.write state.old (value_hash value.now) }
{
    feed_kind(&value.value, state);
}

// Feeds the kind and content of a value.
#[cycle(feed)]
pub(crate) fn feed_kind<H: Hasher>(kind: &ValueKind, state: &mut H)
    ensures { state.new ≡ fold H.write state.old (value_hash (kind_tree kind.now)) }
{
    match kind {
        ValueKind::Lit(literal) => {
            state.write_u8(0);
            literal.hash(state);
        }
        ValueKind::Set(elements) => {
            state.write_u8(1);
            feed_elements(elements, state);
        }
        ValueKind::Record(fields) => {
            state.write_u8(2);
            feed_fields(fields, state);
        }
        ValueKind::ExtensionValue(extension) => {
            state.write_u8(3);
            extension.hash(state);
        }
    }
}

// Feeds the elements in order, and an end mark.
#[cycle(feed)]
fn feed_elements<H: Hasher>(elements: &Vec<Value>, state: &mut H)
    ensures { state.new ≡ fold H.write state.old (values_hash (value_trees elements.now.items)) }
{
    for element in elements {
        feed(element, state);
    }
    state.write_u8(0);
}

// Feeds the keys and values in order, and an end mark.
#[cycle(feed)]
fn feed_fields<H: Hasher>(fields: &BTreeMap<String, Value>, state: &mut H)
    ensures { state.new ≡ fold H.write state.old (fields_hash (field_trees fields.now.entries)) }
{
    for (key, value) in fields.iter() {
        key.hash(state);
        feed(value, state);
    }
    state.write_u8(0);
}
