//! The search for the first reserved key in a value. It does not allocate, and recurses once per level.
ghost use Rattle.std.specs.Prelude.{◌≡◌};
ghost use Rattle.std.specs.Option.{option_copied};
ghost use Rattle.cedar_terms.specs.ValueTree.{value_trees};
ghost use Rattle.cedar_terms.specs.ValueViews.{field_trees};
ghost use Rattle.cedar_entity.specs.Fields.{fields_of};
ghost use Rattle.cedar_entity.specs.Validity.{reserved_in, reserved_in_all, reserved_in_record, reserved_in_partial};
ghost use Rattle.cedar_entity.specs.Validity.{reserved_in_fields};

use cedar_terms::{PartialValue, Value, ValueKind, is_reserved_key};
use std::collections::BTreeMap;

// Returns the first reserved key in a value.
#[cycle(find)]
fn in_value<'a>(value: &'a Value) -> Option<&'a str>
    ensures { option_copied result ≡ reserved_in value.now }
{
    match &value.value {
        ValueKind::Lit(_) => None,
        ValueKind::Set(elements) => in_elements(elements),
        ValueKind::Record(fields) => in_record(fields),
        ValueKind::ExtensionValue(_) => None,
    }
}

// Returns the first reserved key in the elements of a set.
#[cycle(find)]
fn in_elements<'a>(elements: &'a Vec<Value>) -> Option<&'a str>
    ensures { option_copied result ≡ reserved_in_all (value_trees elements.now.items) }
{
    for element in elements {
        if let Some(found) = in_value(element) {
            return Some(found);
        }
    }
    None
}

// Returns the first reserved key in a record. Each key is checked before its value is searched.
#[cycle(find)]
fn in_record<'a>(fields: &'a BTreeMap<String, Value>) -> Option<&'a str>
    ensures { option_copied result ≡ reserved_in_record (field_trees fields.now.entries) }
{
    for (key, value) in fields.iter() {
        let key = key.as_str();
        if is_reserved_key(key) {
            return Some(key);
        }
        if let Some(found) = in_value(value) {
            return Some(found);
        }
    }
    None
}

// Returns the first reserved key in a value. A residual is skipped.
fn in_partial<'a>(value: &'a PartialValue) -> Option<&'a str>
    ensures { option_copied result ≡ reserved_in_partial value.now }
{
    match value {
        PartialValue::Value(value) => in_value(value),
        PartialValue::Residual(_) => None,
    }
}

// Returns the first reserved key in attributes or tags, in the order of their keys.
pub(crate) fn in_fields<'a>(fields: &'a BTreeMap<String, PartialValue>) -> Option<&'a str>
    ensures { option_copied result ≡ reserved_in_fields (fields_of fields.now.entries) }
{
    for pair in fields.iter() {
        if let Some(found) = in_partial(pair.1) {
            return Some(found);
        }
    }
    None
}
