//! Printing of values.
ghost use Rattle.std.specs.Prelude.{◌≡◌, ◌++◌, true, codes};
ghost use Rattle.std.specs.Fmt.{WritesOnOk};
ghost use Rattle.cedar_ids.specs.Escape.{is_ascii};
ghost use Rattle.cedar_terms.specs.ValueTree.{value_trees};
ghost use Rattle.cedar_terms.specs.ValueTexts.{quoted, value_text, values_text, fields_text, is_ascii_value};
ghost use Rattle.cedar_terms.specs.ValueTexts.{are_ascii_values, are_ascii_fields};
ghost use Rattle.cedar_terms.specs.ValueViews.{kind_tree, field_trees};

use crate::value::{Value, ValueKind};
use cedar_ids::escape::Escaped;
use std::collections::BTreeMap;
use std::fmt;

// Writes a value.
#[cycle(show)]
pub(crate) fn show<W: fmt::Write>(value: &Value, f: &mut fmt::Formatter<W>) -> fmt::Result
    ensures { is_ascii_value value.now ≡ true
        → WritesOnOk W.write_str_gives f.old result (value_text value.now) f.new }
{
    match &value.value {
        ValueKind::Lit(literal) => write!(f, "{literal}"),
        ValueKind::Set(elements) => {
            f.write_str("[")?;
            write_elements(elements, f)?;
            f.write_str("]")
        }
        ValueKind::Record(fields) => {
            f.write_str("{")?;
            write_fields(fields, f)?;
            f.write_str("}")
        }
        ValueKind::ExtensionValue(extension) => {
            let func = &extension.func;
            let arg = Escaped(extension.arg.as_str());
            write!(f, "{func}(\"{arg}\")")
        }
    }
}

// Writes the elements of a set, separated by a comma and a space.
#[cycle(show)]
fn write_elements<W: fmt::Write>(elements: &Vec<Value>, f: &mut fmt::Formatter<W>) -> fmt::Result
    ensures { are_ascii_values (value_trees elements.now.items) ≡ true
        → WritesOnOk W.write_str_gives f.old result
        (values_text (value_trees elements.now.items)) f.new }
{
    let mut before = "";
    for element in elements {
        f.write_str(before)?;
        show(element, f)?;
        before = ", ";
    }
    Ok(())
}

// Writes the keys and values of a record, separated by a comma and a space.
#[cycle(show)]
fn write_fields<W: fmt::Write>(
    fields: &BTreeMap<String, Value>,
    f: &mut fmt::Formatter<W>,
) -> fmt::Result
    ensures { are_ascii_fields (field_trees fields.now.entries) ≡ true
        → WritesOnOk W.write_str_gives f.old result
        (fields_text (field_trees fields.now.entries)) f.new }
{
    let mut before = "";
    for (key, value) in fields.iter() {
        f.write_str(before)?;
        write_key(key.as_str(), f)?;
        show(value, f)?;
        before = ", ";
    }
    Ok(())
}

// Writes a quoted key of a record, a colon and a space.
fn write_key<W: fmt::Write>(key: &str, f: &mut fmt::Formatter<W>) -> fmt::Result
    ensures { is_ascii key.now ≡ true
        → WritesOnOk W.write_str_gives f.old result (quoted key.now ++ codes ": ") f.new }
{
    let key = Escaped(key);
    write!(f, "\"{key}\": ")
}
