//! Encoding the node of a value.
ghost use Rattle.std.specs.Prelude.{OnOk};
ghost use Rattle.cedar_c_trees.specs.Drafts.{Writes};
ghost use Rattle.cedar_c_trees.specs.Plans.{value_plan};

use crate::draft::Draft;
use crate::leaf_writing::{write_extension, write_literal};
use crate::pending::{Pending, push_fields, push_values};
use cedar_terms::{Value, ValueKind};
use std::alloc::{AllocError, Global};

/// Writes the node of a value. Pushes its operands onto the stack, the last on top.
pub(crate) fn write_value_node<'a>(
    alloc: Global,
    draft: &mut Draft,
    pending: &mut Vec<Pending<'a>>,
    value: &'a Value,
) -> Result<(), AllocError>
    ensures { OnOk result (Writes (value_plan value.now) (Unit {0}) draft.old draft.new
        pending.old.items pending.new.items) }
{
    match &value.value {
        ValueKind::Lit(literal) => write_literal(alloc, draft, literal),
        ValueKind::Set(elements) => {
            draft.put(4, elements.len(), 0)?;
            push_values(pending, elements)
        }
        ValueKind::Record(fields) => {
            draft.put(5, fields.len(), 0)?;
            push_fields(pending, fields)
        }
        ValueKind::ExtensionValue(extension) => write_extension(alloc, draft, extension),
    }
}
