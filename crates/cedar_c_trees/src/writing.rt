//! Encoding values, expressions and partial values as nodes over a text.
ghost use Rattle.std.specs.Prelude.{IfOk, OnOk};
ghost use Rattle.cedar_c_trees.specs.Drafts.{IsNamed, Writes, pending_tree};
ghost use Rattle.cedar_c_trees.specs.Items.{flat};
ghost use Rattle.cedar_c_trees.specs.Plans.{value_items};
ghost use Rattle.cedar_c_trees.specs.Writes.{IsExprWritten, IsPartialWritten, IsWrittenAs};

use crate::draft::Draft;
use crate::expr_writing::write_expr_node;
use crate::leaf_writing::write_text;
use crate::pending::Pending;
use crate::value_writing::write_value_node;
use crate::written::Written;
use cedar_terms::{Expr, PartialValue, Value};
use std::alloc::{AllocError, Global};

// Writes the node of the next value or expression. Pushes its operands onto the stack.
fn write_next<'a>(
    alloc: Global,
    draft: &mut Draft,
    pending: &mut Vec<Pending<'a>>,
    next: Pending<'a>,
) -> Result<(), AllocError>
    ensures { OnOk result (Writes (pending_tree next.entry) (IsNamed next.entry) draft.old draft.new
        pending.old.items pending.new.items) }
{
    match next {
        Pending::Value(value) => write_value_node(alloc, draft, pending, value),
        Pending::Expr(expr) => write_expr_node(alloc, draft, pending, expr),
        Pending::Text(text) => write_text(draft, text.as_str()),
    }
}

// Encodes a value, an expression or a text.
fn write_all<'a>(alloc: Global, whole: Pending<'a>) -> Result<Written, AllocError>
    ensures { IfOk result (λ w. IsWrittenAs (flat (pending_tree whole.entry)) w × IsNamed whole.entry) }
{
    let mut draft = Draft::new(alloc);
    let mut pending = Vec::new(alloc);
    pending.push(whole)?;
    while let Some(next) = pending.pop() {
        write_next(alloc, &mut draft, &mut pending, next)?;
    }
    Ok(draft.finished())
}

/// Encodes a value as nodes over a text. Elements of sets and pairs of records are in the order of the value. It uses
/// an explicit stack, so values of any depth are supported. The text of a uid with a non-ASCII eid is unspecified.
///
/// # Errors
///
/// Returns `AllocError` if an allocation fails.
pub fn write_value(alloc: Global, value: &Value) -> Result<Written, AllocError>
    ensures { IfOk result (IsWrittenAs (value_items value.now)) }
{
    write_all(alloc, Pending::Value(value))
}

/// Encodes an expression as nodes over a text. It uses an explicit stack, so expressions of any depth are supported.
/// The text of a uid with a non-ASCII eid is unspecified.
///
/// # Errors
///
/// Returns `AllocError` if an allocation fails.
pub fn write_expr(alloc: Global, expr: &Expr) -> Result<Written, AllocError>
    ensures { IfOk result (IsExprWritten expr.now) }
{
    write_all(alloc, Pending::Expr(expr))
}

/// Encodes a partial value as nodes over a text. The nodes of a residual end with a mark.
///
/// # Errors
///
/// Returns `AllocError` if an allocation fails.
pub fn write_partial(alloc: Global, partial: &PartialValue) -> Result<Written, AllocError>
    ensures { IfOk result (IsPartialWritten partial.now) }
{
    match partial {
        PartialValue::Value(value) => write_value(alloc, value),
        PartialValue::Residual(expr) => {
            let written = write_expr(alloc, expr)?;
            written.marked()
        }
    }
}
