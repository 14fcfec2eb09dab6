//! The stack of values and expressions to encode.
ghost use Rattle.std.specs.Prelude.{◌++◌, OnOk};
ghost use Rattle.cedar_terms.specs.ExprTree.{expr_trees};
ghost use Rattle.cedar_terms.specs.ValueTree.{value_trees};
ghost use Rattle.cedar_terms.specs.ValueViews.{field_trees};
ghost use Rattle.cedar_c_trees.specs.Drafts.{Pushes};
ghost use Rattle.cedar_c_trees.specs.Items.{flat, flats};
ghost use Rattle.cedar_c_trees.specs.Plans.{HasNames, HaveNames, expr_plan, exprs_plan, fields_plan};
ghost use Rattle.cedar_c_trees.specs.Plans.{values_plan};

use cedar_terms::{Expr, Value};
use std::alloc::AllocError;
use std::collections::BTreeMap;

/// A value, an expression or a text to encode.
#[derive(Drop)]
pub(crate) enum Pending<'a> {
    /// A value.
    Value(&'a Value),
    /// An expression.
    Expr(&'a Expr),
    /// A text.
    Text(&'a String),
}

/// Pushes values onto the stack, the last on top.
pub(crate) fn push_values<'a>(
    pending: &mut Vec<Pending<'a>>,
    values: &'a Vec<Value>,
) -> Result<(), AllocError>
    ensures { OnOk result (Pushes (flats (values_plan (value_trees values.now.items))) (Unit {0})
        pending.old.items pending.new.items) }
{
    for element in values {
        pending.push(Pending::Value(element))?;
    }
    Ok(())
}

/// Pushes the keys and values of a record onto the stack, each key below its value, the last pair on top.
pub(crate) fn push_fields<'a>(
    pending: &mut Vec<Pending<'a>>,
    fields: &'a BTreeMap<String, Value>,
) -> Result<(), AllocError>
    ensures { OnOk result (Pushes (flats (fields_plan (field_trees fields.now.entries))) (Unit {0})
        pending.old.items pending.new.items) }
{
    for (key, value) in fields.iter() {
        pending.push(Pending::Text(key))?;
        pending.push(Pending::Value(value))?;
    }
    Ok(())
}

/// Pushes expressions onto the stack, the last on top.
pub(crate) fn push_exprs<'a>(
    pending: &mut Vec<Pending<'a>>,
    exprs: &'a [Expr],
) -> Result<(), AllocError>
    ensures { OnOk result (Pushes (flats (exprs_plan (expr_trees exprs.now))) (HaveNames (expr_trees exprs.now))
        pending.old.items pending.new.items) }
{
    for expr in exprs {
        pending.push(Pending::Expr(expr))?;
    }
    Ok(())
}

/// Pushes an expression onto the stack.
pub(crate) fn push_expr<'a>(
    pending: &mut Vec<Pending<'a>>,
    expr: &'a Expr,
) -> Result<(), AllocError>
    ensures { OnOk result (Pushes (flat (expr_plan expr.now)) (HasNames expr.now)
        pending.old.items pending.new.items) }
{
    pending.push(Pending::Expr(expr))?;
    Ok(())
}

/// Pushes two expressions onto the stack, the second on top.
pub(crate) fn push_two<'a>(
    pending: &mut Vec<Pending<'a>>,
    left: &'a Expr,
    right: &'a Expr,
) -> Result<(), AllocError>
    ensures { OnOk result (Pushes (flat (expr_plan left.now) ++ flat (expr_plan right.now))
        (HasNames left.now × HasNames right.now) pending.old.items pending.new.items) }
{
    push_expr(pending, left)?;
    push_expr(pending, right)
}
