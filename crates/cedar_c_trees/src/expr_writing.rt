//! Encoding the node of an expression.
ghost use Rattle.std.specs.Prelude.{◌≡◌, OnOk, pos};
ghost use Rattle.cedar_terms.specs.SlotTree.{slot_index};
ghost use Rattle.cedar_terms.specs.VarTree.{var_index};
ghost use Rattle.cedar_c_trees.specs.Drafts.{Writes};
ghost use Rattle.cedar_c_trees.specs.Plans.{HasNames, expr_plan};

use crate::draft::Draft;
use crate::leaf_writing::{write_call, write_is, write_literal, write_unknown};
use crate::pending::{Pending, push_expr, push_exprs, push_two};
use cedar_terms::{Expr, ExprNode, SlotId, Var};
use std::alloc::{AllocError, Global};

// Returns the number of a variable.
fn var_number(var: Var) -> i64
    ensures { result ≡ pos (var_index var) }
{
    match var {
        Var::Principal => 0,
        Var::Action => 1,
        Var::Resource => 2,
        Var::Context => 3,
    }
}

// Returns the number of a slot.
fn slot_number(slot: SlotId) -> i64
    ensures { result ≡ pos (slot_index slot) }
{
    match slot {
        SlotId::Principal => 0,
        SlotId::Action => 1,
        SlotId::Resource => 2,
    }
}

/// Writes the node of an expression. Pushes its operands onto the stack, the last on top.
pub(crate) fn write_expr_node<'a>(
    alloc: Global,
    draft: &mut Draft,
    pending: &mut Vec<Pending<'a>>,
    expr: &'a Expr,
) -> Result<(), AllocError>
    ensures { OnOk result (Writes (expr_plan expr.now) (HasNames expr.now) draft.old draft.new
        pending.old.items pending.new.items) }
{
    match expr.node() {
        ExprNode::Val(literal) => write_literal(alloc, draft, literal),
        ExprNode::Var(var) => draft.put(7, 0, var_number(var)),
        ExprNode::Slot(slot) => draft.put(8, 0, slot_number(slot)),
        ExprNode::Unknown(unknown) => write_unknown(alloc, draft, unknown),
        ExprNode::Set(exprs) => {
            draft.put(4, exprs.len(), 0)?;
            push_exprs(pending, exprs)
        }
        ExprNode::Call(name, args) => {
            write_call(alloc, draft, name, args.len())?;
            push_exprs(pending, args)
        }
        ExprNode::Not(operand) => {
            draft.put(10, 0, 0)?;
            push_expr(pending, operand)
        }
        ExprNode::And(left, right) => {
            draft.put(11, 0, 0)?;
            push_two(pending, left, right)
        }
        ExprNode::Eq(left, right) => {
            draft.put(12, 0, 0)?;
            push_two(pending, left, right)
        }
        ExprNode::In(left, right) => {
            draft.put(13, 0, 0)?;
            push_two(pending, left, right)
        }
        ExprNode::Is(operand, ty) => {
            write_is(alloc, draft, ty.name())?;
            push_expr(pending, operand)
        }
    }
}
