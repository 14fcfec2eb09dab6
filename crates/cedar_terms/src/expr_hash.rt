//! Hashing of expressions: the index of the kind, then the content.
ghost use Rattle.std.specs.Prelude.{◌≡◌, fold};
ghost use Rattle.cedar_terms.specs.ExprTree.{expr_trees};
ghost use Rattle.cedar_terms.specs.ExprEquality.{expr_hash, exprs_hash};

use crate::expr::{Expr, ExprKind};
use std::hash::{Hash, Hasher};

// Feeds an expression to the hasher, without its location.
#[cycle(feed)]
pub(crate) fn feed<H: Hasher>(expr: &Expr, state: &mut H)
    ensures { state.new ≡ fold H.write state.old (expr_hash expr.now) }
{
    match &expr.kind {
        ExprKind::Lit(literal) => {
            state.write_u8(0);
            literal.hash(state);
        }
        ExprKind::Var(var) => {
            state.write_u8(1);
            var.hash(state);
        }
        ExprKind::Slot(id) => {
            state.write_u8(2);
            id.hash(state);
        }
        ExprKind::Unknown(unknown) => {
            state.write_u8(3);
            unknown.hash(state);
        }
        ExprKind::Set(exprs) => {
            state.write_u8(4);
            feed_all(exprs, state);
        }
        ExprKind::Call(name, args) => {
            state.write_u8(5);
            name.hash(state);
            feed_all(args, state);
        }
        ExprKind::Not(operand) => {
            state.write_u8(6);
            feed(operand, state);
        }
        ExprKind::Binary(op, left, right) => {
            state.write_u8(7);
            state.write_u8(op.index());
            feed(left, state);
            feed(right, state);
        }
        ExprKind::Is(operand, ty) => {
            state.write_u8(8);
            feed(operand, state);
            ty.name().hash(state);
        }
    }
}

// Feeds the expressions in order, and an end mark.
#[cycle(feed)]
fn feed_all<H: Hasher>(exprs: &Vec<Expr>, state: &mut H)
    ensures { state.new ≡ fold H.write state.old (exprs_hash (expr_trees exprs.now.items)) }
{
    for expr in exprs {
        feed(expr, state);
    }
    state.write_u8(9);
}
