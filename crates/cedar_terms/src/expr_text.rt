//! Printing of expressions.
ghost use Rattle.std.specs.Prelude.{◌≡◌, true};
ghost use Rattle.std.specs.Fmt.{WritesOnOk};
ghost use Rattle.cedar_terms.specs.ExprTree.{expr_trees};
ghost use Rattle.cedar_terms.specs.ExprTexts.{expr_text, exprs_text, operand, operator_text, is_atom, is_ascii_expr};
ghost use Rattle.cedar_terms.specs.ExprTexts.{are_ascii_exprs};
ghost use Rattle.cedar_terms.specs.ExprViews.{operator_of};

use crate::expr::{BinaryOp, Expr, ExprKind};
use std::fmt;

// Writes an expression.
#[cycle(show)]
pub(crate) fn show<W: fmt::Write>(expr: &Expr, f: &mut fmt::Formatter<W>) -> fmt::Result
    ensures { is_ascii_expr expr.now ≡ true
        → WritesOnOk W.write_str_gives f.old result (expr_text expr.now) f.new }
{
    match &expr.kind {
        ExprKind::Lit(literal) => write!(f, "{literal}"),
        ExprKind::Var(var) => write!(f, "{var}"),
        ExprKind::Slot(id) => write!(f, "{id}"),
        ExprKind::Unknown(unknown) => write!(f, "{unknown}"),
        ExprKind::Set(exprs) => {
            f.write_str("[")?;
            write_all_exprs(exprs, f)?;
            f.write_str("]")
        }
        ExprKind::Call(name, args) => {
            write!(f, "{name}(")?;
            write_all_exprs(args, f)?;
            f.write_str(")")
        }
        ExprKind::Not(operand) => {
            f.write_str("!")?;
            write_operand(operand, f)
        }
        ExprKind::Binary(op, left, right) => {
            write_operand(left, f)?;
            write_operator(*op, f)?;
            write_operand(right, f)
        }
        ExprKind::Is(operand, ty) => {
            write_operand(operand, f)?;
            write!(f, " is {ty}")
        }
    }
}

// Writes an operand, in parentheses if it is not an atom.
#[cycle(show)]
fn write_operand<W: fmt::Write>(expr: &Expr, f: &mut fmt::Formatter<W>) -> fmt::Result
    ensures { is_ascii_expr expr.now ≡ true → WritesOnOk W.write_str_gives f.old result
        (operand (is_atom expr.now) (expr_text expr.now)) f.new }
{
    if is_unparenthesized(expr) {
        show(expr, f)
    } else {
        f.write_str("(")?;
        show(expr, f)?;
        f.write_str(")")
    }
}

// Writes the expressions of a list, separated by a comma and a space.
#[cycle(show)]
fn write_all_exprs<W: fmt::Write>(exprs: &Vec<Expr>, f: &mut fmt::Formatter<W>) -> fmt::Result
    ensures { are_ascii_exprs (expr_trees exprs.now.items) ≡ true
        → WritesOnOk W.write_str_gives f.old result
        (exprs_text (expr_trees exprs.now.items)) f.new }
{
    let mut before = "";
    for expr in exprs {
        f.write_str(before)?;
        show(expr, f)?;
        before = ", ";
    }
    Ok(())
}

// Returns whether an operand is an atom, which is written without parentheses.
fn is_unparenthesized(expr: &Expr) -> bool
    ensures { result ≡ is_atom expr.now }
{
    match &expr.kind {
        ExprKind::Lit(_) | ExprKind::Var(_) | ExprKind::Slot(_) | ExprKind::Unknown(_) => true,
        ExprKind::Set(_) | ExprKind::Call(_, _) => true,
        ExprKind::Not(_) | ExprKind::Binary(_, _, _) | ExprKind::Is(_, _) => false,
    }
}

// Writes an operator between spaces.
fn write_operator<W: fmt::Write>(op: BinaryOp, f: &mut fmt::Formatter<W>) -> fmt::Result
    ensures { WritesOnOk W.write_str_gives f.old result (operator_text (operator_of op)) f.new }
{
    match op {
        BinaryOp::And => f.write_str(" && "),
        BinaryOp::Eq => f.write_str(" == "),
        BinaryOp::In => f.write_str(" in "),
    }
}
