//! Equality of expressions, regardless of locations.
ghost use Rattle.std.specs.Prelude.{◌≡◌};
ghost use Rattle.cedar_terms.specs.ExprTree.{expr_trees};
ghost use Rattle.cedar_terms.specs.ExprEquality.{same_expr, same_exprs};

use crate::expr::{Expr, ExprKind};

// Returns whether two expressions are equal.
#[cycle(same)]
#[tactic(auto, using(crate::proofs::Told::literals_told, crate::proofs::Told::unknowns_told, crate::proofs::Told::calls_told, crate::proofs::Told::types_told,))]
pub(crate) fn same(a: &Expr, b: &Expr) -> bool
    ensures { result ≡ same_expr a.now b.now }
{
    match &a.kind {
        ExprKind::Lit(x) => match &b.kind {
            ExprKind::Lit(y) => x == y,
            _ => false,
        },
        ExprKind::Var(x) => match &b.kind {
            ExprKind::Var(y) => x == y,
            _ => false,
        },
        ExprKind::Slot(x) => match &b.kind {
            ExprKind::Slot(y) => x == y,
            _ => false,
        },
        ExprKind::Unknown(x) => match &b.kind {
            ExprKind::Unknown(y) => x == y,
            _ => false,
        },
        ExprKind::Set(xs) => match &b.kind {
            ExprKind::Set(ys) => same_lists(xs, ys),
            _ => false,
        },
        ExprKind::Call(f, xs) => match &b.kind {
            ExprKind::Call(g, ys) => f == g && same_lists(xs, ys),
            _ => false,
        },
        ExprKind::Not(x) => match &b.kind {
            ExprKind::Not(y) => same(x, y),
            _ => false,
        },
        ExprKind::Binary(o, w, x) => match &b.kind {
            ExprKind::Binary(p, y, z) => o.index() == p.index() && same(w, y) && same(x, z),
            _ => false,
        },
        ExprKind::Is(x, t) => match &b.kind {
            ExprKind::Is(y, u) => same(x, y) && t == u,
            _ => false,
        },
    }
}

// Returns whether two lists have the same length and equal expressions at each index.
#[cycle(same)]
fn same_lists(a: &Vec<Expr>, b: &Vec<Expr>) -> bool
    ensures { result ≡ same_exprs (expr_trees a.now.items) (expr_trees b.now.items) }
{
    let mut others = b.iter();
    for x in a {
        match others.next() {
            None => return false,
            Some(y) => {
                if !same(x, y) {
                    return false;
                }
            }
        }
    }
    others.next().is_none()
}
