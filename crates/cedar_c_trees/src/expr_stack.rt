//! Removal of expressions from a stack.
ghost use Rattle.std.specs.Prelude.{◌≡◌, ◌++◌, ◌∷◌, [], MatchResult, length};
ghost use Rattle.cedar_c_trees.specs.laws.Stacks.{AreTooFew, IsNotOne};

use cedar_c_lists::Reason;
use cedar_terms::Expr;
use std::alloc::Global;

/// Pops the last expression off a stack.
pub(crate) fn popped_expr(stack: &mut Vec<Expr>) -> Result<Expr, Reason>
    ensures { MatchResult result (λ e. stack.old.items ≡ stack.new.items ++ e ∷ []) (AreTooFew stack.old.items 1) }
{
    match stack.pop() {
        Some(expr) => Ok(expr),
        None => Err(Reason::BadArgument),
    }
}

/// Pops the last `count` expressions off a stack, in order.
pub(crate) fn popped_exprs(
    alloc: Global,
    stack: &mut Vec<Expr>,
    count: usize,
) -> Result<Vec<Expr>, Reason>
    ensures { MatchResult result
        (λ es. (stack.old.items ≡ stack.new.items ++ es.items) × (length es.items ≡ count))
        (AreTooFew stack.old.items count) }
{
    let mut exprs = Vec::new(alloc);
    for _step in 0..count {
        let expr = popped_expr(stack)?;
        exprs.push(expr)?;
    }
    exprs.reverse();
    Ok(exprs)
}

/// Pops the last two expressions off a stack, in order.
pub(crate) fn popped_two(stack: &mut Vec<Expr>) -> Result<(Expr, Expr), Reason>
    ensures { MatchResult result (λ p. stack.old.items ≡ stack.new.items ++ p.0 ∷ p.1 ∷ [])
        (AreTooFew stack.old.items 2) }
{
    let right = popped_expr(stack)?;
    let left = popped_expr(stack)?;
    Ok((left, right))
}

/// Returns the only expression on a stack.
pub(crate) fn only_expr(stack: Vec<Expr>) -> Result<Expr, Reason>
    ensures { MatchResult result (λ e. stack.items ≡ e ∷ []) (IsNotOne stack.items) }
{
    let mut stack = stack;
    let Some(expr) = stack.pop() else {
        return Err(Reason::BadArgument);
    };
    if stack.is_empty() {
        Ok(expr)
    } else {
        Err(Reason::BadArgument)
    }
}
