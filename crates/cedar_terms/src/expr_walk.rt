//! Traversals of an expression, with an explicit stack. A node comes before its descendants. A later child comes, with
//! its descendants, before an earlier child.
ghost use Rattle.std.specs.Prelude.{◌≡◌, ◌++◌, map, IfOk, OnOk};
ghost use Rattle.cedar_terms.specs.Walk.{walk, slots_of, unknowns_of, first_unknown_function, is_known_function};
ghost use Rattle.cedar_terms.specs.laws.Children.{children};
ghost use Rattle.cedar_terms.specs.Validated.{Validates};

use crate::err::ExprValidationError;
use crate::expr::{Expr, ExprKind};
use crate::slot::Slot;
use crate::unknown::Unknown;
use cedar_ids::name::Name;
use std::alloc::{AllocError, Global};

impl Expr {
    /// Returns all nodes of the expression. A node comes before its descendants. A later child comes, with its
    /// descendants, before an earlier child.
    ///
    /// # Errors
    ///
    /// Returns `AllocError` if an allocation fails.
    ///
    /// # Complexity
    ///
    /// O(n), where n is the number of nodes. Allocates O(n). The traversal uses a stack on the heap, so the depth of
    /// the expression is not limited by the call stack.
    ///
    /// # Differences from cedar-policy-core
    ///
    /// The original returns an iterator.
    pub fn subexpressions(&self, alloc: Global) -> Result<Vec<&Expr>, AllocError>
        ensures { IfOk result (λ v. map (λ e. e.now) v.items ≡ walk self.now) }
    {
        let mut pending = Vec::new(alloc);
        pending.push(self)?;
        let mut met = Vec::new(alloc);
        while let Some(node) = pending.pop() {
            met.push(node)?;
            push_children(node, &mut pending)?;
        }
        Ok(met)
    }

    /// Returns the slots of the expression, in the order of [`Expr::subexpressions`] and with repetitions. Each slot
    /// has the location of its node.
    ///
    /// # Errors
    ///
    /// Returns `AllocError` if an allocation fails.
    pub fn slots(&self, alloc: Global) -> Result<Vec<Slot>, AllocError>
        ensures { IfOk result (λ v. v.items ≡ slots_of self.now) }
    {
        let nodes = self.subexpressions(alloc)?;
        let mut slots = Vec::new(alloc);
        for node in &nodes {
            if let ExprKind::Slot(id) = &node.kind {
                slots.push(Slot {
                    id: *id,
                    loc: node.loc.clone()?,
                })?;
            }
        }
        Ok(slots)
    }

    /// Returns the unknowns of the expression, in the order of [`Expr::subexpressions`] and with repetitions.
    ///
    /// # Errors
    ///
    /// Returns `AllocError` if an allocation fails.
    pub fn unknowns(&self, alloc: Global) -> Result<Vec<&Unknown>, AllocError>
        ensures { IfOk result (λ v. map (λ u. u.now) v.items ≡ unknowns_of self.now) }
    {
        let nodes = self.subexpressions(alloc)?;
        let mut unknowns = Vec::new(alloc);
        for node in nodes {
            if let ExprKind::Unknown(unknown) = &node.kind {
                unknowns.push(&**unknown)?;
            }
        }
        Ok(unknowns)
    }

    /// Checks that the expression calls only known functions: `ip`, `decimal`, `datetime` and `duration`.
    ///
    /// # Errors
    ///
    /// - `UnknownFunction`: the expression calls another function. The error contains the first such function, in the
    ///   order of [`Expr::subexpressions`].
    /// - `Memory`: an allocation failed.
    pub fn try_validate(&self, alloc: Global) -> Result<(), ExprValidationError>
        ensures { Validates result (first_unknown_function self.now) }
    {
        let nodes = self.subexpressions(alloc)?;
        for node in nodes {
            if let ExprKind::Call(name, _) = &node.kind {
                if !is_known(alloc, name)? {
                    return Err(ExprValidationError::UnknownFunction {
                        name: name.clone()?,
                    });
                }
            }
        }
        Ok(())
    }
}

// Pushes the children of a node onto the stack, in order.
#[tactic(auto, using(crate::proofs::Walks::exprs_listed))]
fn push_children<'a>(node: &'a Expr, pending: &mut Vec<&'a Expr>) -> Result<(), AllocError>
    ensures { OnOk result (map (λ e. e.now) pending.new.items
        ≡ map (λ e. e.now) pending.old.items ++ children node.now) }
{
    match &node.kind {
        ExprKind::Lit(_) | ExprKind::Var(_) | ExprKind::Slot(_) | ExprKind::Unknown(_) => {}
        ExprKind::Set(exprs) => push_all(exprs, pending)?,
        ExprKind::Call(_, args) => push_all(args, pending)?,
        ExprKind::Not(operand) | ExprKind::Is(operand, _) => pending.push(&**operand)?,
        ExprKind::Binary(_, left, right) => {
            pending.push(&**left)?;
            pending.push(&**right)?;
        }
    }
    Ok(())
}

// Pushes some expressions onto the stack, in order.
fn push_all<'a>(exprs: &'a Vec<Expr>, pending: &mut Vec<&'a Expr>) -> Result<(), AllocError>
    ensures { OnOk result (map (λ e. e.now) pending.new.items
        ≡ map (λ e. e.now) pending.old.items ++ exprs.now.items) }
{
    for expr in exprs {
        pending.push(expr)?;
    }
    Ok(())
}

// Returns whether a function is one of the known functions.
fn is_known(alloc: Global, name: &Name) -> Result<bool, AllocError>
    ensures { IfOk result (λ known. known ≡ is_known_function name.now) }
{
    let text = name.to_string(alloc)?;
    let text = text.as_str();
    Ok(text == "ip" || text == "decimal" || text == "datetime" || text == "duration")
}
