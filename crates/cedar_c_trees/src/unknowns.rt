//! Unknowns, and their types.
ghost use Rattle.std.specs.Prelude.{◌≡◌, ◌++◌, ◌∷◌, [], MatchResult};
ghost use Rattle.cedar_terms.specs.ExprTree.{ExprTree};
ghost use Rattle.cedar_c_trees.specs.Items.{BuildsExpr};
ghost use Rattle.cedar_c_trees.specs.Shapes.{IsAllowedInExpr};
ghost use Rattle.cedar_c_trees.specs.laws.Stacks.{IsNoTypeIn, IsNoTypeOn, IsTypeIn, IsUnjoined, Makes};

use crate::expr_stack::popped_expr;
use crate::node::Node;
use crate::parts::{name_of, string_at};
use cedar_c_lists::Reason;
use cedar_ids::entity::EntityType;
use cedar_terms::{Expr, ExprNode, Literal, StaticType, Unknown};
use std::alloc::Global;

// Returns the type whose name is the text of an expression.
fn type_in(alloc: Global, expr: &Expr) -> Result<StaticType, Reason>
    ensures { MatchResult result (IsTypeIn expr.now) (IsNoTypeIn expr.now) }
{
    match expr.node() {
        ExprNode::Val(Literal::String(text)) => {
            let name = name_of(alloc, text.as_str())?;
            let ty = EntityType::EntityType(name);
            Ok(StaticType::Entity { ty })
        }
        _ => Err(Reason::BadArgument),
    }
}

// Pops a text off the stack, and returns the type with this name.
fn popped_type(alloc: Global, stack: &mut Vec<Expr>) -> Result<StaticType, Reason>
    ensures { MatchResult result
        (λ t. (e : ExprTree) × (stack.old.items ≡ stack.new.items ++ e ∷ []) × IsTypeIn e t)
        (IsNoTypeOn stack.old.items) }
{
    let expr = popped_expr(stack)?;
    let ty = type_in(alloc, &expr)?;
    Ok(ty)
}

/// Builds the unknown of a node. Pops its type off the stack, if it has one.
pub(crate) fn build_unknown(
    alloc: Global,
    text: &[u8],
    node: &Node,
    stack: &mut Vec<Expr>,
) -> Result<Expr, Reason>
    requires { node.now.kind ≡ 9 }
    ensures { MatchResult result (Makes BuildsExpr text.now node.now stack.old.items stack.new.items)
        (IsUnjoined IsAllowedInExpr text.now node.now stack.old.items) }
{
    match node.len {
        0 => {
            let name = string_at(alloc, text, node.at)?;
            let unknown = Unknown::new_untyped(name);
            let made = Expr::unknown(alloc, unknown)?;
            Ok(made)
        }
        1 => {
            let name = string_at(alloc, text, node.at)?;
            let ty = popped_type(alloc, stack)?;
            let unknown = Unknown::new_with_type(name, ty);
            let made = Expr::unknown(alloc, unknown)?;
            Ok(made)
        }
        _ => Err(Reason::BadArgument),
    }
}
