//! Decoding an expression from nodes over a text.
ghost use Rattle.std.specs.Prelude.{◌≡◌, ◌≤◌, ◌+◌, IfOk, map, MatchResult};
ghost use Rattle.cedar_terms.specs.ExprTree.{binary_node, Operator, operator_index};
ghost use Rattle.cedar_c_trees.specs.Items.{BuildsExpr};
ghost use Rattle.cedar_c_trees.specs.Reads.{IsReadAs};
ghost use Rattle.cedar_c_trees.specs.Refusals.{IsRefused};
ghost use Rattle.cedar_c_trees.specs.Shapes.{IsAllowedInExpr};
ghost use Rattle.cedar_c_trees.specs.laws.Stacks.{IsUnjoined, Makes};

use crate::expr_stack::{only_expr, popped_expr, popped_exprs, popped_two};
use crate::levels::check_levels;
use crate::node::Node;
use crate::numbers::{slot_of, var_of};
use crate::parts::{literal_of, name_at};
use crate::unknowns::build_unknown;
use cedar_c_lists::Reason;
use cedar_ids::entity::EntityType;
use cedar_terms::Expr;
use std::alloc::{AllocError, Global};

// Builds the binary expression with the operator of a kind.
fn binary_node_of(alloc: Global, kind: u32, left: Expr, right: Expr) -> Result<Expr, AllocError>
    requires least { 11 ≤ kind }
    requires most { kind ≤ 13 }
    ensures { IfOk result (λ e. (o : Operator) × (kind ≡ 11 + operator_index o) × (e ≡ binary_node o left right)) }
{
    match kind {
        11 => Expr::and(alloc, left, right),
        12 => Expr::is_eq(alloc, left, right),
        _ => Expr::is_in(alloc, left, right),
    }
}

// Builds an unknown, a negation, a binary expression, or a test of a type.
fn operated(alloc: Global, text: &[u8], node: &Node, stack: &mut Vec<Expr>) -> Result<Expr, Reason>
    requires { 9 ≤ node.now.kind }
    ensures { MatchResult result (Makes BuildsExpr text.now node.now stack.old.items stack.new.items)
        (IsUnjoined IsAllowedInExpr text.now node.now stack.old.items) }
{
    match node.kind {
        9 => build_unknown(alloc, text, node, stack),
        10 => {
            let operand = popped_expr(stack)?;
            let negation = Expr::not(alloc, operand)?;
            Ok(negation)
        }
        11..=13 => {
            let (left, right) = popped_two(stack)?;
            let both = binary_node_of(alloc, node.kind, left, right)?;
            Ok(both)
        }
        14 => {
            let name = name_at(alloc, text, node.at)?;
            let operand = popped_expr(stack)?;
            let test = Expr::is_entity_type(alloc, operand, EntityType::EntityType(name))?;
            Ok(test)
        }
        _ => Err(Reason::BadArgument),
    }
}

// Builds the expression of a node. Pops its operands off the stack.
fn joined(alloc: Global, text: &[u8], node: &Node, stack: &mut Vec<Expr>) -> Result<Expr, Reason>
    ensures { MatchResult result (Makes BuildsExpr text.now node.now stack.old.items stack.new.items)
        (IsUnjoined IsAllowedInExpr text.now node.now stack.old.items) }
{
    match node.kind {
        0..=3 => {
            let literal = literal_of(alloc, text, node)?;
            let val = Expr::val(alloc, literal)?;
            Ok(val)
        }
        4 => {
            let exprs = popped_exprs(alloc, stack, node.len)?;
            let set = Expr::set(alloc, exprs)?;
            Ok(set)
        }
        5 => Err(Reason::BadArgument),
        6 => {
            let name = name_at(alloc, text, node.at)?;
            let exprs = popped_exprs(alloc, stack, node.len)?;
            let call = Expr::call(alloc, name, exprs)?;
            Ok(call)
        }
        7 => {
            let var = var_of(node.number)?;
            let val = Expr::var(alloc, var)?;
            Ok(val)
        }
        8 => {
            let slot = slot_of(node.number)?;
            let val = Expr::slot(alloc, slot)?;
            Ok(val)
        }
        _ => operated(alloc, text, node, stack),
    }
}

/// Decodes the expression of nodes over a text. Each node comes after its operands. Reads each node twice.
///
/// # Errors
///
/// - `BadArgument`: the nodes are not the nodes of an expression, whatever their texts are.
/// - `TooDeep`: the expression has more than `CEDAR_LEVELS` levels.
/// - `NotAUid`, `NotUtf8`, `NotAName`: the text of a node is not valid for its kind.
/// - `NoMemory`: an allocation failed.
pub fn expr_of(alloc: Global, text: &[u8], nodes: &[Node]) -> Result<Expr, Reason>
    ensures { MatchResult result (IsReadAs BuildsExpr text.now nodes.now)
        (IsRefused IsAllowedInExpr text.now nodes.now) }
{
    check_levels(alloc, nodes)?;
    let mut stack = Vec::new(alloc);
    for node in nodes {
        let expr = joined(alloc, text, node, &mut stack)?;
        stack.push(expr)?;
    }
    only_expr(stack)
}
