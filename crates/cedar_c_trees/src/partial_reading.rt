//! Decoding a partial value from nodes over a text.
ghost use Rattle.std.specs.Prelude.{MatchResult};
ghost use Rattle.cedar_c_trees.specs.Partials.{IsPartialReadAs, IsPartialRefused};

use crate::expr_reading::expr_of;
use crate::node::Node;
use crate::reading::value_of;
use cedar_c_lists::Reason;
use cedar_terms::PartialValue;
use std::alloc::Global;

/// Decodes the partial value of nodes over a text. If the last node has kind 15 and length 1, the other nodes are
/// decoded as an expression, and the result is a residual. Otherwise all nodes are decoded as a value.
///
/// # Errors
///
/// The errors of `expr_of` for the nodes before the mark, or the errors of `value_of` for all nodes.
pub fn partial_value_of(alloc: Global, text: &[u8], nodes: &[Node]) -> Result<PartialValue, Reason>
    ensures { MatchResult result (IsPartialReadAs text.now nodes.now) (IsPartialRefused text.now nodes.now) }
{
    match nodes.split_last() {
        Some((mark, before)) if mark.kind == 15 && mark.len == 1 => {
            let expr = expr_of(alloc, text, before)?;
            Ok(PartialValue::Residual(expr))
        }
        _ => {
            let value = value_of(alloc, text, nodes)?;
            Ok(PartialValue::Value(value))
        }
    }
}
