//! Decoding a value from nodes over a text.
ghost use Rattle.std.specs.Prelude.{◌≡◌, IfOk, map, MatchResult, string_bytes};
ghost use Rattle.cedar_terms.specs.ValueTree.{extension_value};
ghost use Rattle.cedar_c_trees.specs.Items.{Combines};
ghost use Rattle.cedar_c_trees.specs.Reads.{IsReadAs};
ghost use Rattle.cedar_c_trees.specs.Refusals.{IsRefused};
ghost use Rattle.cedar_c_trees.specs.Shapes.{IsAllowedInValue};
ghost use Rattle.cedar_c_trees.specs.laws.Stacks.{is_text_value, IsUnmade, Makes};

use crate::levels::check_levels;
use crate::node::Node;
use crate::parts::{literal_of, name_at};
use crate::value_stack::{alone, popped_pairs, popped_text, popped_values};
use cedar_c_lists::Reason;
use cedar_ids::name::Name;
use cedar_terms::{ExtensionValue, Value, ValueKind};
use std::alloc::{AllocError, Global};
use std::rc::Rc;

// Builds the value of a node. Pops its operands off the stack.
fn made(alloc: Global, text: &[u8], node: &Node, stack: &mut Vec<Value>) -> Result<Value, Reason>
    ensures { MatchResult result (Makes Combines text.now node.now stack.old.items stack.new.items)
        (IsUnmade IsAllowedInValue text.now node.now (map is_text_value stack.old.items)) }
{
    match node.kind {
        0..=3 => {
            let literal = literal_of(alloc, text, node)?;
            Ok(Value::new(ValueKind::Lit(literal), None))
        }
        4 => {
            let values = popped_values(alloc, stack, node.len)?;
            let set = Value::set(alloc, values, None)?;
            Ok(set)
        }
        5 => {
            let pairs = popped_pairs(alloc, stack, node.len)?;
            let fields = Value::record(alloc, pairs, None)?;
            Ok(fields)
        }
        6 if node.len == 1 => {
            let func = name_at(alloc, text, node.at)?;
            let arg = popped_text(stack)?;
            let call = called(alloc, func, arg)?;
            Ok(call)
        }
        _ => Err(Reason::BadArgument),
    }
}

// Builds the call of an extension function with a text as its argument.
fn called(alloc: Global, func: Name, arg: String) -> Result<Value, AllocError>
    ensures { IfOk result (λ v. v ≡ extension_value func (string_bytes arg)) }
{
    let call = Rc::new(alloc, ExtensionValue { func, arg })?;
    Ok(Value::new(ValueKind::ExtensionValue(call), None))
}

/// Decodes the value of nodes over a text. Each node comes after its operands. Reads each node twice, and builds sets
/// and records by `Value::set` and `Value::record`.
///
/// # Errors
///
/// - `BadArgument`: the nodes are not the nodes of a value, whatever their texts are.
/// - `TooDeep`: the value has more than `CEDAR_LEVELS` levels.
/// - `NotAUid`, `NotUtf8`, `NotAName`: the text of a node is not valid for its kind.
/// - `NoMemory`: an allocation failed.
pub fn value_of(alloc: Global, text: &[u8], nodes: &[Node]) -> Result<Value, Reason>
    ensures { MatchResult result (IsReadAs Combines text.now nodes.now)
        (IsRefused IsAllowedInValue text.now nodes.now) }
{
    check_levels(alloc, nodes)?;
    let mut stack = Vec::new(alloc);
    for node in nodes {
        let value = made(alloc, text, node, &mut stack)?;
        stack.push(value)?;
    }
    alone(stack)
}
