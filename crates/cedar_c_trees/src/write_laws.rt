//! Laws of encoding and of decoding the result.
ghost use Rattle.std.specs.List.{AllByRecursion};
ghost use Rattle.std.specs.Prelude.{◌<◌, ◌≤◌, List, ℕ};
ghost use Rattle.cedar_terms.specs.ExprTree.{ExprTree};
ghost use Rattle.cedar_terms.specs.ValueTree.{ValueTree};
ghost use Rattle.cedar_c_trees.specs.Items.{Combines, Item, BuildsExpr, level_limit, tree_levels};
ghost use Rattle.cedar_c_trees.specs.Ordered.{IsOnlyRead, IsOrdered};
ghost use Rattle.cedar_c_trees.specs.Plans.{HasNames, expr_items, expr_plan, value_items, value_plan};
ghost use Rattle.cedar_c_trees.specs.Reads.{AllDecode, IsReadAs};
ghost use Rattle.cedar_c_trees.specs.Writes.{AreAscii, IsWrittenAs, WrittenParts};
ghost use Rattle.cedar_c_trees.specs.declared.node.Node.{Node};

/// States that encoded nodes mean their items, if the eids of all uids are ASCII. Does nothing at run time.
pub fn encoding_is_decoded()
    ensures { (is : List Item) (w : WrittenParts) → AreAscii is → IsWrittenAs is w
        → AllDecode w.bytes w.nodes is }
{}

/// States that the node of an item is never the mark of a residual. Does nothing at run time.
pub fn written_nodes_are_no_marks()
    ensures { (is : List Item) (w : WrittenParts) → IsWrittenAs is w → AllByRecursion (λ n. n.kind < 15) w.nodes }
{}

/// States that the nodes of an encoded value are decoded as that value and as nothing else. The conditions are that its
/// sets and records are ordered, the eids of its uids are ASCII, and it has at most `CEDAR_LEVELS` levels. Does nothing
/// at run time.
pub fn value_is_read_back()
    ensures { (v : ValueTree) (text : List ℕ) (ns : List Node) → IsOrdered v → AreAscii (value_items v)
        → tree_levels (value_plan v) ≤ level_limit → AllDecode text ns (value_items v)
        → IsOnlyRead Combines text ns v }
{}

/// States that the nodes of an encoded expression are decoded as that expression and as nothing else. The conditions
/// are that the types of its unknowns have names, the eids of its uids are ASCII, and it has at most `CEDAR_LEVELS`
/// levels. Does nothing at run time.
pub fn expr_is_read_back()
    ensures { (e : ExprTree) (text : List ℕ) (ns : List Node) → HasNames e → AreAscii (expr_items e)
        → tree_levels (expr_plan e) ≤ level_limit → AllDecode text ns (expr_items e)
        → IsOnlyRead BuildsExpr text ns e }
{}

/// States that the sets and records of a decoded value are ordered. Does nothing at run time.
pub fn read_value_is_ordered()
    ensures { (text : List ℕ) (ns : List Node) (v : ValueTree) → IsReadAs Combines text ns v → IsOrdered v }
{}

/// States that the types of the unknowns of a decoded expression have names. Does nothing at run time.
pub fn read_expr_has_names()
    ensures { (text : List ℕ) (ns : List Node) (e : ExprTree) → IsReadAs BuildsExpr text ns e → HasNames e }
{}
