//! Laws of encoding and decoding.
ghost use Rattle.std.specs.Prelude.{◌≡◌, List, ℕ};
ghost use Rattle.cedar_terms.specs.ExprTree.{ExprTree};
ghost use Rattle.cedar_terms.specs.ValueTree.{ValueTree};
ghost use Rattle.cedar_c_trees.specs.Items.{Combines, BuildsExpr};
ghost use Rattle.cedar_c_trees.specs.Plans.{HasNames, IsReadBack};
ghost use Rattle.cedar_c_trees.specs.Reads.{IsReadAs};
ghost use Rattle.cedar_c_trees.specs.Refusals.{IsPlanned};
ghost use Rattle.cedar_c_trees.specs.Shapes.{IsAllowedInExpr, IsAllowedInValue};
ghost use Rattle.cedar_c_trees.specs.declared.node.Node.{Node};

/// States that an encoded expression is decoded as itself and as nothing else. Does nothing at run time.
pub fn written_is_read_back()
    ensures { (e : ExprTree) → HasNames e → IsReadBack e }
{}

/// States that decoded nodes can be rejected neither as `BadArgument` nor as `TooDeep`. Does nothing at run time.
pub fn decoding_matches_plan()
    ensures value { (text : List ℕ) (ns : List Node) (v : ValueTree) → IsReadAs Combines text ns v
        → IsPlanned IsAllowedInValue text ns }
    ensures expr { (text : List ℕ) (ns : List Node) (e : ExprTree) → IsReadAs BuildsExpr text ns e
        → IsPlanned IsAllowedInExpr text ns }
{}
