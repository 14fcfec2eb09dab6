//! Bodies from the lists of a caller.
ghost use Rattle.std.specs.Prelude.{MatchResult};
ghost use Rattle.cedar_c_bodies.specs.Bodies.{IsClauseAt, IsEffect, IsBodyOfInput, IsNoClauseAt, IsNoEffect, IsInvalidInput};
ghost use Rattle.cedar_c_bodies.specs.Bodies.{input_of_lists};

use crate::annotated::annotations_at;
use crate::layout::BodyLists;
use crate::scopes::{constraint_at, rule_at};
use cedar_body::Effect;
use cedar_c_lists::{Reason, id_of};
use cedar_c_trees::{Node, expr_of};
use cedar_policy::Template;
use cedar_scope::{PrincipalConstraint, ResourceConstraint};
use cedar_terms::Expr;
use std::alloc::Global;

/// Returns the effect with a number: 0 is permit, 1 is forbid. Does not allocate.
///
/// # Errors
///
/// - `BadArgument`: the number is neither 0 nor 1.
pub fn effect_of(number: u32) -> Result<Effect, Reason>
    ensures { MatchResult result (IsEffect number) (IsNoEffect number) }
{
    match number {
        0 => Ok(Effect::Permit),
        1 => Ok(Effect::Forbid),
        _ => Err(Reason::BadArgument),
    }
}

// Decodes the clause, if there are nodes.
fn clause_at(alloc: Global, text: &[u8], nodes: &[Node]) -> Result<Option<Expr>, Reason>
    ensures { MatchResult result (IsClauseAt text.now nodes.now) (IsNoClauseAt text.now nodes.now) }
{
    if nodes.is_empty() {
        return Ok(None);
    }
    let clause = expr_of(alloc, text, nodes)?;
    Ok(Some(clause))
}

/// Decodes a body from the lists of a caller, with these bytes as its id. The body may have slots.
///
/// # Errors
///
/// - `BadArgument`: the number of the effect or of a constraint is invalid, a span is not within the text, or the nodes
///   are not the nodes of an expression.
/// - `NotAUid`: a part is not the text of a uid.
/// - `NotAName`: a part is not the name of a type or the key of an annotation.
/// - `NotUtf8`: the id or the value of an annotation is not UTF-8.
/// - `NoMemory`: an allocation failed.
/// - The errors of `expr_of`.
///
/// # Complexity
///
/// Linear in the lists and in the result, apart from sorting the keys.
pub fn template_of(alloc: Global, id: &[u8], lists: BodyLists<'_>) -> Result<Template, Reason>
    ensures { MatchResult result (IsBodyOfInput id.now (input_of_lists lists.entry)) (IsInvalidInput id.now (input_of_lists lists.entry)) }
{
    let text = lists.text;
    let effect = effect_of(lists.body.effect)?;
    let id = id_of(alloc, id)?;
    let annotations = annotations_at(alloc, text, lists.annotations)?;
    let principal = constraint_at(alloc, text, &lists.body.principal)?;
    let action = rule_at(alloc, text, lists.uids, &lists.body.action)?;
    let resource = constraint_at(alloc, text, &lists.body.resource)?;
    let clause = clause_at(alloc, text, lists.nodes)?;
    let template = Template::new(
        alloc,
        id,
        None,
        annotations,
        effect,
        PrincipalConstraint::new(principal),
        action,
        ResourceConstraint::new(resource),
        clause,
    )?;
    Ok(template)
}
