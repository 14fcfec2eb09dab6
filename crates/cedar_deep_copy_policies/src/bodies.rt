//! Deep copies of the bodies of policies and templates.
ghost use Rattle.std.specs.Prelude.{◌≡◌, IfOk};
ghost use Rattle.std.specs.Option.{option_copied};

use crate::constraints::{deep_copy_constraint, deep_copy_rule};
use cedar_annotation::annotation::Iter;
use cedar_annotation::{Annotation, Annotations};
use cedar_deep_copy::deep_copy_expr;
use cedar_ids::id::AnyId;
use cedar_policy::{StaticPolicy, Template};
use cedar_scope::{PrincipalConstraint, ResourceConstraint};
use cedar_terms::Expr;
use std::alloc::{AllocError, Global};

// Copies the key of an annotation.
fn deep_copy_key(alloc: Global, key: &AnyId) -> Result<AnyId, AllocError>
    ensures { IfOk result (λ k. k ≡ key.now) }
{
    match AnyId::from_normalized_str(alloc, key.as_ref()) {
        Ok(own) => Ok(own),
        Err(_want) => Err(AllocError),
    }
}

// Copies an annotation, without its location.
fn deep_copy_annotation(alloc: Global, annotation: &Annotation) -> Result<Annotation, AllocError>
    ensures { IfOk result (λ a. a ≡ annotation.now) }
{
    let val = String::from_str(alloc, annotation.as_ref())?;
    Ok(Annotation { val, loc: None })
}

// Copies annotations, with their keys.
fn deep_copy_annotations(alloc: Global, annotations: Iter<'_>) -> Result<Annotations, AllocError> {
    let mut own = Vec::new(alloc);
    for (key, annotation) in annotations {
        let key = deep_copy_key(alloc, key)?;
        let annotation = deep_copy_annotation(alloc, annotation)?;
        own.push((key, annotation))?;
    }
    Annotations::try_from_iter(alloc, own)
}

// Copies a clause, if there is one.
fn deep_copy_clause(alloc: Global, clause: Option<&Expr>) -> Result<Option<Expr>, AllocError>
    ensures { IfOk result (λ c. c ≡ option_copied clause.entry) }
{
    match clause {
        None => Ok(None),
        Some(clause) => {
            let own = deep_copy_expr(alloc, clause)?;
            Ok(Some(own))
        }
    }
}

// Copies a template.
pub(crate) fn deep_copy_template(
    alloc: Global,
    template: &Template,
) -> Result<Template, AllocError> {
    let annotations = deep_copy_annotations(alloc, template.annotations())?;
    let principal = deep_copy_constraint(alloc, template.principal_constraint().as_inner())?;
    let action = deep_copy_rule(alloc, template.action_constraint())?;
    let resource = deep_copy_constraint(alloc, template.resource_constraint().as_inner())?;
    let clause = deep_copy_clause(alloc, template.non_scope_constraints())?;
    Template::new(
        alloc,
        template.id().clone()?,
        None,
        annotations,
        template.effect(),
        PrincipalConstraint::new(principal),
        action,
        ResourceConstraint::new(resource),
        clause,
    )
}

// Copies a static policy. Returns an error if the body has a slot.
pub(crate) fn deep_copy_static(
    alloc: Global,
    template: &Template,
) -> Result<StaticPolicy, AllocError> {
    let annotations = deep_copy_annotations(alloc, template.annotations())?;
    let principal = deep_copy_constraint(alloc, template.principal_constraint().as_inner())?;
    let action = deep_copy_rule(alloc, template.action_constraint())?;
    let resource = deep_copy_constraint(alloc, template.resource_constraint().as_inner())?;
    let clause = deep_copy_clause(alloc, template.non_scope_constraints())?;
    let made = StaticPolicy::new(
        alloc,
        template.id().clone()?,
        None,
        annotations,
        template.effect(),
        PrincipalConstraint::new(principal),
        action,
        ResourceConstraint::new(resource),
        clause,
    );
    match made {
        Ok(policy) => Ok(policy),
        Err(_slot) => Err(AllocError),
    }
}
