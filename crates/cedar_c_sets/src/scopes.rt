//! The call that reads the constraints of principal, action and resource.
ghost use Rattle.std.specs.Prelude.{◌≡◌, IfOk, MatchResult};
ghost use Rattle.std.specs.Option.{option_map};
ghost use Rattle.cedar_action.specs.Views.{rule_of};
ghost use Rattle.cedar_c_bodies.specs.Encoded.{EncodesConstraint, EncodesRule};
ghost use Rattle.cedar_c_sets.specs.Scopes.{AnswersScope, EncodesFound, EncodesScope, action_at, principal_at, resource_at};
ghost use Rattle.cedar_c_sets.specs.laws.Finding.{IsScopeless, IsUnfound};

use crate::set_state::SetState;
use cedar_action::ActionConstraint;
use cedar_c_bodies::{encode_constraint, encode_rule};
use cedar_c_lists::{Answer, Reason, id_of};
use cedar_ids::policy_id::PolicyID;
use cedar_policy_set::PolicySet;
use cedar_scope::{PrincipalConstraint, ResourceConstraint};
use std::alloc::{AllocError, Global};
use std::hash::BuildHasher;

// Returns the principal constraint of the policy or template with an id.
fn principal_at<S: BuildHasher + Copy>(
    alloc: Global,
    set: &PolicySet<S>,
    id: &PolicyID,
) -> Result<Option<PrincipalConstraint>, AllocError>
    ensures { IfOk result (λ c. c ≡ principal_at set.now id.now) }
{
    match set.get(id) {
        Some(policy) => {
            let constraint = policy.principal_constraint(alloc)?;
            Ok(Some(constraint))
        }
        None => match set.get_template(id) {
            Some(template) => {
                let constraint = template.principal_constraint().clone()?;
                Ok(Some(constraint))
            }
            None => Ok(None),
        },
    }
}

// Returns the action constraint of the policy or template with an id.
fn action_at<S: BuildHasher + Copy>(
    alloc: Global,
    set: &PolicySet<S>,
    id: &PolicyID,
) -> Result<Option<ActionConstraint>, AllocError>
    ensures { IfOk result (λ c. option_map rule_of c ≡ action_at set.now id.now) }
{
    match set.get(id) {
        Some(policy) => {
            let constraint = policy.action_constraint(alloc)?;
            Ok(Some(constraint))
        }
        None => match set.get_template(id) {
            Some(template) => {
                let constraint = template.action_constraint().clone()?;
                Ok(Some(constraint))
            }
            None => Ok(None),
        },
    }
}

// Returns the resource constraint of the policy or template with an id.
fn resource_at<S: BuildHasher + Copy>(
    alloc: Global,
    set: &PolicySet<S>,
    id: &PolicyID,
) -> Result<Option<ResourceConstraint>, AllocError>
    ensures { IfOk result (λ c. c ≡ resource_at set.now id.now) }
{
    match set.get(id) {
        Some(policy) => {
            let constraint = policy.resource_constraint(alloc)?;
            Ok(Some(constraint))
        }
        None => match set.get_template(id) {
            Some(template) => {
                let constraint = template.resource_constraint().clone()?;
                Ok(Some(constraint))
            }
            None => Ok(None),
        },
    }
}

// Returns the principal constraint as a number and texts.
fn encode_principal<S: BuildHasher + Copy>(
    alloc: Global,
    set: &PolicySet<S>,
    id: &PolicyID,
) -> Result<(u32, Answer), Reason>
    ensures { MatchResult result (λ r. EncodesFound EncodesConstraint (principal_at set.now id.now) r.0 r.1)
        (IsUnfound (principal_at set.now id.now)) }
{
    let found = principal_at(alloc, set, id)?;
    match found {
        None => Err(Reason::NoBody),
        Some(constraint) => {
            let told = encode_constraint(alloc, constraint.as_inner())?;
            Ok(told)
        }
    }
}

// Returns the action constraint as a number and texts.
fn encode_action<S: BuildHasher + Copy>(
    alloc: Global,
    set: &PolicySet<S>,
    id: &PolicyID,
) -> Result<(u32, Answer), Reason>
    ensures { MatchResult result (λ r. EncodesFound EncodesRule (action_at set.now id.now) r.0 r.1)
        (IsUnfound (action_at set.now id.now)) }
{
    let found = action_at(alloc, set, id)?;
    match found {
        None => Err(Reason::NoBody),
        Some(rule) => {
            let told = encode_rule(alloc, &rule)?;
            Ok(told)
        }
    }
}

// Returns the resource constraint as a number and texts.
fn encode_resource<S: BuildHasher + Copy>(
    alloc: Global,
    set: &PolicySet<S>,
    id: &PolicyID,
) -> Result<(u32, Answer), Reason>
    ensures { MatchResult result (λ r. EncodesFound EncodesConstraint (resource_at set.now id.now) r.0 r.1)
        (IsUnfound (resource_at set.now id.now)) }
{
    let found = resource_at(alloc, set, id)?;
    match found {
        None => Err(Reason::NoBody),
        Some(constraint) => {
            let told = encode_constraint(alloc, constraint.as_inner())?;
            Ok(told)
        }
    }
}

// Returns one of the three constraints as a number and texts.
fn encode_scope<S: BuildHasher + Copy>(
    alloc: Global,
    set: &PolicySet<S>,
    id: &PolicyID,
    which: u32,
) -> Result<(u32, Answer), Reason>
    ensures { MatchResult result (λ r. EncodesScope which set.now id.now r.0 r.1) (IsScopeless which set.now id.now) }
{
    match which {
        0 => encode_principal(alloc, set, id),
        1 => encode_action(alloc, set, id),
        2 => encode_resource(alloc, set, id),
        _ => Err(Reason::BadArgument),
    }
}

impl<S: BuildHasher + Copy> SetState<S> {
    /// Returns the kind of the principal constraint (`which` 0), the action constraint (1) or the resource constraint
    /// (2) of the policy or template with an id. See `Scope` for the kinds. Stores the text of its type, followed by
    /// the texts of its uids, in `answer`. The slots of a link are replaced by their uids.
    ///
    /// # Errors
    ///
    /// - `BadArgument`: the number `which` is invalid.
    /// - `NotUtf8`: the id is not UTF-8.
    /// - `NoBody`: the id is not in use.
    /// - `NoMemory`: an allocation failed.
    ///
    /// After an error nothing has changed.
    pub fn scope(&mut self, alloc: Global, id: &[u8], which: u32) -> Result<u32, Reason>
        ensures { AnswersScope which id.now result self.old self.new }
    {
        let id = id_of(alloc, id)?;
        let (kind, texts) = encode_scope(alloc, &self.set, &id, which)?;
        self.answer = texts;
        Ok(kind)
    }
}
