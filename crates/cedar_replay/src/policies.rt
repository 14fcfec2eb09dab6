//! Lists of calls on a policy set.
ghost use Rattle.std.specs.Prelude.{◌≡◌, ◌++◌, [], ◌∷◌, ◌<◌, ◌≤◌, ◌+◌, length, IfOk, OnErr};
ghost use Rattle.std.specs.Vec.{vec_len, vec_capacity};
ghost use Rattle.cedar_binding.specs.Views.{env_of};
ghost use Rattle.cedar_policy_set.specs.Refusals.{Steps, linking_error_of};
ghost use Rattle.cedar_policy_set.specs.Steps.{link_step};
ghost use Rattle.cedar_replay.specs.Replays.{IsStep, AreSteps};

use crate::call::{Answer, PolicyCall};
use cedar_ids::policy_id::PolicyID;
use cedar_policy::{LinkingError, SlotEnv};
use cedar_policy_set::PolicySet;
use std::alloc::{AllocError, Global};
use std::hash::BuildHasher;

// Links a template, and drops the returned reference to the link.
fn link<S: BuildHasher + Copy>(
    alloc: Global,
    set: &mut PolicySet<S>,
    template_id: PolicyID,
    new_id: PolicyID,
    values: SlotEnv,
) -> Result<(), LinkingError>
    ensures { Steps linking_error_of result set.old set.new (link_step set.old template_id new_id (env_of values)) }
{
    set.link(alloc, template_id, new_id, values)?;
    Ok(())
}

// Runs one call.
fn replay_one<S: BuildHasher + Copy>(
    alloc: Global,
    set: &mut PolicySet<S>,
    call: PolicyCall<S>,
) -> Answer<S>
    ensures { IsStep call result set.old set.new }
{
    match call {
        PolicyCall::AddStatic(policy) => Answer::AddStatic(set.add_static(alloc, policy)),
        PolicyCall::AddTemplate(template) => Answer::AddTemplate(set.add_template(alloc, template)),
        PolicyCall::Add(policy) => Answer::Add(set.add(alloc, policy)),
        PolicyCall::Link(template, id, values) => Answer::Link(link(
            alloc, set, template, id, values,
        )),
        PolicyCall::Unlink(id) => Answer::Unlink(set.unlink(&id)),
        PolicyCall::RemoveStatic(id) => Answer::RemoveStatic(set.remove_static(&id)),
        PolicyCall::RemoveTemplate(id) => Answer::RemoveTemplate(set.remove_template(&id)),
        PolicyCall::Merge(other, rename) => Answer::Merge(set.merge_policyset(
            alloc, &other, rename,
        )),
    }
}

// Appends a result. The space must be reserved.
fn append<S: BuildHasher>(answers: &mut Vec<Answer<S>>, answer: Answer<S>)
    requires { vec_len answers.old < vec_capacity answers.old }
    ensures items { answers.new.items ≡ answers.old.items ++ answer ∷ [] }
    ensures len { vec_len answers.new ≡ vec_len answers.old + 1 }
    ensures room { vec_capacity answers.old ≤ vec_capacity answers.new }
{
    answers.push(answer).unwrap();
}

/// Runs calls on the set, one after another, and returns all results in order. A failed call leaves the set unchanged,
/// and the next call follows.
///
/// # Errors
///
/// Returns `AllocError` if the allocation of the list of results fails. No call is then made, and the `AllocError`
/// leaves the set unchanged.
///
/// # Complexity
///
/// The sum of the calls' costs. The list of results is allocated before the first call.
///
/// # Differences from cedar-policy-core
///
/// The original has no such function.
pub fn replay_policies<S: BuildHasher + Copy>(
    alloc: Global,
    set: &mut PolicySet<S>,
    calls: Vec<PolicyCall<S>>,
) -> Result<Vec<Answer<S>>, AllocError>
    // There is one result for each call.
    ensures count { IfOk result (λ answers. length answers.items ≡ length calls.items) }

    // The results and the final set follow from the steps, each applied to the set after the step before it.
    ensures steps { IfOk result (λ answers. AreSteps calls.items answers.items set.old set.new) }

    // If the list of results cannot be allocated, no call is made.
    ensures err { OnErr result (set.new ≡ set.old) }
{
    let mut answers = Vec::with_capacity(alloc, calls.len())?;
    for call in calls {
        let answer = replay_one(alloc, set, call);
        append(&mut answers, answer);
    }
    Ok(answers)
}
