//! The calls that list the policies and templates that name a uid.
ghost use Rattle.std.specs.Prelude.{◌≡◌, map, IfOk};
ghost use Rattle.cedar_policy.specs.Policies.{policy_id};
ghost use Rattle.cedar_c_sets.specs.Naming.{AnswersNaming, body_id};
ghost use Rattle.cedar_c_sets.specs.Naming.{policies_naming as ids_naming, templates_naming as template_ids_naming};

use crate::set_state::SetState;
use cedar_c_lists::{Answer, Reason, uid_of};
use cedar_naming::{policies_naming, templates_naming};
use cedar_policy::{Policy, Template};
use std::alloc::{AllocError, Global};
use std::hash::BuildHasher;

// Returns the ids of policies as texts.
fn texts_of_policies(alloc: Global, policies: &[&Policy]) -> Result<Answer, AllocError>
    ensures { IfOk result (λ a. a ≡ map (λ p. policy_id p.now) policies.now) }
{
    let mut answer = Answer::new(alloc);
    for policy in policies {
        answer = answer.with(policy.id().as_ref().as_bytes())?;
    }
    Ok(answer)
}

// Returns the ids of templates as texts.
fn texts_of_templates(alloc: Global, templates: &[&Template]) -> Result<Answer, AllocError>
    ensures { IfOk result (λ a. a ≡ map (λ t. body_id t.now) templates.now) }
{
    let mut answer = Answer::new(alloc);
    for template in templates {
        answer = answer.with(template.id().as_ref().as_bytes())?;
    }
    Ok(answer)
}

impl<S: BuildHasher + Copy> SetState<S> {
    /// Stores the ids of the policies, static policies and links, that name the uid in a text in `answer`, in the order
    /// of the set. A policy names a uid if its scope constraints, its bindings or its clause contain it.
    ///
    /// # Errors
    ///
    /// - `NotAUid`: the text is not the text of a uid.
    /// - `NoMemory`: an allocation failed.
    ///
    /// After an error nothing has changed.
    pub fn naming(&mut self, alloc: Global, uid: &[u8]) -> Result<(), Reason>
        ensures { AnswersNaming ids_naming uid.now result self.old self.new }
    {
        let uid = uid_of(alloc, uid)?;
        let policies = policies_naming(alloc, &self.set, &uid)?;
        let answer = texts_of_policies(alloc, &policies)?;
        self.answer = answer;
        Ok(())
    }

    /// Stores the ids of the templates with slots that name the uid in a text in `answer`, with or without links, in the
    /// order of the set. A template names a uid if its scope constraints or its clause contain it.
    ///
    /// # Errors
    ///
    /// - `NotAUid`: the text is not the text of a uid.
    /// - `NoMemory`: an allocation failed.
    ///
    /// After an error nothing has changed.
    pub fn templates_naming(&mut self, alloc: Global, uid: &[u8]) -> Result<(), Reason>
        ensures { AnswersNaming template_ids_naming uid.now result self.old self.new }
    {
        let uid = uid_of(alloc, uid)?;
        let templates = templates_naming(alloc, &self.set, &uid)?;
        let answer = texts_of_templates(alloc, &templates)?;
        self.answer = answer;
        Ok(())
    }
}
