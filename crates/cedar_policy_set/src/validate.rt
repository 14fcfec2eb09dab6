//! Validation of policy sets.
ghost use Rattle.std.specs.Prelude.{◌≡◌, OnOk, IfErr, All};
ghost use Rattle.std.specs.List.{find};
ghost use Rattle.std.specs.Option.{option_copied};
ghost use Rattle.cedar_policy_set.specs.Validity.{is_slotless_link, HasSlottedLinks, IsSetFault, IsValidBody};
ghost use Rattle.cedar_policy_set.specs.Validity.{ValidatesSet};
ghost use Rattle.cedar_policy_set.specs.laws.BodyFaults.{IsBodyFault, IsFirstFault};

use crate::policy_set::PolicySet;
use cedar_policy::{Policy, Template, TemplateValidationError};
use cedar_policy_maps::{AllTemplates, Policies, has_no_slots, is_link};
use cedar_policy_set_errors::err::PolicySetValidationError;
use std::alloc::Global;
use std::hash::BuildHasher;

impl<S: BuildHasher + Copy> PolicySet<S> {
    /// Returns the set itself, if its links and bodies are valid.
    ///
    /// # Errors
    ///
    /// After an error the set is dropped. The links are checked before the bodies.
    ///
    /// - `LinkToSlotlessTemplate`: a link has a template without slots. The error names the first one, in the order of
    ///   policies.
    /// - `InvalidTemplate`: a body does not pass [`Template::try_validate`]. The error has the id and the error of the
    ///   first one, in the order of bodies.
    /// - `Memory`: an allocation failed.
    ///
    /// # Complexity
    ///
    /// O(n), where n is the size of the set. Allocates a copy of each body for its check.
    pub fn try_validate(self, alloc: Global) -> Result<PolicySet<S>, PolicySetValidationError>
        ensures { ValidatesSet result self }
    {
        self.check(alloc)?;
        Ok(self)
    }

    // Returns an error for the first link of a template without slots, or else for the first invalid body.
    fn check(&self, alloc: Global) -> Result<(), PolicySetValidationError>
        ensures ok { OnOk result (HasSlottedLinks self.now × All IsValidBody self.now.bodies) }
        ensures err { IfErr result (λ e. IsSetFault e self.now) }
    {
        if let Some(link) = first_slotless(self.maps.policies()) {
            return Err(PolicySetValidationError::LinkToSlotlessTemplate {
                link_id: link.id().clone()?,
                template_id: link.template().id().clone()?,
            });
        }
        validate_bodies(alloc, self.maps.all_templates())?;
        Ok(())
    }
}

// Returns the first link of a template without slots.
fn first_slotless<'a>(policies: Policies<'a>) -> Option<&'a Policy>
    ensures { option_copied result ≡ find is_slotless_link policies.entry }
{
    for policy in policies {
        if is_slotless_link(policy) {
            return Some(policy);
        }
    }
    None
}

fn is_slotless_link(policy: &Policy) -> bool
    ensures { result ≡ is_slotless_link policy.now }
{
    is_link(policy) && has_no_slots(policy.template())
}

// Returns an error for the first invalid body.
fn validate_bodies(alloc: Global, bodies: AllTemplates<'_>) -> Result<(), PolicySetValidationError>
    ensures ok { OnOk result (All IsValidBody bodies.entry) }
    ensures err { IfErr result (λ e. IsFirstFault e bodies.entry) }
{
    for template in bodies {
        validate_body(alloc, template)?;
    }
    Ok(())
}

// Returns an error if the body is invalid.
fn validate_body(alloc: Global, template: &Template) -> Result<(), PolicySetValidationError>
    ensures ok { OnOk result (IsValidBody template.now) }
    ensures err { IfErr result (λ e. IsBodyFault e template.now) }
{
    match template.clone()?.try_validate(alloc) {
        Ok(valid) => {
            drop(valid);
            Ok(())
        }
        Err(TemplateValidationError::Memory) => Err(PolicySetValidationError::Memory),
        Err(error) => {
            let id = template.id().clone()?;
            Err(PolicySetValidationError::InvalidTemplate { id, error })
        }
    }
}
