//! The call that validates a policy set.
ghost use Rattle.std.specs.Prelude.{IfOk};
ghost use Rattle.cedar_c_sets.specs.Validity.{IsFaultReported, NamesFault, Validates, fault_reason};

use crate::error_text::{ErrorText, named};
use crate::set_state::SetState;
use cedar_c_lists::Reason;
use cedar_ids::policy_id::PolicyID;
use cedar_policy::TemplateValidationError;
use cedar_policy_set::PolicySetValidationError;
use std::alloc::{AllocError, Global};
use std::hash::BuildHasher;

// Returns the error of an invalid body, with its id. `SlotCacheMismatch` never occurs, and has the reason of the other
// error on slots.
fn by_body(
    alloc: Global,
    id: &PolicyID,
    error: &TemplateValidationError,
) -> Result<ErrorText, AllocError>
    ensures { IfOk result (λ t. NamesFault (fault_reason error.now) id.now t.reason t.text.items) }
{
    match error {
        TemplateValidationError::SlotsInConditionClause(_slot) => {
            named(alloc, Reason::SlotInClause, id.as_ref())
        }
        TemplateValidationError::SlotCacheMismatch => {
            named(alloc, Reason::SlotInClause, id.as_ref())
        }
        TemplateValidationError::InvalidActionType(_uids) => {
            named(alloc, Reason::NotActions, id.as_ref())
        }
        TemplateValidationError::InvalidExpression(_error) => {
            named(alloc, Reason::UnknownFunction, id.as_ref())
        }
        TemplateValidationError::Memory => Err(AllocError),
    }
}

// Returns the error of an invalid set.
fn by_fault(alloc: Global, error: &PolicySetValidationError) -> Result<ErrorText, AllocError>
    ensures { IfOk result (λ t. IsFaultReported error.now t.reason t.text.items) }
{
    match error {
        PolicySetValidationError::LinkToSlotlessTemplate { link_id, .. } => {
            named(alloc, Reason::SlotlessLink, link_id.as_ref())
        }
        PolicySetValidationError::InvalidTemplate { id, error } => by_body(alloc, id, error),
        PolicySetValidationError::Memory => Err(AllocError),
    }
}

impl<S: BuildHasher + Copy> SetState<S> {
    /// Validates a copy of the set, as `PolicySet::try_validate` does. `answer` and `nodes` do not change.
    ///
    /// # Errors
    ///
    /// The first fault determines the error. Links are checked before bodies, each in order.
    ///
    /// - `SlotlessLink`: a link has a template without slots. The error names the link.
    /// - `SlotInClause`: the clause of a body has a slot. The error names the body, as the next two do.
    /// - `NotActions`: the action constraint of a body has a uid that is not an action.
    /// - `UnknownFunction`: the clause of a body calls an unknown function.
    /// - `NoMemory`: an allocation failed. Copies of the set and of each body are allocated.
    ///
    /// After an error the set is unchanged.
    pub fn validate(&mut self, alloc: Global) -> Result<(), Reason>
        ensures { Validates result self.old self.new }
    {
        let copy = self.set.clone()?;
        match copy.try_validate(alloc) {
            Ok(_valid) => Ok(()),
            Err(error) => Err(self.refuse(by_fault(alloc, &error))),
        }
    }
}
