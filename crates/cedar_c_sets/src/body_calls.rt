//! The calls that add bodies from a caller's lists to a policy set.
ghost use Rattle.cedar_c_bodies.specs.Bodies.{input_of_lists};
ghost use Rattle.cedar_c_sets.specs.BodyCalls.{AddsStaticWith, AddsTemplateWith, static_step};
ghost use Rattle.cedar_c_sets.specs.Sets.{KeepsTexts, AppliesStep};

use crate::error_text::by_slot;
use crate::set_state::SetState;
use cedar_c_bodies::{BodyLists, template_of};
use cedar_c_lists::Reason;
use cedar_policy::{StaticPolicy, Template, UnexpectedSlotError};
use std::alloc::Global;
use std::hash::BuildHasher;

impl<S: BuildHasher + Copy> SetState<S> {
    // Adds a template as a static policy. Returns `NotStatic` if it has slots.
    fn insert_as_static(&mut self, alloc: Global, template: Template) -> Result<(), Reason>
        ensures makes { AppliesStep (static_step self.old.set template) result self.old self.new }
        ensures texts { KeepsTexts result self.old self.new }
    {
        if !template.is_static() {
            return Err(self.refuse(by_slot(alloc, &template)));
        }
        match StaticPolicy::try_from(template) {
            Ok(policy) => self.insert_static_body(alloc, policy),
            Err(UnexpectedSlotError::FoundSlot(_slot)) => unreachable!(),
            Err(UnexpectedSlotError::Memory) => unreachable!(),
        }
    }

    /// Adds a static policy with these bytes as its id, and with the effect, annotations, constraints and clause of the
    /// caller's lists.
    ///
    /// # Errors
    ///
    /// - The errors of `template_of`.
    /// - `NotStatic`: the body has a slot.
    /// - `Occupied`: the id is already in use.
    /// - `NoMemory`: an allocation failed.
    ///
    /// After an error the set is unchanged.
    pub fn add_static_with(
        &mut self,
        alloc: Global,
        id: &[u8],
        lists: BodyLists<'_>,
    ) -> Result<(), Reason>
        ensures { AddsStaticWith id.now (input_of_lists lists.entry) result self.old self.new }
    {
        let template = template_of(alloc, id, lists)?;
        self.insert_as_static(alloc, template)
    }

    /// Adds a template with these bytes as its id, from the caller's lists. It may have slots.
    ///
    /// # Errors
    ///
    /// - The errors of `template_of`.
    /// - `Occupied`: the id is already in use.
    /// - `NoMemory`: an allocation failed.
    ///
    /// After an error the set is unchanged.
    pub fn add_template_with(
        &mut self,
        alloc: Global,
        id: &[u8],
        lists: BodyLists<'_>,
    ) -> Result<(), Reason>
        ensures { AddsTemplateWith id.now (input_of_lists lists.entry) result self.old self.new }
    {
        let template = template_of(alloc, id, lists)?;
        self.insert_template_body(alloc, template)
    }
}
