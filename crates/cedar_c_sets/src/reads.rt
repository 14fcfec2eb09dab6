//! The calls that read a policy set: the kind of an id, and the texts of policies and of the set.
ghost use Rattle.std.specs.Prelude.{◌≡◌, [], ◌∷◌, IfOk};
ghost use Rattle.std.specs.List.{flat_map};
ghost use Rattle.std.specs.Option.{option_copied};
ghost use Rattle.std.specs.String.{string_bytes};
ghost use Rattle.cedar_ids.specs.UidOf.{uid_parts};
ghost use Rattle.cedar_binding.specs.Bindings.{is_listed_id};
ghost use Rattle.cedar_binding.specs.Views.{env_of};
ghost use Rattle.cedar_body.specs.Bodies.{body_slots};
ghost use Rattle.cedar_policy_maps.specs.PolicySets.{bound_at};
ghost use Rattle.cedar_c_sets.specs.Reads.{AnswersAnnotation, AnswersAt, AnswersLinked, AnswersText, AreAnnotations};
ghost use Rattle.cedar_c_sets.specs.Reads.{AreBoundBy, AreBoundIn, ReadsAt, IsBodyText, IsBoundText, IsEffectOf};
ghost use Rattle.cedar_c_sets.specs.Reads.{IsPolicyText, IsSlotsOf, IsTemplateId, KindAt, body_at};
ghost use Rattle.cedar_c_sets.specs.Reads.{bound_body, kind_number, policy_at};
ghost use Rattle.cedar_c_bodies.specs.Bodies.{IsEffect};
ghost use Rattle.cedar_c_sets.specs.Sets.{IsSlots, pair_of};

use crate::set_state::SetState;
use cedar_annotation::annotation::Iter;
use cedar_binding::bound_to;
use cedar_body::Effect;
use cedar_c_bodies::key_of;
use cedar_c_lists::{Answer, Reason, id_of};
use cedar_ids::policy_id::PolicyID;
use cedar_policy::{SlotEnv, Template};
use cedar_policy_set::{LinkedIds, PolicySet, PolicySetGetLinksError};
use cedar_terms::slot::SlotId;
use std::alloc::{AllocError, Global};
use std::hash::BuildHasher;

// Returns the number of the kind of an id.
fn kind<S: BuildHasher + Copy>(set: &PolicySet<S>, id: &PolicyID) -> u32
    ensures { result ≡ kind_number (bound_at set.now id.now) }
{
    match set.get(id) {
        Some(policy) => { if policy.is_static() { 1 } else { 2 } }
        None => match set.get_template(id) {
            Some(_template) => 3,
            None => 0,
        },
    }
}

// Returns the body of the policy or template with an id.
pub(crate) fn body_of<'a, S: BuildHasher + Copy>(
    set: &'a PolicySet<S>,
    id: &PolicyID,
) -> Option<&'a Template>
    ensures { option_copied result ≡ bound_body set.now id.now }
{
    match set.get(id) {
        Some(policy) => Some(policy.template()),
        None => set.get_template(id),
    }
}

// Returns the number of an effect.
fn effect_number(effect: Effect) -> u32
    ensures { IsEffect result effect }
{
    match effect {
        Effect::Permit => 0,
        Effect::Forbid => 1,
    }
}

// Checks whether a template has a slot.
fn has_slot(template: &Template, id: SlotId) -> bool
    ensures { result ≡ is_listed_id (body_slots template.now) id }
{
    for slot in template.slots() {
        if id == slot.id {
            return true;
        }
    }
    false
}

// Returns the number of slots.
fn slots_number(principal: bool, action: bool, resource: bool) -> u32
    ensures { IsSlots result (record { principal = principal; action = action; resource = resource }) }
{
    match (principal, action, resource) {
        (false, false, false) => 0,
        (true, false, false) => 1,
        (false, true, false) => 2,
        (true, true, false) => 3,
        (false, false, true) => 4,
        (true, false, true) => 5,
        (false, true, true) => 6,
        (true, true, true) => 7,
    }
}

// Returns the number of a template's slots.
fn slots_of(template: &Template) -> u32
    ensures { IsSlotsOf result template.now }
{
    let principal = has_slot(template, SlotId::Principal);
    let action = has_slot(template, SlotId::Action);
    let resource = has_slot(template, SlotId::Resource);
    slots_number(principal, action, resource)
}

// Returns a list with one text.
fn one_text(alloc: Global, text: &str) -> Result<Answer, AllocError>
    ensures { IfOk result (λ a. a ≡ text.now ∷ []) }
{
    Answer::new(alloc).with(text.as_bytes())
}

// Returns annotations as texts.
fn texts_of_annotations(alloc: Global, annotations: Iter<'_>) -> Result<Answer, AllocError>
    ensures { IfOk result (λ a. a ≡ flat_map pair_of annotations.entry) }
{
    let mut answer = Answer::new(alloc);
    for (key, annotation) in annotations {
        answer = answer.with(key.as_ref().as_bytes())?;
        answer = answer.with(annotation.as_ref().as_bytes())?;
    }
    Ok(answer)
}

// Returns ids as texts.
fn texts_of_ids(alloc: Global, ids: LinkedIds<'_>) -> Result<Answer, AllocError>
    ensures { IfOk result (λ a. a ≡ ids.entry) }
{
    let mut answer = Answer::new(alloc);
    for id in ids {
        answer = answer.with(id.as_ref().as_bytes())?;
    }
    Ok(answer)
}

// Returns the text of the uid bound to a slot, or an empty text.
fn bound_text(alloc: Global, values: &SlotEnv, id: SlotId) -> Result<String, AllocError>
    ensures { IfOk result (λ t. IsBoundText (env_of values.now id) (string_bytes t)) }
{
    match bound_to(values, id) {
        None => Ok(String::new(alloc)),
        Some(uid) => uid.to_string(alloc),
    }
}

// Returns the texts of the uids bound to the three slots.
fn texts_of_bindings(alloc: Global, values: &SlotEnv) -> Result<Answer, AllocError>
    ensures { IfOk result (AreBoundBy (env_of values.now)) }
{
    let principal = bound_text(alloc, values, SlotId::Principal)?;
    let action = bound_text(alloc, values, SlotId::Action)?;
    let resource = bound_text(alloc, values, SlotId::Resource)?;
    let answer = Answer::new(alloc).with(principal.as_bytes())?;
    let answer = answer.with(action.as_bytes())?;
    answer.with(resource.as_bytes())
}

impl<S: BuildHasher + Copy> SetState<S> {
    /// Returns the kind of an id: 1 for a static policy, 2 for a link, 3 for a template, and 0 if the id is not in use.
    ///
    /// # Errors
    ///
    /// - `NotUtf8`: the id is not UTF-8.
    /// - `NoMemory`: an allocation failed.
    pub fn kind(&self, alloc: Global, id: &[u8]) -> Result<u32, Reason>
        ensures { KindAt self.now.set id.now result }
    {
        let id = id_of(alloc, id)?;
        Ok(kind(&self.set, &id))
    }

    /// Returns the effect of the policy or template with an id: 0 is permit, 1 is forbid.
    ///
    /// # Errors
    ///
    /// - `NotUtf8`: the id is not UTF-8.
    /// - `NoBody`: the id is not in use.
    /// - `NoMemory`: an allocation failed.
    pub fn effect(&self, alloc: Global, id: &[u8]) -> Result<u32, Reason>
        ensures { ReadsAt bound_body IsEffectOf self.now.set id.now result }
    {
        let id = id_of(alloc, id)?;
        match body_of(&self.set, &id) {
            None => Err(Reason::NoBody),
            Some(body) => Ok(effect_number(body.effect())),
        }
    }

    /// Returns the slots of the static policy or the template with an id, as a sum: 1 for the principal, 2 for the
    /// action, 4 for the resource.
    ///
    /// # Errors
    ///
    /// - `NotUtf8`: the id is not UTF-8.
    /// - `NoBody`: there is no static policy and no template with the id.
    /// - `NoMemory`: an allocation failed.
    pub fn slots(&self, alloc: Global, id: &[u8]) -> Result<u32, Reason>
        ensures { ReadsAt body_at IsSlotsOf self.now.set id.now result }
    {
        let id = id_of(alloc, id)?;
        match self.set.get_template(&id) {
            None => Err(Reason::NoBody),
            Some(template) => Ok(slots_of(template)),
        }
    }

    /// Returns whether the policy or template with an id has an annotation with a key. Stores its value in `answer`,
    /// which becomes empty if there is none.
    ///
    /// # Errors
    ///
    /// - `NotUtf8`: the id is not UTF-8.
    /// - `NotAName`: the key is not an identifier.
    /// - `NoBody`: the id is not in use.
    /// - `NoMemory`: an allocation failed.
    ///
    /// After an error nothing has changed.
    pub fn annotation(&mut self, alloc: Global, id: &[u8], key: &[u8]) -> Result<bool, Reason>
        ensures { AnswersAnnotation id.now key.now result self.old self.new }
    {
        let id = id_of(alloc, id)?;
        let key = key_of(alloc, key)?;
        let Some(body) = body_of(&self.set, &id) else {
            return Err(Reason::NoBody);
        };
        match body.annotation(&key) {
            None => {
                self.answer = Answer::new(alloc);
                Ok(false)
            }
            Some(annotation) => {
                self.answer = one_text(alloc, annotation.as_ref())?;
                Ok(true)
            }
        }
    }

    /// Stores the annotations of the policy or template with an id in `answer`, in order of key: each key, followed by
    /// its value.
    ///
    /// # Errors
    ///
    /// - `NotUtf8`: the id is not UTF-8.
    /// - `NoBody`: the id is not in use.
    /// - `NoMemory`: an allocation failed.
    ///
    /// After an error nothing has changed.
    pub fn annotations(&mut self, alloc: Global, id: &[u8]) -> Result<(), Reason>
        ensures { AnswersAt bound_body AreAnnotations id.now result self.old self.new }
    {
        let id = id_of(alloc, id)?;
        let answer = match body_of(&self.set, &id) {
            None => return Err(Reason::NoBody),
            Some(body) => texts_of_annotations(alloc, body.annotations())?,
        };
        self.answer = answer;
        Ok(())
    }

    /// Stores the bindings of the policy with an id in `answer`: three texts, for principal, action and resource. A
    /// text is empty if its slot is not bound.
    ///
    /// # Errors
    ///
    /// - `NotUtf8`: the id is not UTF-8.
    /// - `NoBody`: there is no policy with the id.
    /// - `NoMemory`: an allocation failed.
    ///
    /// After an error nothing has changed.
    pub fn env(&mut self, alloc: Global, id: &[u8]) -> Result<(), Reason>
        ensures { AnswersAt policy_at AreBoundIn id.now result self.old self.new }
    {
        let id = id_of(alloc, id)?;
        let answer = match self.set.get(&id) {
            None => return Err(Reason::NoBody),
            Some(policy) => texts_of_bindings(alloc, policy.env())?,
        };
        self.answer = answer;
        Ok(())
    }

    /// Stores the id of the template of the policy with an id in `answer`. For a static policy it is its own id.
    ///
    /// # Errors
    ///
    /// - `NotUtf8`: the id is not UTF-8.
    /// - `NoBody`: there is no policy with the id.
    /// - `NoMemory`: an allocation failed.
    ///
    /// After an error nothing has changed.
    pub fn template_id(&mut self, alloc: Global, id: &[u8]) -> Result<(), Reason>
        ensures { AnswersAt policy_at IsTemplateId id.now result self.old self.new }
    {
        let id = id_of(alloc, id)?;
        let answer = match self.set.get(&id) {
            None => return Err(Reason::NoBody),
            Some(policy) => one_text(alloc, policy.template().id().as_ref())?,
        };
        self.answer = answer;
        Ok(())
    }

    /// Stores the ids of the policies that use the body with an id in `answer`, in insertion order. They are the links
    /// of a template, or the static policy itself.
    ///
    /// # Errors
    ///
    /// - `NotUtf8`: the id is not UTF-8.
    /// - `NoBody`: there is no body with the id.
    /// - `NoMemory`: an allocation failed.
    ///
    /// After an error nothing has changed.
    pub fn linked(&mut self, alloc: Global, id: &[u8]) -> Result<(), Reason>
        ensures { AnswersLinked id.now result self.old self.new }
    {
        let id = id_of(alloc, id)?;
        let answer = match self.set.get_linked_policies(&id) {
            Err(PolicySetGetLinksError::Memory) => return Err(Reason::NoMemory),
            Err(PolicySetGetLinksError::MissingTemplate(_id)) => return Err(Reason::NoBody),
            Ok(ids) => texts_of_ids(alloc, ids)?,
        };
        self.answer = answer;
        Ok(())
    }

    /// Stores the text of the set, from its `Display`, in `answer`.
    ///
    /// # Errors
    ///
    /// Returns `NoMemory` if an allocation fails, and then changes nothing.
    pub fn text(&mut self, alloc: Global) -> Result<(), Reason>
        ensures { AnswersText result self.old self.new }
    {
        let text = self.set.to_string(alloc)?;
        self.answer = one_text(alloc, &text)?;
        Ok(())
    }

    /// Stores the text of the policy with an id, from its `Display`, in `answer`.
    ///
    /// # Errors
    ///
    /// - `NotUtf8`: the id is not UTF-8.
    /// - `NoBody`: there is no policy with the id.
    /// - `NoMemory`: an allocation failed.
    ///
    /// After an error nothing has changed.
    pub fn policy_text(&mut self, alloc: Global, id: &[u8]) -> Result<(), Reason>
        ensures { AnswersAt policy_at IsPolicyText id.now result self.old self.new }
    {
        let id = id_of(alloc, id)?;
        let text = match self.set.get(&id) {
            None => return Err(Reason::NoBody),
            Some(policy) => policy.to_string(alloc)?,
        };
        self.answer = one_text(alloc, &text)?;
        Ok(())
    }

    /// Stores the text of the static policy or the template with an id, from its `Display`, in `answer`.
    ///
    /// # Errors
    ///
    /// - `NotUtf8`: the id is not UTF-8.
    /// - `NoBody`: there is no static policy and no template with the id.
    /// - `NoMemory`: an allocation failed.
    ///
    /// After an error nothing has changed.
    pub fn template_text(&mut self, alloc: Global, id: &[u8]) -> Result<(), Reason>
        ensures { AnswersAt body_at IsBodyText id.now result self.old self.new }
    {
        let id = id_of(alloc, id)?;
        let text = match self.set.get_template(&id) {
            None => return Err(Reason::NoBody),
            Some(template) => template.to_string(alloc)?,
        };
        self.answer = one_text(alloc, &text)?;
        Ok(())
    }
}
