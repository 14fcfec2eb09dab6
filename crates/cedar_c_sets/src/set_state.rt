//! A policy set with the last result texts for its caller, and its calls.
ghost use Rattle.std.specs.Prelude.{◌≡◌, [], IfOk, MatchResult};
ghost use Rattle.cedar_binding.specs.Views.{env_of};
ghost use Rattle.cedar_policy_set.specs.SetEquality.{same_policy_set};
ghost use Rattle.cedar_policy_maps.specs.PolicySets.{empty_set};
ghost use Rattle.cedar_policy_merge.specs.Merge.{body_ids, policy_ids};
ghost use Rattle.cedar_policy_set.specs.Refusals.{Steps, linking_error_of};
ghost use Rattle.cedar_policy_set.specs.Steps.{add_static_step, add_template_step, link_step, unlink_step};
ghost use Rattle.cedar_policy_set.specs.Steps.{remove_static_step, remove_template_step};
ghost use Rattle.cedar_c_sets.specs.Sets.{AddsStatic, AddsTemplate, CopiesSet, KeepsTexts, Links, ListsIds, AppliesStep};
ghost use Rattle.cedar_c_sets.specs.Sets.{MergesSet, RemovesById, renaming_texts, after_removal};
ghost use Rattle.cedar_c_lists.specs.declared.reason.Reason.TheVariants as reasons;

use crate::error_text::{
    ErrorText, by_linking, by_removal, by_set, by_template_removal, by_unlinking,
};
use crate::making::{bindings_of, slots_of, template};
use cedar_c_bodies::effect_of;
use cedar_c_lists::{Answer, Reason, Span, id_of};
use cedar_c_trees::Node;
use cedar_ids::policy_id::PolicyID;
use cedar_policy::{LinkingError, SlotEnv, StaticPolicy, Template};
use cedar_policy_lines::making::static_policy;
use cedar_policy_set::PolicySet;
use indexmap::IndexMap;
use std::alloc::{AllocError, Global};
use std::hash::BuildHasher;

/// A policy set, the texts of the last result, the nodes of the last expression, and the text of the last error.
///
/// The set, and the sets of its calls, hash ids with hashers of `S`. Contracts do not mention the builder. Generic code
/// cannot create a builder, so every set uses the builder of the caller.
#[derive(Drop)]
pub struct SetState<S: BuildHasher> {
    /// The policy set.
    pub set: PolicySet<S>,
    /// The texts of the last call that returned texts.
    pub answer: Answer,
    /// The nodes of the last clause or condition, over the text that was stored in `answer`.
    pub nodes: Vec<Node>,
    /// The text of the last error of a call on the set.
    pub refusal: Vec<u8>,
}

// Returns the ids of all bodies as texts.
fn body_texts<S: BuildHasher + Copy>(
    alloc: Global,
    set: &PolicySet<S>,
) -> Result<Answer, AllocError>
    ensures { IfOk result (λ a. a ≡ body_ids set.now) }
{
    let mut answer = Answer::new(alloc);
    for template in set.all_templates() {
        answer = answer.with(template.id().as_ref().as_bytes())?;
    }
    Ok(answer)
}

// Returns the ids of all policies as texts.
fn policy_texts<S: BuildHasher + Copy>(
    alloc: Global,
    set: &PolicySet<S>,
) -> Result<Answer, AllocError>
    ensures { IfOk result (λ a. a ≡ policy_ids set.now) }
{
    let mut answer = Answer::new(alloc);
    for policy in set.policies() {
        answer = answer.with(policy.id().as_ref().as_bytes())?;
    }
    Ok(answer)
}

// Returns a renaming as texts.
fn texts_of_renaming<S: BuildHasher>(
    alloc: Global,
    renaming: &IndexMap<PolicyID, PolicyID, S>,
) -> Result<Answer, AllocError>
    ensures { IfOk result (λ a. a ≡ renaming_texts renaming.now.entries) }
{
    let mut answer = Answer::new(alloc);
    for (old, new) in renaming {
        answer = answer.with(old.as_ref().as_bytes())?;
        answer = answer.with(new.as_ref().as_bytes())?;
    }
    Ok(answer)
}

// Links a template. Drops the returned policy.
fn link<S: BuildHasher + Copy>(
    alloc: Global,
    set: &mut PolicySet<S>,
    template: PolicyID,
    id: PolicyID,
    values: SlotEnv,
) -> Result<(), LinkingError>
    ensures { Steps linking_error_of result set.old set.new (link_step set.old template id (env_of values)) }
{
    set.link(alloc, template, id, values)?;
    Ok(())
}

impl<S: BuildHasher + Copy> SetState<S> {
    /// Creates the state for a set, with an empty `answer` and no last error. Does not allocate.
    pub fn of(alloc: Global, set: PolicySet<S>) -> SetState<S>
        ensures set { result.set ≡ set }
        ensures answer { result.answer ≡ [] }
        ensures nodes { result.nodes.items ≡ [] }
        ensures refusal { result.refusal.items ≡ [] }
    {
        SetState {
            set,
            answer: Answer::new(alloc),
            nodes: Vec::new(alloc),
            refusal: Vec::new(alloc),
        }
    }

    /// Creates an empty set that hashes ids with hashers of `hasher`. Does not allocate.
    pub fn new(alloc: Global, hasher: S) -> SetState<S>
        ensures set { result.set ≡ empty_set }
        ensures answer { result.answer ≡ [] }
        ensures nodes { result.nodes.items ≡ [] }
        ensures refusal { result.refusal.items ≡ [] }
    {
        SetState::of(alloc, PolicySet::with_hasher(alloc, hasher))
    }

    // Stores the text of an error and returns its reason. If the allocation of the text failed, the old text is kept.
    pub(crate) fn refuse(&mut self, told: Result<ErrorText, AllocError>) -> Reason
        ensures set { self.new.set ≡ self.old.set }
        ensures answer { self.new.answer ≡ self.old.answer }
        ensures nodes { self.new.nodes.items ≡ self.old.nodes.items }
        ensures told { MatchResult told
            (λ t. (result ≡ t.reason) × (self.new.refusal.items ≡ t.text.items))
            (λ _. (result ≡ reasons.NoMemory) × (self.new.refusal.items ≡ self.old.refusal.items)) }
    {
        match told {
            Ok(told) => {
                self.refusal = told.text;
                told.reason
            }
            Err(_want) => Reason::NoMemory,
        }
    }

    // Adds a static policy.
    pub(crate) fn insert_static_body(
        &mut self,
        alloc: Global,
        policy: StaticPolicy,
    ) -> Result<(), Reason>
        ensures makes { AppliesStep (add_static_step self.old.set policy) result self.old self.new }
        ensures texts { KeepsTexts result self.old self.new }
    {
        match self.set.add_static(alloc, policy) {
            Ok(()) => Ok(()),
            Err(error) => Err(self.refuse(by_set(alloc, &error))),
        }
    }

    // Adds a template.
    pub(crate) fn insert_template_body(
        &mut self,
        alloc: Global,
        template: Template,
    ) -> Result<(), Reason>
        ensures makes { AppliesStep (add_template_step self.old.set template) result self.old self.new }
        ensures texts { KeepsTexts result self.old self.new }
    {
        match self.set.add_template(alloc, template) {
            Ok(()) => Ok(()),
            Err(error) => Err(self.refuse(by_set(alloc, &error))),
        }
    }

    // Adds a link.
    fn insert_link_body(
        &mut self,
        alloc: Global,
        template: PolicyID,
        id: PolicyID,
        values: SlotEnv,
    ) -> Result<(), Reason>
        ensures makes { AppliesStep (link_step self.old.set template id (env_of values)) result self.old self.new }
        ensures texts { KeepsTexts result self.old self.new }
    {
        match link(alloc, &mut self.set, template, id, values) {
            Ok(()) => Ok(()),
            Err(error) => Err(self.refuse(by_linking(alloc, &error))),
        }
    }

    // Removes a link.
    fn remove_link_by_id(&mut self, alloc: Global, id: &PolicyID) -> Result<(), Reason>
        ensures makes { AppliesStep (after_removal self.old.set id.now (unlink_step self.old.set id.now)) result self.old self.new }
        ensures texts { KeepsTexts result self.old self.new }
    {
        match self.set.unlink(id) {
            Ok(_link) => Ok(()),
            Err(error) => Err(self.refuse(by_unlinking(alloc, &error))),
        }
    }

    // Removes a static policy.
    fn remove_static_by_id(&mut self, alloc: Global, id: &PolicyID) -> Result<(), Reason>
        ensures makes { AppliesStep (after_removal self.old.set id.now
            (remove_static_step self.old.set id.now)) result self.old self.new }
        ensures texts { KeepsTexts result self.old self.new }
    {
        match self.set.remove_static(id) {
            Ok(_policy) => Ok(()),
            Err(error) => Err(self.refuse(by_removal(alloc, &error))),
        }
    }

    // Removes a template.
    fn remove_template_by_id(&mut self, alloc: Global, id: &PolicyID) -> Result<(), Reason>
        ensures makes { AppliesStep (after_removal self.old.set id.now
            (remove_template_step self.old.set id.now)) result self.old self.new }
        ensures texts { KeepsTexts result self.old self.new }
    {
        match self.set.remove_template(id) {
            Ok(_template) => Ok(()),
            Err(error) => Err(self.refuse(by_template_removal(alloc, &error))),
        }
    }

    /// Adds a static policy without constraints, with these bytes as its id and the effect with this number.
    ///
    /// # Errors
    ///
    /// - `BadArgument`: the number of the effect is invalid.
    /// - `NotUtf8`: the id is not UTF-8.
    /// - `Occupied`: the id is already in use.
    /// - `NoMemory`: an allocation failed.
    ///
    /// After an error the set is unchanged.
    pub fn add_static(&mut self, alloc: Global, id: &[u8], effect: u32) -> Result<(), Reason>
        ensures { AddsStatic id.now effect result self.old self.new }
    {
        let effect = effect_of(effect)?;
        let id = id_of(alloc, id)?;
        let policy = static_policy(alloc, id, effect)?;
        self.insert_static_body(alloc, policy)
    }

    /// Adds a template with these bytes as its id, the effect with a number, and the slots with a number. It has no
    /// other constraints.
    ///
    /// # Errors
    ///
    /// - `BadArgument`: the number of the effect or of the slots is invalid.
    /// - `NotUtf8`: the id is not UTF-8.
    /// - `Occupied`: the id is already in use.
    /// - `NoMemory`: an allocation failed.
    ///
    /// After an error the set is unchanged.
    pub fn add_template(
        &mut self,
        alloc: Global,
        id: &[u8],
        effect: u32,
        slots: u32,
    ) -> Result<(), Reason>
        ensures { AddsTemplate id.now effect slots result self.old self.new }
    {
        let effect = effect_of(effect)?;
        let slots = slots_of(slots)?;
        let id = id_of(alloc, id)?;
        let template = template(alloc, id, effect, slots)?;
        self.insert_template_body(alloc, template)
    }

    /// Links the template with an id. The link gets another id, and the bindings in three parts of a text: principal,
    /// action and resource. An empty part binds nothing.
    ///
    /// # Errors
    ///
    /// - `BadArgument`: there are not three spans, or a span is not within the text.
    /// - `NotAUid`: a part is not the text of a uid.
    /// - `NotUtf8`: an id is not UTF-8.
    /// - `NoSuchTemplate`: there is no template with the id.
    /// - `Arity`: the bindings do not match the slots of the template.
    /// - `NotAnAction`: the slot of the action is bound to a uid that is not an action.
    /// - `IdConflict`: the id of the link is already in use.
    /// - `NoMemory`: an allocation failed.
    ///
    /// After an error the set is unchanged.
    pub fn link(
        &mut self,
        alloc: Global,
        template: &[u8],
        id: &[u8],
        text: &[u8],
        values: &[Span],
    ) -> Result<(), Reason>
        ensures { Links template.now id.now text.now values.now result self.old self.new }
    {
        let template = id_of(alloc, template)?;
        let id = id_of(alloc, id)?;
        let values = bindings_of(alloc, text, values)?;
        self.insert_link_body(alloc, template, id, values)
    }

    /// Removes the link with an id.
    ///
    /// # Errors
    ///
    /// - `NotUtf8`: the id is not UTF-8.
    /// - `NoLink`: the id is not in use.
    /// - `NotALink`: the id is not the id of a link.
    /// - `NoMemory`: an allocation failed.
    ///
    /// After an error the set is unchanged.
    pub fn unlink(&mut self, alloc: Global, id: &[u8]) -> Result<(), Reason>
        ensures { RemovesById unlink_step id.now result self.old self.new }
    {
        let id = id_of(alloc, id)?;
        self.remove_link_by_id(alloc, &id)
    }

    /// Removes the static policy with an id.
    ///
    /// # Errors
    ///
    /// - `NotUtf8`: the id is not UTF-8.
    /// - `NoStatic`: there is no policy with the id.
    /// - `NotStatic`: the id is the id of a link.
    /// - `NoMemory`: an allocation failed.
    ///
    /// After an error the set is unchanged.
    pub fn remove_static(&mut self, alloc: Global, id: &[u8]) -> Result<(), Reason>
        ensures { RemovesById remove_static_step id.now result self.old self.new }
    {
        let id = id_of(alloc, id)?;
        self.remove_static_by_id(alloc, &id)
    }

    /// Removes the template with an id. Copies the template.
    ///
    /// # Errors
    ///
    /// - `NotUtf8`: the id is not UTF-8.
    /// - `NoTemplate`: the id is not in use.
    /// - `WithLinks`: the template has links.
    /// - `NotATemplate`: the id is not the id of a template.
    /// - `NoMemory`: an allocation failed.
    ///
    /// After an error the set is unchanged.
    pub fn remove_template(&mut self, alloc: Global, id: &[u8]) -> Result<(), Reason>
        ensures { RemovesById remove_template_step id.now result self.old self.new }
    {
        let id = id_of(alloc, id)?;
        self.remove_template_by_id(alloc, &id)
    }

    /// Merges another set into this one, as `PolicySet::merge_policyset` does. Stores each renamed id, followed by its
    /// new id, in `answer`. The merge is made on a copy of this set, because it can fail.
    ///
    /// # Errors
    ///
    /// - `Occupied`: both sets use an id differently, and `rename` is false.
    /// - `NoMemory`: an allocation failed.
    ///
    /// After an error the set is unchanged.
    pub fn merge(&mut self, alloc: Global, other: &SetState<S>, rename: bool) -> Result<(), Reason>
        ensures { MergesSet other.now.set rename result self.old self.new }
    {
        let mut set = self.set.clone()?;
        match set.merge_policyset(alloc, &other.set, rename) {
            Ok(renaming) => {
                self.answer = texts_of_renaming(alloc, &renaming)?;
                self.set = set;
                Ok(())
            }
            Err(error) => Err(self.refuse(by_set(alloc, &error))),
        }
    }

    /// Stores the ids of the bodies (`kind` 0) or of the policies (`kind` 1) in `answer`, in order.
    ///
    /// # Errors
    ///
    /// - `BadArgument`: the number of the kind is invalid.
    /// - `NoMemory`: an allocation failed.
    ///
    /// After an error nothing has changed.
    pub fn ids(&mut self, alloc: Global, kind: u32) -> Result<(), Reason>
        ensures { ListsIds kind result self.old self.new }
    {
        match kind {
            0 => {
                self.answer = body_texts(alloc, &self.set)?;
                Ok(())
            }
            1 => {
                self.answer = policy_texts(alloc, &self.set)?;
                Ok(())
            }
            _ => Err(Reason::BadArgument),
        }
    }

    /// Returns a copy, with an empty `answer` and no last error.
    ///
    /// # Errors
    ///
    /// Returns `NoMemory` if an allocation fails.
    pub fn copy(&self, alloc: Global) -> Result<SetState<S>, Reason>
        ensures { CopiesSet self.now.set result }
    {
        let set = self.set.clone()?;
        Ok(SetState::of(alloc, set))
    }

    /// Returns whether both sets have equal bodies and policies in the same orders. Does not allocate.
    pub fn is_equal(&self, other: &SetState<S>) -> bool
        ensures { result ≡ same_policy_set self.now.set other.now.set }
    {
        self.set == other.set
    }
}
