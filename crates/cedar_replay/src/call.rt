//! The calls on a policy set, and their results.
use cedar_ids::policy_id::PolicyID;
use cedar_policy::{LinkingError, Policy, SlotEnv, StaticPolicy, Template};
use cedar_policy_set::{
    PolicySet, PolicySetError, PolicySetPolicyRemovalError, PolicySetTemplateRemovalError,
    PolicySetUnlinkError,
};
use indexmap::IndexMap;
use std::hash::{BuildHasher, BuildHasherDefault, FoldHasher};

/// A call on a policy set, with its arguments.
///
/// # Differences from cedar-policy-core
///
/// The original has no such type.
#[derive(Debug, Drop)]
pub enum PolicyCall<S: BuildHasher = BuildHasherDefault<FoldHasher>> {
    /// [`PolicySet::add_static`].
    AddStatic(StaticPolicy),
    /// [`PolicySet::add_template`].
    AddTemplate(Template),
    /// [`PolicySet::add`].
    Add(Policy),
    /// [`PolicySet::link`]: the id of the template, the new id and the bindings.
    Link(PolicyID, PolicyID, SlotEnv),
    /// [`PolicySet::unlink`].
    Unlink(PolicyID),
    /// [`PolicySet::remove_static`].
    RemoveStatic(PolicyID),
    /// [`PolicySet::remove_template`].
    RemoveTemplate(PolicyID),
    /// [`PolicySet::merge_policyset`]: the other set, and whether conflicting ids are renamed.
    Merge(PolicySet<S>, bool),
}

/// The result of a call on a policy set, in the variant of the call.
///
/// # Differences from cedar-policy-core
///
/// The original has no such type.
#[derive(Debug, Drop)]
pub enum Answer<S: BuildHasher = BuildHasherDefault<FoldHasher>> {
    /// The result of [`PolicyCall::AddStatic`].
    AddStatic(Result<(), PolicySetError>),
    /// The result of [`PolicyCall::AddTemplate`].
    AddTemplate(Result<(), PolicySetError>),
    /// The result of [`PolicyCall::Add`].
    Add(Result<(), PolicySetError>),
    /// The result of [`PolicyCall::Link`]. The link itself is in the set.
    Link(Result<(), LinkingError>),
    /// The result of [`PolicyCall::Unlink`]: the removed link.
    Unlink(Result<Policy, PolicySetUnlinkError>),
    /// The result of [`PolicyCall::RemoveStatic`]: the removed static policy.
    RemoveStatic(Result<Policy, PolicySetPolicyRemovalError>),
    /// The result of [`PolicyCall::RemoveTemplate`]: the removed template.
    RemoveTemplate(Result<Template, PolicySetTemplateRemovalError>),
    /// The result of [`PolicyCall::Merge`]: the renamed ids with their new ids, in order.
    Merge(Result<IndexMap<PolicyID, PolicyID, S>, PolicySetError>),
}
