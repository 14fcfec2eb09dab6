//! Small helper functions on policies and templates.
ghost use Rattle.std.specs.Prelude.{◌≡◌, is_some, All, IfOk};
ghost use Rattle.cedar_body.specs.Bodies.{body_slots};
ghost use Rattle.cedar_policy_maps.specs.Lists.{is_slotless};
ghost use Rattle.cedar_policy_maps.specs.laws.RawMaps.{IsWhole};

use cedar_ids::policy_id::PolicyID;
use cedar_policy::{Policy, Template};
use std::alloc::AllocError;
use std::rc::Rc;

/// Returns whether a policy is a link. Does not allocate.
#[tactic(auto, using(crate::proofs::Told::link_told))]
pub fn is_link(policy: &Policy) -> bool
    ensures { result ≡ is_some policy.now.link }
{
    !policy.is_static()
}

/// Returns whether a template has no slots. Does not allocate.
#[tactic(auto, using(crate::proofs::Told::slots_told))]
pub fn has_no_slots(template: &Template) -> bool
    ensures { result ≡ is_slotless (body_slots template.now) }
{
    template.is_static()
}

// Shares the template of a policy once more.
pub(crate) fn template_of(policy: &Policy) -> Result<Rc<Template>, AllocError>
    ensures { IfOk result (λ t. t.value ≡ policy.now.template) }
{
    policy.template_arc().clone()
}

// No effect at run time: calls accessors of a policy, whose contracts state its invariant.
fn read_policy(policy: &Policy)
    ensures { IsWhole policy.now }
{
    let _whole = policy.is_static();
    let _total = policy.env();
}

// No effect at run time: calls `read_policy` for each policy.
pub(crate) fn read_policies(policies: &[Policy])
    ensures { All IsWhole policies.now }
{
    for policy in policies {
        read_policy(policy);
    }
}
