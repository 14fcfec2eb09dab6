//! Lookups of bodies and policies in order. A lookup first tries the place after the last one found, because two sets
//! mostly have the same order. The place of the next entry is in the map.
ghost use Rattle.std.specs.Prelude.{◌≡◌, IfSome, Some};
ghost use Rattle.std.specs.List.{find, list_any};
ghost use Rattle.std.specs.Option.{option_copied};
ghost use Rattle.cedar_body.specs.Bodies.{BodyParts};
ghost use Rattle.cedar_policy_maps.specs.PolicySets.{AreOnce, is_body_at, is_policy_at};
ghost use Rattle.cedar_policy_maps.specs.Views.{bodies_of};

use cedar_ids::policy_id::PolicyID;
use cedar_policy::{Policy, Template};
use cedar_policy_maps::PolicyMaps;
use std::hash::BuildHasher;
use std::rc::Rc;

// The places to try first: for a body and a policy of this set, and for a policy of the other set.
#[derive(Drop)]
pub(crate) struct Places {
    pub(crate) body: usize,
    pub(crate) policy: usize,
    pub(crate) other: usize,
}

// Returns the body with this id, and moves the place behind it.
pub(crate) fn body_at<'a, S: BuildHasher + Copy>(
    maps: &'a PolicyMaps<S>,
    id: &PolicyID,
    next: &mut usize,
) -> Option<&'a Template>
    ensures { option_copied result ≡ find (is_body_at id.now) maps.now.bodies }
{
    match maps.body_near(id, next) {
        None => None,
        Some(template) => Some(&**template),
    }
}

// Returns whether a body has this id, and moves the place behind it.
#[tactic(auto, using(crate::specs::laws::LookedAtLaws::found_any))]
pub(crate) fn has_body<S: BuildHasher + Copy>(
    maps: &PolicyMaps<S>,
    id: &PolicyID,
    next: &mut usize,
) -> bool
    ensures { result ≡ list_any (is_body_at id.now) maps.now.bodies }
{
    body_at(maps, id, next).is_some()
}

// Returns the policy with this id, and moves the place behind it.
pub(crate) fn policy_at<'a, S: BuildHasher + Copy>(
    maps: &'a PolicyMaps<S>,
    id: &PolicyID,
    next: &mut usize,
) -> Option<&'a Policy>
    ensures { option_copied result ≡ find (is_policy_at id.now) maps.now.policies }
{
    match maps.policy_near(id, next) {
        None => None,
        Some((_, policy)) => Some(policy),
    }
}

// Returns whether a policy has this id, and moves the place behind it.
#[tactic(auto, using(crate::specs::laws::LookedAtLaws::found_any))]
pub(crate) fn has_policy<S: BuildHasher + Copy>(
    maps: &PolicyMaps<S>,
    id: &PolicyID,
    next: &mut usize,
) -> bool
    ensures { result ≡ list_any (is_policy_at id.now) maps.now.policies }
{
    policy_at(maps, id, next).is_some()
}

// Returns the body with this id from the index `*next` on, if there is one. `*next` is then the index after it, and
// otherwise the end of the list.
pub(crate) fn new_body_at<'a>(
    joined: &'a [Rc<Template>],
    id: &PolicyID,
    next: &mut usize,
) -> Option<&'a Rc<Template>>
    requires { AreOnce (λ (t : BodyParts). t.id) (bodies_of joined.now) }
    ensures { IfSome result (λ t. find (is_body_at id.now) (bodies_of joined.now) ≡ Some t.now.value) }
{
    while *next < joined.len() {
        let template = &joined[*next];
        *next += 1;
        if template.id() == id {
            return Some(template);
        }
    }
    None
}
