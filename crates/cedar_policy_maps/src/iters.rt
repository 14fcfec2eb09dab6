//! The iterators of a policy set. Contracts see each as the list of its remaining items.
ghost use Rattle.std.specs.Prelude.{◌≡◌, ◌∷◌, []};
ghost use Rattle.std.specs.Iterator.{YieldsFirst, YieldsFirstBy, YieldsFirstRef, item_count};
ghost use Rattle.std.specs.Map.{values_of};
ghost use Rattle.cedar_policy_maps.specs.Views.{bodies_of, ids_left};
ghost use Rattle.cedar_policy_maps.specs.Lists.{slotted_in, statics_in};

use crate::lists::{has_no_slots, is_link};
use cedar_ids::policy_id::PolicyID;
use cedar_linked_map::{IntoValues, Keys, LinkedMap, Values};
use cedar_policy::{Policy, Template};
use std::hash::{BuildHasher, BuildHasherDefault, FoldHasher};
use std::marker::Model;
use std::rc::Rc;

/// An iterator over the policies of a set, static policies and links, in insertion order.
#[derive(Drop)]
pub struct Policies<'a> {
    inner: Values<'a, PolicyID, Policy>,
}

impl<'a> Model for Policies<'a> {
    ghost use Rattle.std.specs.Prelude.{List};
    ghost use Rattle.std.specs.Coded.{coded_list};
    ghost use Rattle.cedar_policy.specs.Codes.{policy_code};
    ghost use Rattle.cedar_policy.specs.Policies.{PolicyParts};

    ghost Value = { List PolicyParts };

    ghost coded = { coded_list policy_code };

    ghost view = { λ s. s.inner };
}

impl<'a> Policies<'a> {
    pub(crate) fn of(inner: Values<'a, PolicyID, Policy>) -> Policies<'a>
        ensures { result ≡ inner.entry }
    {
        Policies { inner }
    }
}

impl<'a> Iterator for Policies<'a> {
    type Item = &'a Policy;

    ghost next_gives = { YieldsFirstRef (λ s. s) };

    ghost remaining = { item_count (λ s. s) };

    fn next(&mut self) -> Option<&'a Policy> {
        self.inner.next()
    }
}

/// An owning iterator over the policies of a set, in insertion order.
#[derive(Drop)]
pub struct IntoPolicies<S: BuildHasher = BuildHasherDefault<FoldHasher>> {
    inner: IntoValues<PolicyID, Policy, S>,
}

impl<S: BuildHasher> Model for IntoPolicies<S> {
    ghost use Rattle.std.specs.Prelude.{List};
    ghost use Rattle.std.specs.Coded.{coded_list};
    ghost use Rattle.cedar_policy.specs.Codes.{policy_code};
    ghost use Rattle.cedar_policy.specs.Policies.{PolicyParts};

    ghost Value = { List PolicyParts };

    ghost coded = { coded_list policy_code };

    ghost view = { λ s. s.inner };
}

impl<S: BuildHasher> IntoPolicies<S> {
    pub(crate) fn of(links: LinkedMap<PolicyID, Policy, S>) -> IntoPolicies<S>
        ensures { result ≡ values_of links.entries }
    {
        IntoPolicies {
            inner: links.into_values(),
        }
    }
}

impl<S: BuildHasher + Drop> Iterator for IntoPolicies<S> {
    type Item = Policy;

    ghost next_gives = { YieldsFirst (λ s. s) };

    ghost remaining = { item_count (λ s. s) };

    fn next(&mut self) -> Option<Policy> {
        self.inner.next()
    }
}

/// An iterator over the shared bodies of a set, of static policies and of templates, in insertion order.
#[derive(Drop)]
pub struct SharedBodies<'a> {
    inner: Values<'a, PolicyID, Rc<Template>>,
}

impl<'a> Model for SharedBodies<'a> {
    ghost use Rattle.std.specs.Prelude.{List};
    ghost use Rattle.std.specs.Coded.{coded_list};
    ghost use Rattle.cedar_body.specs.Bodies.{BodyParts};
    ghost use Rattle.cedar_body.specs.Codes.{body_code};
    ghost use Rattle.cedar_policy_maps.specs.Views.{bodies_of};

    ghost Value = { List BodyParts };

    ghost coded = { coded_list body_code };

    ghost view = { λ s. bodies_of s.inner };
}

impl<'a> SharedBodies<'a> {
    pub(crate) fn of(inner: Values<'a, PolicyID, Rc<Template>>) -> SharedBodies<'a>
        ensures { result ≡ bodies_of inner.entry }
    {
        SharedBodies { inner }
    }
}

impl<'a> Iterator for SharedBodies<'a> {
    type Item = &'a Rc<Template>;

    ghost next_gives = { YieldsFirstBy (λ t. t.now.value) (λ s. s) };

    ghost remaining = { item_count (λ s. s) };

    fn next(&mut self) -> Option<&'a Rc<Template>> {
        self.inner.next()
    }
}

/// An iterator over the bodies of a set, of static policies and of templates, in insertion order.
#[derive(Drop)]
pub struct AllTemplates<'a> {
    inner: SharedBodies<'a>,
}

impl<'a> Model for AllTemplates<'a> {
    ghost use Rattle.std.specs.Prelude.{List};
    ghost use Rattle.std.specs.Coded.{coded_list};
    ghost use Rattle.cedar_body.specs.Bodies.{BodyParts};
    ghost use Rattle.cedar_body.specs.Codes.{body_code};

    ghost Value = { List BodyParts };

    ghost coded = { coded_list body_code };

    ghost view = { λ s. s.inner };
}

impl<'a> AllTemplates<'a> {
    pub(crate) fn of(inner: SharedBodies<'a>) -> AllTemplates<'a>
        ensures { result ≡ inner.entry }
    {
        AllTemplates { inner }
    }
}

impl<'a> Iterator for AllTemplates<'a> {
    type Item = &'a Template;

    ghost next_gives = { YieldsFirstRef (λ s. s) };

    ghost remaining = { item_count (λ s. s) };

    fn next(&mut self) -> Option<&'a Template> {
        match self.inner.next() {
            None => None,
            Some(template) => Some(&**template),
        }
    }
}

/// An iterator over the bodies of a set that have slots, in insertion order.
#[derive(Drop)]
pub struct Templates<'a> {
    inner: AllTemplates<'a>,
}

impl<'a> Model for Templates<'a> {
    ghost use Rattle.std.specs.Prelude.{List};
    ghost use Rattle.std.specs.Coded.{coded_list};
    ghost use Rattle.cedar_body.specs.Bodies.{BodyParts};
    ghost use Rattle.cedar_body.specs.Codes.{body_code};
    ghost use Rattle.cedar_policy_maps.specs.Lists.{slotted_in};

    ghost Value = { List BodyParts };

    ghost coded = { coded_list body_code };

    ghost view = { λ s. slotted_in s.inner };
}

impl<'a> Templates<'a> {
    pub(crate) fn of(bodies: SharedBodies<'a>) -> Templates<'a>
        ensures { result ≡ slotted_in bodies.entry }
    {
        Templates {
            inner: AllTemplates::of(bodies),
        }
    }
}

impl<'a> Iterator for Templates<'a> {
    type Item = &'a Template;

    ghost next_gives = { YieldsFirstRef (λ s. s) };

    ghost remaining = { item_count (λ s. s) };

    fn next(&mut self) -> Option<&'a Template> {
        next_slotted(&mut self.inner)
    }
}

// Returns the next body that has slots.
fn next_slotted<'a>(inner: &mut AllTemplates<'a>) -> Option<&'a Template>
    ensures { YieldsFirstBy (λ t. t.now) slotted_in inner.old result inner.new }
{
    loop {
        match inner.next() {
            None => return None,
            Some(template) => {
                if !has_no_slots(template) {
                    return Some(template);
                }
            }
        }
    }
}

/// An iterator over the static policies of a set, in insertion order.
#[derive(Drop)]
pub struct StaticPolicies<'a> {
    inner: Policies<'a>,
}

impl<'a> Model for StaticPolicies<'a> {
    ghost use Rattle.std.specs.Prelude.{List};
    ghost use Rattle.std.specs.Coded.{coded_list};
    ghost use Rattle.cedar_policy.specs.Codes.{policy_code};
    ghost use Rattle.cedar_policy.specs.Policies.{PolicyParts};
    ghost use Rattle.cedar_policy_maps.specs.Lists.{statics_in};

    ghost Value = { List PolicyParts };

    ghost coded = { coded_list policy_code };

    ghost view = { λ s. statics_in s.inner };
}

impl<'a> StaticPolicies<'a> {
    pub(crate) fn of(inner: Policies<'a>) -> StaticPolicies<'a>
        ensures { result ≡ statics_in inner.entry }
    {
        StaticPolicies { inner }
    }
}

impl<'a> Iterator for StaticPolicies<'a> {
    type Item = &'a Policy;

    ghost next_gives = { YieldsFirstRef (λ s. s) };

    ghost remaining = { item_count (λ s. s) };

    fn next(&mut self) -> Option<&'a Policy> {
        next_static(&mut self.inner)
    }
}

// Returns the next static policy.
fn next_static<'a>(inner: &mut Policies<'a>) -> Option<&'a Policy>
    ensures { YieldsFirstBy (λ p. p.now) statics_in inner.old result inner.new }
{
    loop {
        match inner.next() {
            None => return None,
            Some(policy) => {
                if !is_link(policy) {
                    return Some(policy);
                }
            }
        }
    }
}

/// An iterator over the ids of the policies that use a body, in insertion order.
#[derive(Drop)]
pub struct LinkedIds<'a> {
    // The id of a static policy. It comes before the other ids.
    first: Option<&'a PolicyID>,
    rest: Keys<'a, PolicyID, ()>,
}

impl<'a> Model for LinkedIds<'a> {
    ghost use Rattle.std.specs.Prelude.{List, ℕ};
    ghost use Rattle.cedar_policy_maps.specs.Views.{ids_left};

    ghost Value = { List (List ℕ) };

    ghost view = { λ s. ids_left s.first s.rest };
}

impl<'a> LinkedIds<'a> {
    // Iterates over the ids of the links of a template.
    pub(crate) fn of(rest: Keys<'a, PolicyID, ()>) -> LinkedIds<'a>
        ensures { result ≡ rest.entry }
    {
        LinkedIds { first: None, rest }
    }

    // Iterates over the id of a static policy.
    pub(crate) fn of_one(id: &'a PolicyID) -> LinkedIds<'a>
        ensures { result ≡ id.now ∷ [] }
    {
        LinkedIds {
            first: Some(id),
            rest: Keys::empty(),
        }
    }
}

impl<'a> Iterator for LinkedIds<'a> {
    type Item = &'a PolicyID;

    ghost next_gives = { YieldsFirstRef (λ s. s) };

    ghost remaining = { item_count (λ s. s) };

    fn next(&mut self) -> Option<&'a PolicyID> {
        match self.first {
            None => self.rest.next(),
            Some(id) => {
                self.first = None;
                Some(id)
            }
        }
    }
}
