//! Adding bodies and policies to non-empty maps. All space is reserved first, so that the insertions cannot fail.
ghost use Rattle.std.specs.Prelude.{◌≡◌, ◌≤◌, ◌++◌, [], length, false, ℕ, List, OnOk, OnErr, IfOk, IsTrue};
ghost use Rattle.std.specs.Map.{keys_of, values_of, lookup};
ghost use Rattle.cedar_ids.specs.Texts.{same_text};
ghost use Rattle.cedar_body.specs.Bodies.{BodyParts};
ghost use Rattle.cedar_policy.specs.Policies.{policy_id};
ghost use Rattle.cedar_policy_maps.specs.PolicySets.{AreOnce};
ghost use Rattle.cedar_policy_maps.specs.Maps.{lists_of, shared_of, ids_by_body, templates_in};
ghost use Rattle.cedar_policy_maps.specs.Views.{bodies_of};
ghost use Rattle.cedar_policy_maps.specs.laws.GatherLaws.{gathered, elsewhere_in};
ghost use Rattle.cedar_policy_maps.specs.laws.BulkInsertSteps.{HasRoom, HaveRoom, grown_by, HaveOwnKeys};
ghost use Rattle.cedar_policy_maps.specs.laws.ListedLaws.{changed, IsKeyed};
ghost use Rattle.cedar_policy_maps.specs.BulkInsert.{bulk_inserted, CanBulkInsert};
ghost use Rattle.indexmap.specs.IndexMap.{spare};
ghost use Rattle.indexmap.specs.IndexSet.{insert_all};
ghost use Rattle.indexmap.specs.IndexSet as sets;

use crate::maps::{EnteringLists, bodies_by_id, ids_by_template, policies_by_id};
use crate::policy_maps::PolicyMaps;
use cedar_ids::policy_id::PolicyID;
use cedar_linked_map::{LinkedMap, LinkedSet};
use cedar_policy::{Policy, Template, share_template};
use indexmap::IndexMap;
use std::alloc::{AllocError, Global};
use std::hash::BuildHasher;
use std::rc::Rc;

/// Entries to merge into maps, in two groups: those that have an equal entry in the maps, and the new ones.
#[derive(Debug, Drop)]
pub struct SharedAndNew<T> {
    /// Entries that are equal to entries in the maps.
    pub stand: Vec<T>,
    /// New entries, in insertion order.
    pub join: Vec<T>,
}

impl<T: Drop> SharedAndNew<T> {
    /// Creates two empty groups. Does not allocate.
    pub fn new(alloc: Global) -> SharedAndNew<T>
        ensures stand { result.stand.items ≡ [] }
        ensures join { result.join.items ≡ [] }
    {
        SharedAndNew {
            stand: Vec::new(alloc),
            join: Vec::new(alloc),
        }
    }
}

// The entries to append to the three maps, and the ids to append to lists of existing templates.
#[derive(Drop)]
struct Entering<S: BuildHasher> {
    templates: IndexMap<PolicyID, Rc<Template>, S>,
    links: IndexMap<PolicyID, Policy, S>,
    listed: IndexMap<PolicyID, LinkedSet<PolicyID, S>, S>,
    grown: IndexMap<PolicyID, LinkedSet<PolicyID, S>, S>,
}

impl<S: BuildHasher + Copy> PolicyMaps<S> {
    /// Appends new bodies and policies, each in their order. Existing bodies and policies are replaced by the equal
    /// ones in `stand`, so that the set shares their data and locations.
    ///
    /// The caller must ensure that the result is a policy set, as `CanBulkInsert` states.
    ///
    /// # Errors
    ///
    /// Returns `AllocError` if an allocation fails, and then leaves the content of the maps unchanged.
    ///
    /// # Complexity
    ///
    /// Allocates space in the maps and in the lists that grow, copies of ids, and the lists of new templates. Does not
    /// scan or copy existing entries.
    pub fn insert_bulk(
        &mut self,
        alloc: Global,
        bodies: SharedAndNew<Rc<Template>>,
        policies: SharedAndNew<Policy>,
    ) -> Result<(), AllocError>
        requires { CanBulkInsert self.old (bodies_of bodies.stand.items) (bodies_of bodies.join.items) policies.join.items }
        ensures ok { OnOk result (self.new ≡ bulk_inserted self.old (bodies_of bodies.join.items) policies.join.items) }
        ensures err { OnErr result (self.new ≡ self.old) }
    {
        let SharedAndNew { stand, join } = bodies;
        let SharedAndNew {
            stand: alike,
            join: policies,
        } = policies;
        let entering = new_entries(alloc, *self.links.hasher(), join, policies)?;
        self.push_new(entering, stand, alike)
    }

    /// Replaces the templates of the policies at some places by shared ones, each if the two are equal. The content of
    /// the maps does not change. Does not allocate.
    pub fn share_templates(&mut self, templates: Vec<(usize, Rc<Template>)>)
        ensures { self.new ≡ self.old }
    {
        share_all(&mut self.links, templates);
    }

    // Reserves space for the new entries, and appends them.
    fn push_new(
        &mut self,
        entering: Entering<S>,
        bodies: Vec<Rc<Template>>,
        policies: Vec<Policy>,
    ) -> Result<(), AllocError>
        requires can { CanBulkInsert self.old (bodies_of bodies.items) (bodies_of (values_of entering.templates.entries))
            (values_of entering.links.entries) }
        requires bodies { IsKeyed (λ t. t.value.id) entering.templates.entries }
        requires policies { IsKeyed policy_id entering.links.entries }
        requires listed { lists_of entering.listed.entries
            ≡ ids_by_body (templates_in (values_of entering.links.entries)
            (bodies_of (values_of entering.templates.entries))) (values_of entering.links.entries) }
        requires grown { lists_of entering.grown.entries
            ≡ gathered [] (elsewhere_in (keys_of entering.listed.entries) (values_of entering.links.entries)) }
        ensures ok { OnOk result (self.new ≡ bulk_inserted self.old (bodies_of (values_of entering.templates.entries))
            (values_of entering.links.entries)) }
        ensures err { OnErr result (self.new ≡ self.old) }
    {
        make_room(
            &mut self.templates,
            &mut self.links,
            &mut self.template_to_links_map,
            &entering,
        )?;
        let Entering {
            templates,
            links,
            listed,
            grown,
        } = entering;
        push_all(&mut self.templates, templates);
        push_all(&mut self.links, links);
        grow_lists(&mut self.template_to_links_map, grown);
        push_all(&mut self.template_to_links_map, listed);
        replace_equal_bodies(&mut self.templates, bodies);
        replace_equal_policies(&mut self.links, policies);
        Ok(())
    }
}

// Returns the entries to append, given the new bodies and policies.
fn new_entries<S: BuildHasher + Copy>(
    alloc: Global,
    hasher: S,
    bodies: Vec<Rc<Template>>,
    policies: Vec<Policy>,
) -> Result<Entering<S>, AllocError>
    requires bodies { AreOnce (λ (t : BodyParts). t.id) (bodies_of bodies.items) }
    requires policies { AreOnce policy_id policies.items }
    ensures bodies_keyed { IfOk result (λ e. IsKeyed (λ t. t.value.id) e.templates.entries) }
    ensures bodies { IfOk result (λ e. values_of e.templates.entries ≡ bodies.items) }
    ensures policies_keyed { IfOk result (λ e. IsKeyed policy_id e.links.entries) }
    ensures policies { IfOk result (λ e. values_of e.links.entries ≡ policies.items) }
    ensures listed { IfOk result (λ e. lists_of e.listed.entries
        ≡ ids_by_body (templates_in policies.items (bodies_of bodies.items)) policies.items) }
    ensures grown { IfOk result (λ e. lists_of e.grown.entries
        ≡ gathered [] (elsewhere_in (keys_of e.listed.entries) policies.items)) }
{
    let links = policies_by_id(alloc, hasher, policies)?;
    let EnteringLists { listed, grown } = ids_by_template(alloc, &bodies, &links)?;
    let templates = bodies_by_id(alloc, hasher, bodies)?;
    Ok(Entering {
        templates,
        links,
        listed,
        grown,
    })
}

// Reserves space in the three maps, and in the lists that grow.
fn make_room<S: BuildHasher + Copy>(
    templates: &mut LinkedMap<PolicyID, Rc<Template>, S>,
    links: &mut LinkedMap<PolicyID, Policy, S>,
    map: &mut LinkedMap<PolicyID, LinkedSet<PolicyID, S>, S>,
    entering: &Entering<S>,
) -> Result<(), AllocError>
    ensures bodies { templates.new.entries ≡ templates.old.entries }
    ensures policies { links.new.entries ≡ links.old.entries }
    ensures lists { lists_of map.new.entries ≡ lists_of map.old.entries }
    ensures room { OnOk result ((length entering.now.templates.entries ≤ spare templates.new)
        × (length entering.now.links.entries ≤ spare links.new)
        × (length entering.now.listed.entries ≤ spare map.new)) }
    ensures grown { OnOk result (HaveRoom map.new.entries (lists_of entering.now.grown.entries)) }
{
    templates.reserve(entering.templates.len())?;
    links.reserve(entering.links.len())?;
    room_in_lists(map, &entering.grown)?;
    map.reserve(entering.listed.len())?;
    Ok(())
}

// Appends entries with new keys. The space must be reserved.
pub(crate) fn push_all<V: Drop, S: BuildHasher + Copy>(
    map: &mut LinkedMap<PolicyID, V, S>,
    entries: IndexMap<PolicyID, V, S>,
)
    requires room { length entries.entries ≤ spare map.old }
    requires new { HaveOwnKeys (map.old.entries ++ entries.entries) }
    ensures { map.new.entries ≡ map.old.entries ++ entries.entries }
{
    map.extend_new(entries);
}

// Reserves space in the list under a key, if there is one.
fn room_in_list<S: BuildHasher + Copy>(
    map: &mut LinkedMap<PolicyID, LinkedSet<PolicyID, S>, S>,
    body: &PolicyID,
    count: usize,
) -> Result<(), AllocError>
    ensures lists { lists_of map.new.entries ≡ lists_of map.old.entries }
    ensures room { OnOk result (HasRoom (lookup (same_text body.now) map.new.entries) count) }
    ensures kept { (k : List ℕ) (n : ℕ) → HasRoom (lookup (same_text k) map.old.entries) n
        → HasRoom (lookup (same_text k) map.new.entries) n }
{
    match map.get_mut(body) {
        None => Ok(()),
        Some(ids) => room_in_set(ids, count),
    }
}

// Reserves space in a set.
fn room_in_set<S: BuildHasher + Copy>(
    ids: &mut LinkedSet<PolicyID, S>,
    count: usize,
) -> Result<(), AllocError>
    ensures keys { ids.new.keys ≡ ids.old.keys }
    ensures room { OnOk result (count ≤ sets.spare ids.new) }
    ensures kept { sets.spare ids.old ≤ sets.spare ids.new }
{
    ids.reserve(count)
}

// Reserves space in lists for the ids to append to each.
pub(crate) fn room_in_lists<S: BuildHasher + Copy>(
    map: &mut LinkedMap<PolicyID, LinkedSet<PolicyID, S>, S>,
    grown: &IndexMap<PolicyID, LinkedSet<PolicyID, S>, S>,
) -> Result<(), AllocError>
    ensures lists { lists_of map.new.entries ≡ lists_of map.old.entries }
    ensures room { OnOk result (HaveRoom map.new.entries (lists_of grown.now.entries)) }
{
    for (body, ids) in grown {
        room_in_list(map, body, ids.len())?;
    }
    Ok(())
}

// Appends ids to a set. The space must be reserved.
fn append_ids<S: BuildHasher + Copy>(ids: &mut LinkedSet<PolicyID, S>, more: LinkedSet<PolicyID, S>)
    requires { length more.keys ≤ sets.spare ids.old }
    ensures { ids.new.keys ≡ insert_all same_text ids.old.keys more.keys }
{
    let mut more = more;
    ids.append(&mut more).unwrap();
}

// Appends ids to the list under a key, if there is one. The space must be reserved.
fn grow_list<S: BuildHasher + Copy>(
    map: &mut LinkedMap<PolicyID, LinkedSet<PolicyID, S>, S>,
    body: &PolicyID,
    more: LinkedSet<PolicyID, S>,
)
    requires { HasRoom (lookup (same_text body.now) map.old.entries) (length more.keys) }
    ensures lists { lists_of map.new.entries ≡ changed (same_text body.now) (λ ks. insert_all same_text ks more.keys)
        (lists_of map.old.entries) }
    ensures others { (k : List ℕ) → same_text body.now k ≡ false
        → lookup (same_text k) map.new.entries ≡ lookup (same_text k) map.old.entries }
    ensures room { spare map.old ≤ spare map.new }
{
    match map.get_mut(body) {
        None => drop(more),
        Some(ids) => append_ids(ids, more),
    }
}

// Appends ids to lists. The space must be reserved.
pub(crate) fn grow_lists<S: BuildHasher + Copy>(
    map: &mut LinkedMap<PolicyID, LinkedSet<PolicyID, S>, S>,
    grown: IndexMap<PolicyID, LinkedSet<PolicyID, S>, S>,
)
    requires room { HaveRoom map.old.entries (lists_of grown.entries) }
    requires once { HaveOwnKeys grown.entries }
    ensures lists { lists_of map.new.entries ≡ grown_by (lists_of map.old.entries) (lists_of grown.entries) }
    ensures room { spare map.old ≤ spare map.new }
{
    for (body, more) in grown {
        grow_list(map, &body, more);
    }
}

// Replaces existing bodies by equal ones with the same ids.
fn replace_equal_bodies<S: BuildHasher + Copy>(
    templates: &mut LinkedMap<PolicyID, Rc<Template>, S>,
    bodies: Vec<Rc<Template>>,
)
    ensures { shared_of templates.new.entries ≡ shared_of templates.old.entries }
{
    for template in bodies {
        replace_equal_body(templates, template);
    }
}

// Replaces the body with the same id, if it is equal.
fn replace_equal_body<S: BuildHasher + Copy>(
    templates: &mut LinkedMap<PolicyID, Rc<Template>, S>,
    template: Rc<Template>,
)
    ensures { shared_of templates.new.entries ≡ shared_of templates.old.entries }
{
    match templates.get_mut(template.id()) {
        None => drop(template),
        Some(stands) => replace_body(stands, template),
    }
}

// Replaces a body by another one, if they are equal.
fn replace_body(stands: &mut Rc<Template>, template: Rc<Template>)
    ensures { stands.new.value ≡ stands.old.value }
{
    if Rc::ptr_eq(stands, &template) {
        drop(template);
        return;
    }
    if is_body(&template, stands) {
        *stands = template;
    } else {
        drop(template);
    }
}

// Returns whether two templates are equal.
#[tactic(auto, using(crate::specs::laws::Walks::same_body_is))]
fn is_body(template: &Template, other: &Template) -> bool
    ensures { IsTrue result → (template.now ≡ other.now) }
{
    template == other
}

// Replaces the templates of the policies at some places, each if the two are equal.
fn share_all<S: BuildHasher + Copy>(
    links: &mut LinkedMap<PolicyID, Policy, S>,
    templates: Vec<(usize, Rc<Template>)>,
)
    ensures { links.new.entries ≡ links.old.entries }
{
    for (place, template) in templates {
        share_at(links, place, template);
    }
}

// Replaces the template of the policy at a place, if the two are equal.
fn share_at<S: BuildHasher + Copy>(
    links: &mut LinkedMap<PolicyID, Policy, S>,
    place: usize,
    template: Rc<Template>,
)
    ensures { links.new.entries ≡ links.old.entries }
{
    match links.get_at_mut(place) {
        None => drop(template),
        Some(policy) => share_template(policy, template),
    }
}

// Replaces existing policies by equal ones with the same ids.
fn replace_equal_policies<S: BuildHasher + Copy>(
    links: &mut LinkedMap<PolicyID, Policy, S>,
    policies: Vec<Policy>,
)
    ensures { links.new.entries ≡ links.old.entries }
{
    for policy in policies {
        replace_equal_policy(links, policy);
    }
}

// Replaces the policy with the same id, if it is equal.
fn replace_equal_policy<S: BuildHasher + Copy>(
    links: &mut LinkedMap<PolicyID, Policy, S>,
    policy: Policy,
)
    ensures { links.new.entries ≡ links.old.entries }
{
    match links.get_mut(policy.id()) {
        None => drop(policy),
        Some(stands) => replace_policy(stands, policy),
    }
}

// Replaces a policy by another one, if they are equal.
fn replace_policy(stands: &mut Policy, policy: Policy)
    ensures { stands.new ≡ stands.old }
{
    if is_policy(&policy, stands) {
        *stands = policy;
    } else {
        drop(policy);
    }
}

// Returns whether two policies are equal.
#[tactic(auto, using(crate::specs::laws::Walks::same_policy_is))]
fn is_policy(policy: &Policy, other: &Policy) -> bool
    ensures { IsTrue result → (policy.now ≡ other.now) }
{
    policy == other
}
