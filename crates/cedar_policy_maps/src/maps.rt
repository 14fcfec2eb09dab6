//! Operations on one map: appending entries, changing lists of ids, and creating maps from lists.
ghost use Rattle.std.specs.Prelude.{◌≡◌, ◌<◌, ◌≤◌, length, ◌++◌, ◌∷◌, [], None, not, is_some, true, false, OnOk, OnErr, IfOk, IfSome};
ghost use Rattle.std.specs.List.{filter, list_any};
ghost use Rattle.std.specs.Map.{keys_of, values_of};
ghost use Rattle.cedar_ids.specs.Texts.{same_text};
ghost use Rattle.cedar_body.specs.Bodies.{BodyParts};
ghost use Rattle.cedar_policy.specs.Policies.{policy_id};
ghost use Rattle.cedar_policy_maps.specs.PolicySets.{AreOnce};
ghost use Rattle.cedar_policy_maps.specs.Maps.{lists_of, shared_of, ids_by_body, templates_in};
ghost use Rattle.cedar_policy_maps.specs.Views.{bodies_of};
ghost use Rattle.cedar_policy_maps.specs.laws.GatherLaws.{gathered, gathered_unless, with_gathered};
ghost use Rattle.cedar_policy_maps.specs.laws.GatherLaws.{links_in, elsewhere_in};
ghost use Rattle.cedar_policy_maps.specs.laws.ListedLaws.{with_listed, without_listed, IsKeyed};
ghost use Rattle.cedar_policy_maps.specs.laws.MapLaws.{unlisted, all_listed};
ghost use Rattle.indexmap.specs.IndexMap.{get, shift_remove_entry, spare};
ghost use Rattle.indexmap.specs.IndexSet.{contains, insert_key, remove_key};

use crate::lists::{is_link, template_of};
use cedar_ids::policy_id::PolicyID;
use cedar_linked_map::{LinkedMap, LinkedSet};
use cedar_policy::{Policy, Template};
use indexmap::{IndexMap, IndexSet};
use std::alloc::{AllocError, Global};
use std::hash::BuildHasher;
use std::rc::Rc;

// Appends a value with a new key. The space must be reserved.
pub(crate) fn insert_reserved<V: Drop, S: BuildHasher + Copy>(
    map: &mut LinkedMap<PolicyID, V, S>,
    key: PolicyID,
    value: V,
)
    requires room { 0 < spare map.old }
    requires absent { get same_text map.old key ≡ None }
    ensures { map.new.entries ≡ map.old.entries ++ (key, value) ∷ [] }
{
    map.push(key, value);
}

// Appends a value with a new key.
fn insert_new<V: Drop, S: BuildHasher + Copy>(
    map: &mut IndexMap<PolicyID, V, S>,
    key: PolicyID,
    value: V,
) -> Result<(), AllocError>
    requires { get same_text map.old key ≡ None }
    ensures { OnOk result (map.new.entries ≡ map.old.entries ++ (key, value) ∷ []) }
{
    map.insert(key, value)?;
    Ok(())
}

// The keys and the shared body for appending a policy and its body.
#[derive(Drop)]
pub(crate) struct Joining {
    // The key of the body.
    pub(crate) body_id: PolicyID,
    // The key of the policy.
    pub(crate) policy_id: PolicyID,
    // A further shared pointer to the body.
    pub(crate) body: Rc<Template>,
}

// Reserves space for one more body and its list, and returns two copies of its id.
pub(crate) fn room_for_body<S: BuildHasher + Copy>(
    templates: &mut LinkedMap<PolicyID, Rc<Template>, S>,
    map: &mut LinkedMap<PolicyID, LinkedSet<PolicyID, S>, S>,
    template: &Template,
) -> Result<(PolicyID, PolicyID), AllocError>
    ensures bodies { templates.new.entries ≡ templates.old.entries }
    ensures lists { map.new.entries ≡ map.old.entries }
    ensures room { OnOk result ((0 < spare templates.new) × (0 < spare map.new)) }
    ensures ids { IfOk result (λ r. (r.0 ≡ template.now.id) × (r.1 ≡ template.now.id)) }
{
    templates.reserve(1)?;
    map.reserve(1)?;
    let id = template.id().clone()?;
    let listed = template.id().clone()?;
    Ok((id, listed))
}

// Reserves space for one more policy, appends its id to the list of its template, and returns a copy of the id. The list
// must not contain the id.
pub(crate) fn list_policy<S: BuildHasher + Copy>(
    links: &mut LinkedMap<PolicyID, Policy, S>,
    map: &mut LinkedMap<PolicyID, LinkedSet<PolicyID, S>, S>,
    policy: &Policy,
) -> Result<PolicyID, AllocError>
    requires { IfSome (get same_text map.old policy.now.template.id)
        (λ s. contains same_text s (policy_id policy.now) ≡ false) }
    ensures policies { links.new.entries ≡ links.old.entries }
    ensures room { OnOk result (0 < spare links.new) }
    ensures id { IfOk result (λ i. i ≡ policy_id policy.now) }
    ensures ok { OnOk result (lists_of map.new.entries
        ≡ with_listed policy.now.template.id (policy_id policy.now) (lists_of map.old.entries)) }
    ensures err { OnErr result (lists_of map.new.entries ≡ lists_of map.old.entries) }
{
    links.reserve(1)?;
    let id = policy.id().clone()?;
    let listed = policy.id().clone()?;
    list_link(map, policy.template().id(), listed)?;
    Ok(id)
}

// Reserves space for one more policy and its body, and returns their keys and the shared body.
pub(crate) fn reserve_with_body<S: BuildHasher + Copy>(
    templates: &mut LinkedMap<PolicyID, Rc<Template>, S>,
    links: &mut LinkedMap<PolicyID, Policy, S>,
    policy: &Policy,
) -> Result<Joining, AllocError>
    ensures bodies { templates.new.entries ≡ templates.old.entries }
    ensures policies { links.new.entries ≡ links.old.entries }
    ensures room { OnOk result ((0 < spare templates.new) × (0 < spare links.new)) }
    ensures body_id { IfOk result (λ j. j.body_id ≡ policy.now.template.id) }
    ensures policy_id { IfOk result (λ j. j.policy_id ≡ policy_id policy.now) }
    ensures body { IfOk result (λ j. j.body.value ≡ policy.now.template) }
{
    templates.reserve(1)?;
    links.reserve(1)?;
    let body_id = policy.template().id().clone()?;
    let policy_id = policy.id().clone()?;
    let body = template_of(policy)?;
    Ok(Joining {
        body_id,
        policy_id,
        body,
    })
}

// Reserves space for one more list. Returns a copy of the id of a link's template, and the list of the link's id.
pub(crate) fn room_for_list<S: BuildHasher + Copy>(
    map: &mut LinkedMap<PolicyID, LinkedSet<PolicyID, S>, S>,
    policy: &Policy,
) -> Result<(PolicyID, LinkedSet<PolicyID, S>), AllocError>
    ensures lists { map.new.entries ≡ map.old.entries }
    ensures room { OnOk result (0 < spare map.new) }
    ensures list { IfOk result (λ r. (r.0 ≡ policy.now.template.id) × (r.1.keys ≡ policy_id policy.now ∷ [])) }
{
    map.reserve(1)?;
    let under = policy.template().id().clone()?;
    let ids = set_of(*map.allocator(), *map.hasher(), policy.id())?;
    Ok((under, ids))
}

// Returns the set of one id.
fn set_of<S: BuildHasher + Copy>(
    alloc: Global,
    hasher: S,
    id: &PolicyID,
) -> Result<LinkedSet<PolicyID, S>, AllocError>
    ensures { IfOk result (λ s. s.keys ≡ id.now ∷ []) }
{
    let mut ids = LinkedSet::with_hasher(alloc, hasher);
    insert_id_copy(&mut ids, id)?;
    Ok(ids)
}

// Appends a copy of an id to a set, unless the set contains it.
fn insert_id_copy<S: BuildHasher + Copy>(
    ids: &mut LinkedSet<PolicyID, S>,
    id: &PolicyID,
) -> Result<(), AllocError>
    ensures { OnOk result (ids.new.keys ≡ insert_key same_text ids.old.keys id.now) }
{
    insert_id(ids, id.clone()?)
}

// Appends an id to a set, unless the set contains it.
fn insert_id<S: BuildHasher + Copy>(
    ids: &mut LinkedSet<PolicyID, S>,
    id: PolicyID,
) -> Result<(), AllocError>
    ensures ok { OnOk result (ids.new.keys ≡ insert_key same_text ids.old.keys id) }
    ensures err { OnErr result (ids.new.keys ≡ ids.old.keys) }
{
    ids.insert(id)?;
    Ok(())
}

// Appends an id to a set that does not contain it.
fn push_new_id<S: BuildHasher + Copy>(
    ids: &mut LinkedSet<PolicyID, S>,
    id: PolicyID,
) -> Result<(), AllocError>
    requires { contains same_text ids.old id ≡ false }
    ensures ok { OnOk result (ids.new.keys ≡ insert_key same_text ids.old.keys id) }
    ensures err { OnErr result (ids.new.keys ≡ ids.old.keys) }
{
    ids.reserve(1)?;
    ids.push(id);
    Ok(())
}

// Removes an id from a set. The order of the other ids does not change.
fn remove_id<S: BuildHasher + Copy>(ids: &mut LinkedSet<PolicyID, S>, id: &PolicyID)
    ensures { ids.new.keys ≡ remove_key (same_text id.now) ids.old.keys }
{
    ids.shift_remove(id);
}

// Appends an id to the list of a template, if there is one. The list must not contain the id.
pub(crate) fn list_link<S: BuildHasher + Copy>(
    map: &mut LinkedMap<PolicyID, LinkedSet<PolicyID, S>, S>,
    body: &PolicyID,
    id: PolicyID,
) -> Result<(), AllocError>
    requires { IfSome (get same_text map.old body.now) (λ s. contains same_text s id ≡ false) }
    ensures ok { OnOk result (lists_of map.new.entries ≡ with_listed body.now id (lists_of map.old.entries)) }
    ensures err { OnErr result (lists_of map.new.entries ≡ lists_of map.old.entries) }
{
    match map.get_mut(body) {
        None => Ok(()),
        Some(ids) => push_new_id(ids, id),
    }
}

// Removes an id from the list of a body, if there is one.
fn unlist_id<S: BuildHasher + Copy>(
    map: &mut LinkedMap<PolicyID, LinkedSet<PolicyID, S>, S>,
    body: &PolicyID,
    id: &PolicyID,
)
    ensures { lists_of map.new.entries ≡ without_listed body.now id.now (lists_of map.old.entries) }
{
    match map.get_mut(body) {
        None => (),
        Some(ids) => remove_id(ids, id),
    }
}

// Removes the body with this id and its list, and returns the body. `policy` is the policy with the id, if there is one:
// then the id has no list, and if the policy is a link, it has no body.
#[tactic(auto, using(crate::proofs::Entries::removed_absent))]
pub(crate) fn remove_body<S: BuildHasher + Copy>(
    templates: &mut LinkedMap<PolicyID, Rc<Template>, S>,
    map: &mut LinkedMap<PolicyID, LinkedSet<PolicyID, S>, S>,
    policy: &Option<Policy>,
    id: &PolicyID,
) -> Option<Rc<Template>>
    requires list { IfSome policy.now (λ p. get same_text map.old id.now ≡ None) }
    requires link { IfSome policy.now (λ p. is_some p.link ≡ true → get same_text templates.old id.now ≡ None) }
    ensures value { result ≡ get same_text templates.old id.now }
    ensures bodies { templates.new.entries ≡ shift_remove_entry (same_text id.now) templates.old.entries }
    ensures lists { map.new.entries ≡ shift_remove_entry (same_text id.now) map.old.entries }
{
    match policy {
        None => {
            drop(map.shift_remove(id));
            templates.shift_remove(id)
        }
        Some(policy) => remove_static_body(templates, policy, id),
    }
}

// Removes the body with the id of this policy, and returns the body. A link has none.
#[tactic(auto, using(crate::proofs::Entries::removed_absent))]
fn remove_static_body<S: BuildHasher + Copy>(
    bodies: &mut LinkedMap<PolicyID, Rc<Template>, S>,
    policy: &Policy,
    id: &PolicyID,
) -> Option<Rc<Template>>
    requires { is_some policy.now.link ≡ true → get same_text bodies.old id.now ≡ None }
    ensures value { result ≡ get same_text bodies.old id.now }
    ensures bodies { bodies.new.entries ≡ shift_remove_entry (same_text id.now) bodies.old.entries }
{
    if is_link(policy) {
        return None;
    }
    bodies.shift_remove(id)
}

// Removes the id of a removed policy, if there is one, from the list of its template.
pub(crate) fn unlist<S: BuildHasher + Copy>(
    map: &mut LinkedMap<PolicyID, LinkedSet<PolicyID, S>, S>,
    policy: &Option<Policy>,
    id: &PolicyID,
)
    ensures { lists_of map.new.entries ≡ unlisted policy.now id.now (lists_of map.old.entries) }
{
    match policy {
        None => (),
        Some(policy) => unlist_id(map, policy.template().id(), id),
    }
}

// Returns the map of bodies by their ids, in order.
pub(crate) fn bodies_by_id<S: BuildHasher + Copy>(
    alloc: Global,
    hasher: S,
    bodies: Vec<Rc<Template>>,
) -> Result<IndexMap<PolicyID, Rc<Template>, S>, AllocError>
    requires { AreOnce (λ (t : BodyParts). t.id) (bodies_of bodies.items) }
    ensures keyed { IfOk result (λ m. IsKeyed (λ t. t.value.id) m.entries) }
    ensures values { IfOk result (λ m. values_of m.entries ≡ bodies.items) }
{
    let mut templates = IndexMap::with_capacity_and_hasher(alloc, bodies.len(), hasher)?;
    fill_bodies(&mut templates, bodies)?;
    Ok(templates)
}

// Fills an empty map with bodies, by their ids.
fn fill_bodies<S: BuildHasher + Copy>(
    templates: &mut IndexMap<PolicyID, Rc<Template>, S>,
    bodies: Vec<Rc<Template>>,
) -> Result<(), AllocError>
    requires empty { templates.old.entries ≡ [] }
    requires once { AreOnce (λ (t : BodyParts). t.id) (bodies_of bodies.items) }
    ensures keyed { OnOk result (IsKeyed (λ t. t.value.id) templates.new.entries) }
    ensures values { OnOk result (values_of templates.new.entries ≡ bodies.items) }
{
    for template in bodies {
        push_body(templates, template)?;
    }
    Ok(())
}

// Appends a body with a new id.
fn push_body<S: BuildHasher + Copy>(
    templates: &mut IndexMap<PolicyID, Rc<Template>, S>,
    template: Rc<Template>,
) -> Result<(), AllocError>
    requires { get same_text templates.old template.value.id ≡ None }
    ensures { OnOk result (templates.new.entries ≡ templates.old.entries ++ (template.value.id, template) ∷ []) }
{
    let id = template.id().clone()?;
    insert_new(templates, id, template)
}

// Returns the map of policies by their ids, in order.
pub(crate) fn policies_by_id<S: BuildHasher + Copy>(
    alloc: Global,
    hasher: S,
    policies: Vec<Policy>,
) -> Result<IndexMap<PolicyID, Policy, S>, AllocError>
    requires { AreOnce policy_id policies.items }
    ensures keyed { IfOk result (λ m. IsKeyed policy_id m.entries) }
    ensures values { IfOk result (λ m. values_of m.entries ≡ policies.items) }
{
    let mut links = IndexMap::with_capacity_and_hasher(alloc, policies.len(), hasher)?;
    fill_policies(&mut links, policies)?;
    Ok(links)
}

// Fills an empty map with policies, by their ids.
fn fill_policies<S: BuildHasher + Copy>(
    links: &mut IndexMap<PolicyID, Policy, S>,
    policies: Vec<Policy>,
) -> Result<(), AllocError>
    requires empty { links.old.entries ≡ [] }
    requires once { AreOnce policy_id policies.items }
    ensures keyed { OnOk result (IsKeyed policy_id links.new.entries) }
    ensures values { OnOk result (values_of links.new.entries ≡ policies.items) }
{
    for policy in policies {
        insert_policy(links, policy)?;
    }
    Ok(())
}

// Appends a policy with a new id.
fn insert_policy<S: BuildHasher + Copy>(
    links: &mut IndexMap<PolicyID, Policy, S>,
    policy: Policy,
) -> Result<(), AllocError>
    requires { get same_text links.old (policy_id policy) ≡ None }
    ensures { OnOk result (links.new.entries ≡ links.old.entries ++ (policy_id policy, policy) ∷ []) }
{
    let id = policy.id().clone()?;
    insert_new(links, id, policy)
}

// The lists of ids to append.
#[derive(Drop)]
pub(crate) struct EnteringLists<S: BuildHasher> {
    // The ids of the links of each new template.
    pub(crate) listed: IndexMap<PolicyID, LinkedSet<PolicyID, S>, S>,
    // The ids of the new links of each existing template.
    pub(crate) grown: IndexMap<PolicyID, LinkedSet<PolicyID, S>, S>,
}

// Returns the ids of new links by the ids of their templates. A new body is a template if no new policy has its id.
pub(crate) fn ids_by_template<S: BuildHasher + Copy>(
    alloc: Global,
    bodies: &[Rc<Template>],
    policies: &IndexMap<PolicyID, Policy, S>,
) -> Result<EnteringLists<S>, AllocError>
    requires bodies { AreOnce (λ (t : BodyParts). t.id) (bodies_of bodies.now) }
    requires keyed { IsKeyed policy_id policies.now.entries }
    requires policies { AreOnce policy_id (values_of policies.now.entries) }
    ensures listed { IfOk result (λ e. lists_of e.listed.entries ≡ ids_by_body
        (templates_in (values_of policies.now.entries) (bodies_of bodies.now)) (values_of policies.now.entries)) }
    ensures grown { IfOk result (λ e. lists_of e.grown.entries
        ≡ gathered [] (elsewhere_in (keys_of e.listed.entries) (values_of policies.now.entries))) }
{
    let mut listed = no_ids(alloc, bodies, policies)?;
    let mut grown = IndexMap::with_hasher(alloc, *policies.hasher());
    list_links(&mut listed, &mut grown, policies.values().as_slice())?;
    Ok(EnteringLists { listed, grown })
}

// Returns an empty list for each template.
fn no_ids<S: BuildHasher + Copy>(
    alloc: Global,
    bodies: &[Rc<Template>],
    known: &IndexMap<PolicyID, Policy, S>,
) -> Result<IndexMap<PolicyID, LinkedSet<PolicyID, S>, S>, AllocError>
    requires bodies { AreOnce (λ (t : BodyParts). t.id) (bodies_of bodies.now) }
    requires keyed { IsKeyed policy_id known.now.entries }
    ensures { IfOk result (λ m. lists_of m.entries ≡ ids_by_body
        (templates_in (values_of known.now.entries) (bodies_of bodies.now)) []) }
{
    let mut map = IndexMap::with_hasher(alloc, *known.hasher());
    for template in bodies {
        push_empty_list(&mut map, template, known)?;
    }
    Ok(map)
}

// Appends an empty list for a template, unless a policy has its id.
fn push_empty_list<S: BuildHasher + Copy>(
    map: &mut IndexMap<PolicyID, LinkedSet<PolicyID, S>, S>,
    template: &Rc<Template>,
    known: &IndexMap<PolicyID, Policy, S>,
) -> Result<(), AllocError>
    requires absent { get same_text map.old template.now.value.id ≡ None }
    requires keyed { IsKeyed policy_id known.now.entries }
    ensures { OnOk result (lists_of map.new.entries ≡ lists_of map.old.entries
        ++ ids_by_body (templates_in (values_of known.now.entries) (template.now.value ∷ [])) []) }
{
    if known.contains_key(template.id()) {
        return Ok(());
    }
    let ids = LinkedSet::with_hasher(*map.allocator(), *map.hasher());
    insert_new(map, template.id().clone()?, ids)
}

// Appends each link's id to the list of its template: in the first map if the template has a list there, else in the
// second.
fn list_links<S: BuildHasher + Copy>(
    listed: &mut IndexMap<PolicyID, LinkedSet<PolicyID, S>, S>,
    grown: &mut IndexMap<PolicyID, LinkedSet<PolicyID, S>, S>,
    policies: &[Policy],
) -> Result<(), AllocError>
    ensures listed { OnOk result (lists_of listed.new.entries
        ≡ all_listed (lists_of listed.old.entries) (links_in policies.now)) }
    ensures grown { OnOk result (lists_of grown.new.entries
        ≡ gathered (lists_of grown.old.entries) (elsewhere_in (keys_of listed.old.entries) policies.now)) }
{
    for policy in policies {
        list_if_link(listed, grown, policy)?;
    }
    Ok(())
}

// Appends the id of a policy to a list in one of two maps, if it is a link.
fn list_if_link<S: BuildHasher + Copy>(
    listed: &mut IndexMap<PolicyID, LinkedSet<PolicyID, S>, S>,
    grown: &mut IndexMap<PolicyID, LinkedSet<PolicyID, S>, S>,
    policy: &Policy,
) -> Result<(), AllocError>
    ensures listed { OnOk result (lists_of listed.new.entries
        ≡ all_listed (lists_of listed.old.entries) (links_in (policy.now ∷ []))) }
    ensures grown { OnOk result (lists_of grown.new.entries
        ≡ gathered (lists_of grown.old.entries) (elsewhere_in (keys_of listed.old.entries) (policy.now ∷ []))) }
{
    if is_link(policy) {
        list_in_either(listed, grown, policy.template().id(), policy.id())
    } else {
        Ok(())
    }
}

// Appends a copy of an id to the list of a template: in the first map if the template has a list there, else in the
// second.
fn list_in_either<S: BuildHasher + Copy>(
    listed: &mut IndexMap<PolicyID, LinkedSet<PolicyID, S>, S>,
    grown: &mut IndexMap<PolicyID, LinkedSet<PolicyID, S>, S>,
    body: &PolicyID,
    id: &PolicyID,
) -> Result<(), AllocError>
    ensures listed { OnOk result (lists_of listed.new.entries
        ≡ with_listed body.now id.now (lists_of listed.old.entries)) }
    ensures grown { OnOk result (lists_of grown.new.entries ≡ gathered_unless
        (list_any (same_text body.now) (keys_of listed.old.entries)) body.now id.now (lists_of grown.old.entries)) }
{
    match listed.get_mut(body) {
        None => gather_id(grown, body, id),
        Some(there) => insert_id_copy(there, id),
    }
}

// Appends a copy of an id to the list of a template. Appends the list first if there is none.
fn gather_id<S: BuildHasher + Copy>(
    map: &mut IndexMap<PolicyID, LinkedSet<PolicyID, S>, S>,
    body: &PolicyID,
    id: &PolicyID,
) -> Result<(), AllocError>
    ensures { OnOk result (lists_of map.new.entries ≡ with_gathered body.now id.now (lists_of map.old.entries)) }
{
    match map.get_mut(body) {
        None => push_list(map, body, id),
        Some(ids) => insert_id_copy(ids, id),
    }
}

// Appends the list of one id with a new key. Both are copied.
fn push_list<S: BuildHasher + Copy>(
    map: &mut IndexMap<PolicyID, LinkedSet<PolicyID, S>, S>,
    body: &PolicyID,
    id: &PolicyID,
) -> Result<(), AllocError>
    requires { get same_text map.old body.now ≡ None }
    ensures { OnOk result (lists_of map.new.entries ≡ lists_of map.old.entries ++ (body.now, id.now ∷ []) ∷ []) }
{
    let ids = set_of(*map.allocator(), *map.hasher(), id)?;
    insert_new(map, body.clone()?, ids)
}

// Keeps the lists whose keys are not ids of policies, in order.
pub(crate) fn filter_templates<S: BuildHasher + Copy>(
    map: &mut IndexMap<PolicyID, IndexSet<PolicyID, S>, S>,
    links: &IndexMap<PolicyID, Policy, S>,
)
    ensures { map.new.entries ≡ filter (λ e. not (is_some (get same_text links.now e.0))) map.old.entries }
{
    map.retain(|id, _| !links.contains_key(id));
}

// Returns the map of lists whose removals take constant time.
pub(crate) fn linked_lists<S: BuildHasher + Copy>(
    alloc: Global,
    map: IndexMap<PolicyID, IndexSet<PolicyID, S>, S>,
) -> Result<LinkedMap<PolicyID, LinkedSet<PolicyID, S>, S>, AllocError>
    ensures { IfOk result (λ m. lists_of m.entries ≡ lists_of map.entries) }
{
    let mut lists = LinkedMap::with_capacity_and_hasher(alloc, map.len(), *map.hasher())?;
    link_lists(alloc, &mut lists, map)?;
    Ok(lists)
}

// Appends lists to an empty map. The space must be reserved.
fn link_lists<S: BuildHasher + Copy>(
    alloc: Global,
    lists: &mut LinkedMap<PolicyID, LinkedSet<PolicyID, S>, S>,
    map: IndexMap<PolicyID, IndexSet<PolicyID, S>, S>,
) -> Result<(), AllocError>
    requires empty { lists.old.entries ≡ [] }
    requires room { length map.entries ≤ spare lists.old }
    ensures { OnOk result (lists_of lists.new.entries ≡ lists_of map.entries) }
{
    for (body, ids) in map {
        let ids = LinkedSet::from_index_set(alloc, ids)?;
        lists.push(body, ids);
    }
    Ok(())
}

// Copies the map of bodies. The bodies are shared.
pub(crate) fn copy_of_bodies<S: BuildHasher + Copy>(
    templates: &LinkedMap<PolicyID, Rc<Template>, S>,
) -> Result<LinkedMap<PolicyID, Rc<Template>, S>, AllocError>
    ensures { IfOk result (λ m. shared_of m.entries ≡ shared_of templates.now.entries) }
{
    let copies = templates.clone()?;
    Ok(copies)
}

// Copies the map of policies.
pub(crate) fn copy_of_policies<S: BuildHasher + Copy>(
    links: &LinkedMap<PolicyID, Policy, S>,
) -> Result<LinkedMap<PolicyID, Policy, S>, AllocError>
    ensures { IfOk result (λ m. m.entries ≡ links.now.entries) }
{
    let copies = links.clone()?;
    Ok(copies)
}

// Copies the map of lists.
pub(crate) fn copy_of_ids<S: BuildHasher + Copy>(
    map: &LinkedMap<PolicyID, LinkedSet<PolicyID, S>, S>,
) -> Result<LinkedMap<PolicyID, LinkedSet<PolicyID, S>, S>, AllocError>
    ensures { IfOk result (λ m. lists_of m.entries ≡ lists_of map.now.entries) }
{
    let copies = map.clone()?;
    Ok(copies)
}
