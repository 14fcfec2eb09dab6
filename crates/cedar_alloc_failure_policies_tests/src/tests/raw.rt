// Tests of sets that are created from their three maps.
ghost use Rattle.std.specs.Prelude.{◌≡◌, ◌++◌, ◌∷◌, [], None, IfOk, OnOk};
ghost use Rattle.indexmap.specs.IndexMap.{get};
ghost use Rattle.cedar_ids.specs.Texts.{same_text};
ghost use Rattle.cedar_policy.specs.Policies.{policy_id};
ghost use Rattle.cedar_policy_maps.specs.PolicySets.{HasDistinctId};
ghost use Rattle.cedar_policy_maps.specs.Maps.{lists_of, shared_of};

use super::sets::{policy, set_of};
use cedar_alloc_failures::{CallOutcome, Row, judged, refuse, unmade};
use cedar_ids::policy_id::PolicyID;
use cedar_policy::{Policy, Template};
use cedar_policy_maps::PolicyMaps;
use cedar_policy_set::PolicySet;
use indexmap::{IndexMap, IndexSet};
use std::alloc::{AllocError, Global};
use std::hash::{BuildHasherDefault, FoldHasher};
use std::rc::Rc;

// Appends a value with a new key.
fn put<V: Drop>(map: &mut IndexMap<PolicyID, V>, key: PolicyID, value: V) -> Result<(), AllocError>
    requires { get same_text map.old key ≡ None }
    ensures { OnOk result (map.new.entries ≡ map.old.entries ++ (key, value) ∷ []) }
{
    map.reserve(1)?;
    map.insert(key, value).unwrap();
    Ok(())
}

// Returns the set of a policy's id.
fn just(alloc: Global, policy: &Policy) -> Result<IndexSet<PolicyID>, AllocError>
    ensures { IfOk result (λ s. s.keys ≡ policy_id policy.now ∷ []) }
{
    let mut ids = IndexSet::with_capacity(alloc, 1)?;
    ids.insert(own(policy)?).unwrap();
    Ok(ids)
}

// Returns the id of a policy.
fn own(policy: &Policy) -> Result<PolicyID, AllocError>
    ensures { IfOk result (λ i. i ≡ policy_id policy.now) }
{
    Ok(policy.id().clone()?)
}

// Returns the id of a policy's template.
fn under(policy: &Policy) -> Result<PolicyID, AllocError>
    ensures { IfOk result (λ i. i ≡ policy.now.template.id) }
{
    Ok(policy.template().id().clone()?)
}

// Shares the template of a policy once more.
fn shared(policy: &Policy) -> Result<Rc<Template>, AllocError>
    ensures { IfOk result (λ t. t.value ≡ policy.now.template) }
{
    Ok(policy.template_arc().clone()?)
}

// The maps of a policy set.
type Maps = PolicyMaps<BuildHasherDefault<FoldHasher>>;

// Lists of the ids of policies, by the id of their template.
type Lists = IndexMap<PolicyID, IndexSet<PolicyID>>;

// Returns the list with only this policy, by the id of its template.
fn list_of(alloc: Global, policy: &Policy) -> Result<Lists, AllocError>
    ensures { IfOk result (λ m. lists_of m.entries ≡ (policy.now.template.id, policy_id policy.now ∷ []) ∷ []) }
{
    let mut lists = IndexMap::new(alloc);
    put(&mut lists, under(policy)?, just(alloc, policy)?)?;
    Ok(lists)
}

// Returns the map with the template of a policy, by its id.
fn template_of(
    alloc: Global,
    policy: &Policy,
) -> Result<IndexMap<PolicyID, Rc<Template>>, AllocError>
    ensures { IfOk result (λ m. shared_of m.entries ≡ (policy.now.template.id, policy.now.template) ∷ []) }
{
    let mut templates = IndexMap::new(alloc);
    put(&mut templates, under(policy)?, shared(policy)?)?;
    Ok(templates)
}

// Returns the map with a policy, by its id.
fn link_of(alloc: Global, policy: Policy) -> Result<IndexMap<PolicyID, Policy>, AllocError>
    ensures { IfOk result (λ m. m.entries ≡ (policy_id policy, policy) ∷ []) }
{
    let mut links = IndexMap::new(alloc);
    put(&mut links, own(&policy)?, policy)?;
    Ok(links)
}

// Returns the set of one policy and its template, from maps. The allocation with this number is forced to fail.
fn raw_one(alloc: Global, number: usize, policy: Policy) -> Result<PolicySet, AllocError>
    requires { HasDistinctId policy }
{
    let lists = list_of(alloc, &policy)?;
    let templates = template_of(alloc, &policy)?;
    let links = link_of(alloc, policy)?;
    refuse(alloc, number);
    PolicySet::from_raw_components(templates, links, lists)
}

// Returns the maps of one policy and its template, from maps. The allocation with this number is forced to fail.
fn raw_maps_one(alloc: Global, number: usize, policy: Policy) -> Result<Maps, AllocError>
    requires { HasDistinctId policy }
{
    let lists = list_of(alloc, &policy)?;
    let templates = template_of(alloc, &policy)?;
    let links = link_of(alloc, policy)?;
    refuse(alloc, number);
    PolicyMaps::from_raw_components(templates, links, lists)
}

// Returns the result for the policy with this text and its template. Returns `None` for a link with the id of its
// template.
pub(super) fn raw(
    alloc: Global,
    number: usize,
    text: &str,
) -> Option<Result<PolicySet, AllocError>> {
    match policy(alloc, text) {
        Some(policy) => {
            if !policy.is_static() && policy.id() == policy.template().id() {
                drop(policy);
                return None;
            }
            Some(raw_one(alloc, number, policy))
        }
        None => None,
    }
}

// Returns the result for the maps of the policy with this text, as `raw` does for a set.
pub(super) fn raw_maps(
    alloc: Global,
    number: usize,
    text: &str,
) -> Option<Result<Maps, AllocError>> {
    match policy(alloc, text) {
        Some(policy) => {
            if !policy.is_static() && policy.id() == policy.template().id() {
                drop(policy);
                return None;
            }
            Some(raw_maps_one(alloc, number, policy))
        }
        None => None,
    }
}

// Returns whether the set from the maps of a text equals the set that the calls of a case create.
pub(super) fn is_raw(alloc: Global, number: usize, text: &str, row: Row<'_>) -> CallOutcome {
    match set_of(alloc, row.given) {
        Some(made) => {
            let outcome = match raw(alloc, number, text) {
                Some(answer) => judged(
                    alloc,
                    answer,
                    row.want,
                    |raw| (raw == &made) == (row.want == "yes"),
                ),
                None => unmade(),
            };
            drop(made);
            outcome
        }
        None => unmade(),
    }
}
