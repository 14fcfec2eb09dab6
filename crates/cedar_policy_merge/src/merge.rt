//! The merge of other maps into these maps, with new ids for the ids in conflict.
ghost use Rattle.std.specs.Prelude.{◌≡◌, ◌↔◌, ◌&&◌, ◌||◌, ◌++◌, ◌+◌, ◌∷◌, ◌<◌, [], true, false, not, length};
ghost use Rattle.std.specs.Prelude.{if◌then◌else◌, is_some, IfOk};
ghost use Rattle.std.specs.Prelude.{OnErr, OnOk, IfSome, IsTrue, List, ℕ, Some};
ghost use Rattle.std.specs.List.{find, list_any};
ghost use Rattle.std.specs.Map.{lookup, values_of};
ghost use Rattle.std.specs.Option.{option_copied, unwrap_or};
ghost use Rattle.indexmap.specs.IndexSet.{insert_all};
ghost use Rattle.cedar_body.specs.Bodies.{BodyParts, with_id};
ghost use Rattle.cedar_body.specs.BodyEquality.{same_body};
ghost use Rattle.cedar_policy.specs.Policies.{policy_id, static_policy, with_policy_id};
ghost use Rattle.cedar_policy.specs.PolicyEquality.{same_policy};
ghost use Rattle.cedar_ids.specs.Texts.{same_text};
ghost use Rattle.cedar_policy_maps.specs.PolicySets.{AreOnce, bound_at, is_bound, is_body_at};
ghost use Rattle.cedar_policy_merge.specs.Fresh.{is_bound_in_either};
ghost use Rattle.cedar_policy_merge.specs.Merge.{has_body, has_policy};
ghost use Rattle.cedar_policy_merge.specs.Merge.{conflicts, DifferAt, renamed_body, renamed_policy, merged_bodies};
ghost use Rattle.cedar_policy_merge.specs.Merge.{merged_policies, merged, new_id, IsRenaming, MergesSets};
ghost use Rattle.cedar_policy_merge.specs.laws.GatherLaws.{Bodies, Policies, Links, Templates, in_groups};
ghost use Rattle.cedar_policy_merge.specs.laws.GatherLaws.{conflicting_bodies, conflicting_policies};
ghost use Rattle.cedar_policy_merge.specs.laws.LookedAtLaws.{agree, clashes, lies_over};
ghost use Rattle.cedar_policy_merge.specs.laws.MergeInserts.{standing_bodies};
ghost use Rattle.cedar_policy_merge.specs.laws.MergeSteps.{Refuses, with_template_renamed};
ghost use Rattle.cedar_policy_merge.specs.laws.RenamingLaws.{AreFreeHere, is_in};
ghost use Rattle.cedar_policy_merge.specs.laws.MergeLaws.{AreAll};
ghost use Rattle.cedar_policy_merge.specs.laws.SharedLaws.{IsOnBody, IsOnJoined};
ghost use Rattle.cedar_policy_merge.specs.laws.TemplatesAlike.{AllStandUnless, AreSameUnless, StandsUnless};
ghost use Rattle.cedar_policy_maps.specs.Views.{bodies_of};

use crate::cursor_lookup::{Places, body_at, has_body, has_policy, new_body_at, policy_at};
use crate::fresh::fresh_ids;
use crate::places::are_placed_as;
use cedar_binding::same_bindings;
use cedar_ids::policy_id::PolicyID;
use cedar_policy::{LinkingError, Policy, Template};
use cedar_policy_maps::{PolicyMaps, SharedAndNew, is_link, iters};
use cedar_policy_set_errors::err::PolicySetError;
use indexmap::{IndexMap, IndexSet};
use std::alloc::{AllocError, Global};
use std::hash::BuildHasher;
use std::rc::Rc;

/// Merges the maps of another policy set into these. Returns the renamed ids of the other set with their new ids. The
/// other maps do not change.
///
/// An id is in conflict if the two sets bind it differently. If `rename_duplicates` is false, a conflict is an error.
/// Otherwise each conflicting id of the other set is renamed to the next id of `policy0`, `policy1` and so on that
/// neither set uses. The bindings of the other set are appended in their order, under their new ids. If both sets bind
/// an id equally, its value is replaced by the other set's value.
///
/// `PolicySet::merge_policyset` is this function. Its comment describes the order of the new ids and the costs.
///
/// # Errors
///
/// After an error the maps of this set are unchanged.
///
/// - `Occupied`, with the first conflicting id: there is a conflict and `rename_duplicates` is false.
/// - `Memory`: an allocation failed.
///
/// # Complexity
///
/// O(n), where n is the size of the other set. Allocates the copies of the new bindings, and of policies of this set
/// that get new locations. Allocates space in the maps, in the lists of links and for the renamed bindings, and the
/// result.
#[tactic(auto, using(crate::specs::laws::RenamingLaws::once_free, crate::specs::laws::RenamingLaws::none_bound_of, crate::specs::laws::RenamingLaws::numbers_below))]
pub fn merge_maps<S: BuildHasher + Copy>(
    alloc: Global,
    here: &mut PolicyMaps<S>,
    other: &PolicyMaps<S>,
    rename_duplicates: bool,
) -> Result<IndexMap<PolicyID, PolicyID, S>, PolicySetError>
    ensures { MergesSets (λ r. r.entries) result here.old other.now rename_duplicates here.new }
{
    let ids = conflicting_ids(alloc, here, other)?;
    if let Some(id) = refused(&ids, rename_duplicates) {
        return Err(PolicySetError::Occupied { id: id.clone()? });
    }
    let renaming = fresh_ids(alloc, ids, here, other)?;
    store_merged(alloc, here, other, &renaming)?;
    Ok(renaming)
}

// Inserts the bindings of the other set under their new ids. All allocations come before the first change.
fn store_merged<S: BuildHasher + Copy>(
    alloc: Global,
    here: &mut PolicyMaps<S>,
    other: &PolicyMaps<S>,
    renaming: &IndexMap<PolicyID, PolicyID, S>,
) -> Result<(), AllocError>
    requires { IsRenaming here.old other.now renaming.now.entries }
    ensures ok { OnOk result (here.new ≡ merged here.old other.now (new_id renaming.now.entries)) }
    ensures err { OnErr result (here.new ≡ here.old) }
{
    // No effect at run time: these calls show the prover that both maps satisfy the invariant of a policy set.
    let _policy_sets = (here.is_empty(), other.is_empty());
    let bodies = parted_bodies(alloc, here, other, renaming)?;
    let parted = parted_policies(alloc, here, other, renaming, &bodies.join)?;
    let (policies, shares) = parted;
    here.insert_bulk(alloc, bodies, policies)?;
    here.share_templates(shares);
    Ok(())
}

// Returns the first conflicting id, if renaming is not allowed.
fn refused<'a, S: BuildHasher + Copy>(
    ids: &'a IndexSet<PolicyID, S>,
    rename: bool,
) -> Option<&'a PolicyID>
    ensures { Refuses (option_copied result) ids.now.keys rename }
{
    if rename {
        return None;
    }
    ids.iter().next()
}

// Returns the ids in conflict.
#[tactic(auto, using(crate::specs::laws::GatherLaws::conflicts_in_groups))]
fn conflicting_ids<S: BuildHasher + Copy>(
    alloc: Global,
    here: &PolicyMaps<S>,
    other: &PolicyMaps<S>,
) -> Result<IndexSet<PolicyID, S>, AllocError>
    ensures { IfOk result (λ ids. ids.keys ≡ conflicts here.now other.now) }
{
    let mut ids = IndexSet::with_hasher(alloc, *here.hasher());
    gather_all(alloc, &mut ids, here, other)?;
    Ok(ids)
}

// Collects the ids in conflict, in four groups. The bodies and the policies of the other set are scanned once each. Ids
// of the last two groups are kept in a list until their group comes.
fn gather_all<S: BuildHasher + Copy>(
    alloc: Global,
    ids: &mut IndexSet<PolicyID, S>,
    here: &PolicyMaps<S>,
    other: &PolicyMaps<S>,
) -> Result<(), AllocError>
    ensures { OnOk result (ids.new.keys ≡ in_groups ids.old.keys here.now other.now) }
{
    // No effect at run time: these calls show the prover that both maps satisfy the invariant of a policy set.
    let _policy_sets = (here.is_empty(), other.is_empty());
    let mut links = Vec::new(alloc);
    let mut templates = Vec::new(alloc);
    gather_bodies(ids, &mut links, here, other)?;
    gather_policies(ids, &mut templates, here, other)?;
    gather_listed(ids, links)?;
    gather_listed(ids, templates)
}

// Inserts the ids of a list.
fn gather_listed<S: BuildHasher + Copy>(
    ids: &mut IndexSet<PolicyID, S>,
    listed: Vec<PolicyID>,
) -> Result<(), AllocError>
    ensures { OnOk result (ids.new.keys ≡ insert_all same_text ids.old.keys listed.items) }
{
    for id in listed {
        ids.insert(id)?;
    }
    Ok(())
}

// Collects the ids of the other set's bodies that conflict with bodies of this set. Appends to `links` the ids that
// conflict with links of this set.
fn gather_bodies<S: BuildHasher + Copy>(
    ids: &mut IndexSet<PolicyID, S>,
    links: &mut Vec<PolicyID>,
    here: &PolicyMaps<S>,
    other: &PolicyMaps<S>,
) -> Result<(), AllocError>
    ensures ids { OnOk result (ids.new.keys ≡ insert_all same_text ids.old.keys
        (conflicting_bodies Bodies here.now other.now other.now.bodies)) }
    ensures links { OnOk result (links.new.items ≡ links.old.items
        ++ conflicting_bodies Links here.now other.now other.now.bodies) }
{
    // No effect at run time: this call shows the prover that the other maps satisfy the invariant of a policy set.
    let _policy_set = other.is_empty();
    let mut places = Places {
        body: 0,
        policy: 0,
        other: 0,
    };
    for template in other.shared_bodies() {
        gather_body(ids, links, here, other, template, &mut places)?;
    }
    Ok(())
}

// Collects the id of one body as `gather_bodies` does for all of them.
fn gather_body<S: BuildHasher + Copy>(
    ids: &mut IndexSet<PolicyID, S>,
    links: &mut Vec<PolicyID>,
    here: &PolicyMaps<S>,
    other: &PolicyMaps<S>,
    template: &Template,
    places: &mut Places,
) -> Result<(), AllocError>
    requires { find (is_body_at template.now.id) other.now.bodies ≡ Some template.now }
    ensures ids { OnOk result (ids.new.keys ≡ insert_all same_text ids.old.keys
        (conflicting_bodies Bodies here.now other.now (template.now ∷ []))) }
    ensures links { OnOk result (links.new.items ≡ links.old.items
        ++ conflicting_bodies Links here.now other.now (template.now ∷ [])) }
{
    // No effect at run time: these calls show the prover that both maps satisfy the invariant of a policy set.
    let _policy_sets = (here.is_empty(), other.is_empty());
    let own = template.id();
    match body_at(here, own, &mut places.body) {
        None => list_id(links, own, here.has_policy(own)),
        Some(stands) => {
            let clashes = is_different_body(here, other, stands, template, places);
            gather_id(ids, own, clashes)
        }
    }
}

// Collects the ids of the other set's policies that conflict with policies of this set. Appends to `templates` the ids
// that conflict with bodies of this set. The ids of conflicting bodies are already in `ids`.
fn gather_policies<S: BuildHasher + Copy>(
    ids: &mut IndexSet<PolicyID, S>,
    templates: &mut Vec<PolicyID>,
    here: &PolicyMaps<S>,
    other: &PolicyMaps<S>,
) -> Result<(), AllocError>
    requires { AllStandUnless here.now other.now ids.old.keys }
    ensures ids { OnOk result (ids.new.keys ≡ insert_all same_text ids.old.keys
        (conflicting_policies Policies here.now other.now other.now.policies)) }
    ensures templates { OnOk result (templates.new.items ≡ templates.old.items
        ++ conflicting_policies Templates here.now other.now other.now.policies) }
{
    // No effect at run time: these calls show the prover that both maps satisfy the invariant of a policy set.
    let _policy_sets = (here.is_empty(), other.is_empty());
    let mut next = 0;
    for policy in other.policies() {
        gather_policy(ids, templates, here, policy, &mut next)?;
    }
    Ok(())
}

// Collects the id of one policy as `gather_policies` does for all of them.
fn gather_policy<S: BuildHasher + Copy>(
    ids: &mut IndexSet<PolicyID, S>,
    templates: &mut Vec<PolicyID>,
    here: &PolicyMaps<S>,
    policy: &Policy,
    next: &mut usize,
) -> Result<(), AllocError>
    requires { StandsUnless here.now policy.now.template ids.old.keys }
    ensures ids { OnOk result (ids.new.keys ≡ insert_all same_text ids.old.keys
        (if clashes here.now policy.now then policy_id policy.now ∷ [] else [])) }
    ensures templates { OnOk result (templates.new.items ≡ templates.old.items
        ++ (if lies_over here.now policy.now then policy_id policy.now ∷ [] else [])) }
{
    // No effect at run time: this call shows the prover that these maps satisfy the invariant of a policy set.
    let _policy_set = here.is_empty();
    let own = policy.id();
    match policy_at(here, own, next) {
        None => list_id(templates, own, here.has_body(own)),
        Some(stands) => {
            let clashes = is_different_policy(ids, stands, policy);
            gather_id(ids, own, clashes)
        }
    }
}

// Inserts an id, if it is in conflict.
fn gather_id<S: BuildHasher + Copy>(
    ids: &mut IndexSet<PolicyID, S>,
    id: &PolicyID,
    clashes: bool,
) -> Result<(), AllocError>
    ensures { OnOk result (ids.new.keys ≡ insert_all same_text ids.old.keys (if clashes then id.now ∷ [] else [])) }
{
    if clashes {
        ids.insert(id.clone()?)?;
    }
    Ok(())
}

// Appends an id to a list, if it is in conflict.
fn list_id(ids: &mut Vec<PolicyID>, id: &PolicyID, clashes: bool) -> Result<(), AllocError>
    ensures { OnOk result (ids.new.items ≡ ids.old.items ++ (if clashes then id.now ∷ [] else [])) }
{
    if clashes {
        ids.push(id.clone()?)?;
    }
    Ok(())
}

// Returns whether two bodies with one id are bound differently. If both sets have a policy with the id and the bodies
// are equal, both policies are static and equal.
fn is_different_body<S: BuildHasher + Copy>(
    here: &PolicyMaps<S>,
    other: &PolicyMaps<S>,
    stands: &Template,
    template: &Template,
    places: &mut Places,
) -> bool
    ensures { result ≡ (not (same_body stands.now template.now)
        || not (agree (has_policy here.now template.now.id) (has_policy other.now template.now.id))) }
{
    stands != template || !have_policies_alike(here, other, template.id(), places)
}

// Returns whether both sets or neither set have a policy with the id.
fn have_policies_alike<S: BuildHasher + Copy>(
    here: &PolicyMaps<S>,
    other: &PolicyMaps<S>,
    id: &PolicyID,
    places: &mut Places,
) -> bool
    ensures { result ≡ agree (has_policy here.now id.now) (has_policy other.now id.now) }
{
    if has_policy(here, id, &mut places.policy) {
        has_policy(other, id, &mut places.other)
    } else {
        !has_policy(other, id, &mut places.other)
    }
}

// Returns whether two policies with one id are bound differently and one of them is a link. Static policies are
// compared by their bodies.
fn is_different_policy<S: BuildHasher + Copy>(
    ids: &IndexSet<PolicyID, S>,
    stands: &Policy,
    policy: &Policy,
) -> bool
    requires id { policy_id stands.now ≡ policy_id policy.now }
    requires alike { AreSameUnless stands.now.template policy.now.template ids.now.keys }
    ensures { result ≡ ((is_some stands.now.link || is_some policy.now.link)
        && not (same_policy stands.now policy.now)) }
{
    has_link(stands, policy) && !is_same_policy(ids, stands, policy)
}

// Returns whether two policies with one id are equal.
fn is_same_policy<S: BuildHasher + Copy>(
    ids: &IndexSet<PolicyID, S>,
    stands: &Policy,
    policy: &Policy,
) -> bool
    requires id { policy_id stands.now ≡ policy_id policy.now }
    requires alike { AreSameUnless stands.now.template policy.now.template ids.now.keys }
    ensures { result ≡ same_policy stands.now policy.now }
{
    is_same_template(ids, stands.template(), policy.template())
        && have_links_alike(stands, policy)
        && same_bindings(stands.env(), policy.env())
}

// Returns whether two templates are equal. Templates with the same id are equal, unless the id is in `ids`. Only then
// they are compared.
fn is_same_template<S: BuildHasher + Copy>(
    ids: &IndexSet<PolicyID, S>,
    stands: &Template,
    template: &Template,
) -> bool
    requires { AreSameUnless stands.now template.now ids.now.keys }
    ensures { result ≡ same_body stands.now template.now }
{
    if stands.id() != template.id() {
        return false;
    }
    if is_listed_id(ids, template.id()) {
        return stands == template;
    }
    true
}

// Returns whether an id is in the set. Does not hash the id if the set is empty.
fn is_listed_id<S: BuildHasher + Copy>(ids: &IndexSet<PolicyID, S>, id: &PolicyID) -> bool
    ensures { result ≡ is_in id.now ids.now.keys }
{
    if ids.is_empty() {
        return false;
    }
    ids.contains(id)
}

// Returns whether both policies are links or neither is.
fn have_links_alike(stands: &Policy, policy: &Policy) -> bool
    ensures { result ≡ agree (is_some stands.now.link) (is_some policy.now.link) }
{
    if is_link(stands) {
        is_link(policy)
    } else {
        !is_link(policy)
    }
}

// Returns whether one of the two policies is a link.
fn has_link(stands: &Policy, policy: &Policy) -> bool
    ensures { result ≡ (is_some stands.now.link || is_some policy.now.link) }
{
    is_link(stands) || is_link(policy)
}

// Returns the new id of an id, if it is renamed. Does not hash the id if there are no renamed ids.
fn new_of<'a, S: BuildHasher + Copy>(
    renaming: &'a IndexMap<PolicyID, PolicyID, S>,
    id: &PolicyID,
) -> Option<&'a PolicyID>
    ensures { option_copied result ≡ lookup (same_text id.now) renaming.now.entries }
{
    if renaming.is_empty() {
        return None;
    }
    renaming.get(id)
}

// Returns whether this set uses the id of a body of the other set after renaming. This set uses no new id. Bodies are
// checked first, because most ids are found there.
fn is_bound_in_target<S: BuildHasher + Copy>(
    here: &PolicyMaps<S>,
    new: Option<&PolicyID>,
    id: &PolicyID,
    next: &mut usize,
) -> bool
    requires { IfSome (option_copied new) (λ v. is_bound here.now v ≡ false) }
    ensures { result ≡ is_bound here.now (unwrap_or (option_copied new.entry) id.now) }
{
    match new {
        Some(_new) => false,
        None => has_body(here, id, next) || here.has_policy(id),
    }
}

// Returns this set's policy with this id after renaming, and its place. This set uses no new id.
fn policy_in_target<'a, S: BuildHasher + Copy>(
    here: &'a PolicyMaps<S>,
    new: Option<&PolicyID>,
    id: &PolicyID,
    next: &mut usize,
) -> Option<(usize, &'a Policy)>
    requires { IfSome (option_copied new) (λ v. is_bound here.now v ≡ false) }
    ensures { is_some result ≡ has_policy here.now (unwrap_or (option_copied new.entry) id.now) }
{
    match new {
        Some(_new) => None,
        None => here.policy_near(id, next),
    }
}

// Returns whether this set has a body with the id `new` or, if there is no new id, `id`. A new id is never in use in
// this set, so the result is then false.
fn contains_body<S: BuildHasher + Copy>(
    here: &PolicyMaps<S>,
    new: Option<&PolicyID>,
    id: &PolicyID,
) -> bool
    requires { IfSome (option_copied new) (λ v. is_bound here.now v ≡ false) }
    ensures { result ≡ has_body here.now (unwrap_or (option_copied new.entry) id.now) }
{
    match new {
        Some(_unbound) => false,
        None => here.has_body(id),
    }
}

// Appends a value to the existing ones (`stand`) or to the new ones (`join`).
fn part<T: Drop>(parted: &mut SharedAndNew<T>, stands: bool, thing: T) -> Result<(), AllocError>
    ensures stand { OnOk result (parted.new.stand.items
        ≡ parted.old.stand.items ++ (if stands then thing ∷ [] else [])) }
    ensures join { OnOk result (parted.new.join.items ≡ parted.old.join.items
        ++ (if not stands then thing ∷ [] else [])) }
{
    if stands {
        parted.stand.push(thing)?;
    } else {
        parted.join.push(thing)?;
    }
    Ok(())
}

// Splits the bodies of the other set, under their new ids, into existing and new ones.
fn parted_bodies<S: BuildHasher + Copy>(
    alloc: Global,
    here: &PolicyMaps<S>,
    other: &PolicyMaps<S>,
    renaming: &IndexMap<PolicyID, PolicyID, S>,
) -> Result<SharedAndNew<Rc<Template>>, AllocError>
    requires { AreFreeHere here.now renaming.now.entries }
    ensures stand { IfOk result (λ p. bodies_of p.stand.items
        ≡ standing_bodies here.now (new_id renaming.now.entries) other.now.bodies) }
    ensures join { IfOk result (λ p. bodies_of p.join.items
        ≡ merged_bodies here.now (new_id renaming.now.entries) other.now.bodies) }
{
    let mut parted = SharedAndNew::new(alloc);
    part_bodies(alloc, &mut parted, here, other.shared_bodies(), renaming)?;
    Ok(parted)
}

// Splits these bodies, and appends each to the existing or to the new ones.
fn part_bodies<S: BuildHasher + Copy>(
    alloc: Global,
    parted: &mut SharedAndNew<Rc<Template>>,
    here: &PolicyMaps<S>,
    theirs: iters::SharedBodies<'_>,
    renaming: &IndexMap<PolicyID, PolicyID, S>,
) -> Result<(), AllocError>
    requires { AreFreeHere here.now renaming.now.entries }
    ensures stand { OnOk result (bodies_of parted.new.stand.items
        ≡ bodies_of parted.old.stand.items ++ standing_bodies here.now (new_id renaming.now.entries)
        theirs.entry) }
    ensures join { OnOk result (bodies_of parted.new.join.items
        ≡ bodies_of parted.old.join.items ++ merged_bodies here.now (new_id renaming.now.entries)
        theirs.entry) }
{
    let mut next = 0;
    for template in theirs {
        part_body(alloc, parted, here, template, renaming, &mut next)?;
    }
    Ok(())
}

// Appends a body under its new id to the existing or to the new ones.
fn part_body<S: BuildHasher + Copy>(
    alloc: Global,
    parted: &mut SharedAndNew<Rc<Template>>,
    here: &PolicyMaps<S>,
    template: &Rc<Template>,
    renaming: &IndexMap<PolicyID, PolicyID, S>,
    next: &mut usize,
) -> Result<(), AllocError>
    requires { AreFreeHere here.now renaming.now.entries }
    ensures stand { OnOk result (bodies_of parted.new.stand.items
        ≡ bodies_of parted.old.stand.items ++ standing_bodies here.now (new_id renaming.now.entries)
        (template.now.value ∷ [])) }
    ensures join { OnOk result (bodies_of parted.new.join.items
        ≡ bodies_of parted.old.join.items ++ merged_bodies here.now (new_id renaming.now.entries)
        (template.now.value ∷ [])) }
{
    let new = new_of(renaming, template.id());
    let stands = is_bound_in_target(here, new, template.id(), next);
    part(parted, stands, renamed_body(alloc, template, new)?)
}

// Returns a body under its new id, or the shared body itself if it has none.
fn renamed_body(
    alloc: Global,
    template: &Rc<Template>,
    new: Option<&PolicyID>,
) -> Result<Rc<Template>, AllocError>
    ensures { IfOk result (λ t. t.value ≡ with_id (unwrap_or
        (option_copied new.entry) template.now.value.id) template.now.value) }
{
    match new {
        None => template.clone(),
        Some(id) => Ok(Rc::new(alloc, template.new_id(id.clone()?)?)?),
    }
}

// The policies of the other set, split by their effect on this set:
//
// - `policies`: the new policies, and the existing policies whose locations differ.
// - `shares`: the templates of other existing policies, each with the place of its policy in this set.
// - `next` and `joined`: the places to try first, in this set's policies and in the new bodies.
#[derive(Drop)]
struct SharedAndNewPolicies {
    policies: SharedAndNew<Policy>,
    shares: Vec<(usize, Rc<Template>)>,
    next: usize,
    joined: usize,
}

// Renames the policies of the other set, and splits them: policies that this set has too, and policies that are new to
// it.
fn parted_policies<S: BuildHasher + Copy>(
    alloc: Global,
    here: &PolicyMaps<S>,
    other: &PolicyMaps<S>,
    renaming: &IndexMap<PolicyID, PolicyID, S>,
    joined: &[Rc<Template>],
) -> Result<(SharedAndNew<Policy>, Vec<(usize, Rc<Template>)>), AllocError>
    requires free { AreFreeHere here.now renaming.now.entries }
    requires once { AreOnce (λ (t : BodyParts). t.id) (bodies_of joined.now) }
    requires on { AreAll (IsOnJoined (bodies_of joined.now) (new_id renaming.now.entries)) other.now.policies }
    ensures { IfOk result (λ p. p.0.join.items ≡ merged_policies here.now
        (new_id renaming.now.entries) other.now.policies) }
{
    let mut parted = SharedAndNewPolicies {
        policies: SharedAndNew::new(alloc),
        shares: Vec::new(alloc),
        next: 0,
        joined: 0,
    };
    let theirs = other.policies();
    part_policies(alloc, &mut parted, here, theirs, renaming, joined)?;
    Ok((parted.policies, parted.shares))
}

// Splits these policies, one after another.
fn part_policies<S: BuildHasher + Copy>(
    alloc: Global,
    parted: &mut SharedAndNewPolicies,
    here: &PolicyMaps<S>,
    theirs: iters::Policies<'_>,
    renaming: &IndexMap<PolicyID, PolicyID, S>,
    joined: &[Rc<Template>],
) -> Result<(), AllocError>
    requires free { AreFreeHere here.now renaming.now.entries }
    requires once { AreOnce (λ (t : BodyParts). t.id) (bodies_of joined.now) }
    requires on { AreAll (IsOnJoined (bodies_of joined.now) (new_id renaming.now.entries)) theirs }
    ensures { OnOk result (parted.new.policies.join.items ≡ parted.old.policies.join.items
        ++ merged_policies here.now (new_id renaming.now.entries) theirs.entry) }
{
    for policy in theirs {
        part_policy(alloc, parted, here, policy, renaming, joined)?;
    }
    Ok(())
}

// Appends a policy under its new id to the new policies. If this set has an equal policy with the id, it is recorded as
// an existing one.
fn part_policy<S: BuildHasher + Copy>(
    alloc: Global,
    parted: &mut SharedAndNewPolicies,
    here: &PolicyMaps<S>,
    policy: &Policy,
    renaming: &IndexMap<PolicyID, PolicyID, S>,
    joined: &[Rc<Template>],
) -> Result<(), AllocError>
    requires free { AreFreeHere here.now renaming.now.entries }
    requires once { AreOnce (λ (t : BodyParts). t.id) (bodies_of joined.now) }
    requires on { IsOnJoined (bodies_of joined.now) (new_id renaming.now.entries) policy.now }
    ensures { OnOk result (parted.new.policies.join.items ≡ parted.old.policies.join.items
        ++ merged_policies here.now (new_id renaming.now.entries) (policy.now ∷ [])) }
{
    let new = new_of(renaming, policy.id());
    if let Some((place, stands)) = policy_in_target(here, new, policy.id(), &mut parted.next) {
        push_shared(parted, place, stands, policy)?;
        return Ok(());
    }
    if contains_body(here, new, policy.id()) {
        return Ok(());
    }
    let renamed = joining(alloc, policy, new, renaming, joined, &mut parted.joined)?;
    parted.policies.join.push(renamed)?;
    Ok(())
}

// Returns the copy of a policy of the other set that is inserted.
fn joining<S: BuildHasher + Copy>(
    alloc: Global,
    policy: &Policy,
    new: Option<&PolicyID>,
    renaming: &IndexMap<PolicyID, PolicyID, S>,
    joined: &[Rc<Template>],
    next: &mut usize,
) -> Result<Policy, AllocError>
    requires once { AreOnce (λ (t : BodyParts). t.id) (bodies_of joined.now) }
    requires on { IsOnJoined (bodies_of joined.now) (new_id renaming.now.entries) policy.now }
    requires new { unwrap_or (option_copied new) (policy_id policy.now)
        ≡ new_id renaming.now.entries (policy_id policy.now) }
    ensures { IfOk result (λ p. p ≡ renamed_policy (new_id renaming.now.entries) policy.now) }
{
    match on_new_body(alloc, policy, new, joined, next)? {
        None => renamed_policy(alloc, policy, new, renaming),
        Some(shared) => Ok(shared),
    }
}

// Returns a renamed static policy that shares the new body with its new id. Returns nothing for a link, and for a
// policy that is not renamed.
fn on_new_body(
    alloc: Global,
    policy: &Policy,
    new: Option<&PolicyID>,
    joined: &[Rc<Template>],
    next: &mut usize,
) -> Result<Option<Policy>, AllocError>
    requires { AreOnce (λ (t : BodyParts). t.id) (bodies_of joined.now) }
    ensures { IfOk result (λ o. IfSome o (λ p. IsOnBody (option_copied new.entry) (bodies_of joined.now)
        policy.now p)) }
{
    if is_link(policy) {
        return Ok(None);
    }
    match new {
        None => Ok(None),
        Some(id) => match new_body_at(joined, id, next) {
            None => Ok(None),
            Some(template) => {
                let shared = static_on(alloc, template)?;
                Ok(shared)
            }
        },
    }
}

// Records a policy that both sets bind equally. It records a copy of the other set's policy if the locations of bound
// uids differ. Otherwise it records the template, unless the policies share it already.
fn push_shared(
    parted: &mut SharedAndNewPolicies,
    place: usize,
    stands: &Policy,
    policy: &Policy,
) -> Result<(), AllocError>
    ensures { OnOk result (parted.new.policies.join.items ≡ parted.old.policies.join.items) }
{
    if !are_placed_as(stands.env(), policy.env()) {
        parted.policies.stand.push(policy.clone()?)?;
        return Ok(());
    }
    if !Rc::ptr_eq(stands.template_arc(), policy.template_arc()) {
        parted.shares.push((place, policy.template_arc().clone()?))?;
    }
    Ok(())
}

// Returns the static policy of a body, unless the body has slots.
fn static_on(alloc: Global, template: &Rc<Template>) -> Result<Option<Policy>, AllocError>
    ensures { IfOk result (λ o. IfSome o (λ p. p ≡ static_policy template.now.value)) }
{
    match Template::try_as_policy(alloc, template.clone()?) {
        Ok(policy) => Ok(Some(policy)),
        Err(LinkingError::Memory) => Err(AllocError),
        Err(_slots) => Ok(None),
    }
}

// Returns a policy under its new id. A link gets its template under the template's new id.
#[tactic(auto, using(crate::specs::laws::MergeSteps::renamed_twice))]
fn renamed_policy<S: BuildHasher + Copy>(
    alloc: Global,
    policy: &Policy,
    new: Option<&PolicyID>,
    renaming: &IndexMap<PolicyID, PolicyID, S>,
) -> Result<Policy, AllocError>
    requires { unwrap_or (option_copied new) (policy_id policy.now)
        ≡ new_id renaming.now.entries (policy_id policy.now) }
    ensures { IfOk result (λ p. p ≡ renamed_policy (new_id renaming.now.entries) policy.now) }
{
    match on_renamed_template(alloc, policy, renaming)? {
        None => with_new_id(alloc, policy, new),
        Some(renamed) => with_new_id(alloc, &renamed, new),
    }
}

// Returns a policy under its new id, or a copy if it has none.
#[tactic(auto, using(crate::specs::laws::MergeSteps::same_id_kept))]
fn with_new_id(alloc: Global, policy: &Policy, new: Option<&PolicyID>) -> Result<Policy, AllocError>
    ensures { IfOk result (λ p. p ≡ with_policy_id (unwrap_or (option_copied new.entry)
        (policy_id policy.now)) policy.now) }
{
    match new {
        None => policy.clone(),
        Some(id) => policy.new_id(alloc, id.clone()?),
    }
}

// Returns a link with its template under the template's new id. Returns nothing if the template is not renamed, and for
// a static policy.
fn on_renamed_template<S: BuildHasher + Copy>(
    alloc: Global,
    policy: &Policy,
    renaming: &IndexMap<PolicyID, PolicyID, S>,
) -> Result<Option<Policy>, AllocError>
    ensures { IfOk result (λ o. unwrap_or o policy.now
        ≡ with_template_renamed (new_id renaming.now.entries) policy.now) }
{
    if !is_link(policy) {
        return Ok(None);
    }
    match new_of(renaming, policy.template().id()) {
        None => Ok(None),
        Some(id) => {
            let id = id.clone()?;
            policy.clone()?.new_template_id(alloc, id)
        }
    }
}
