//! Entities from the lists of a caller: uids, and edges to parents.
ghost use Rattle.std.specs.Prelude.{◌≡◌, ◌<◌, ◌≤◌, ◌⊎◌, List, [], ◌∷◌, ◌++◌, IfOk, IfErr, MatchResult, OnOk, Some};
ghost use Rattle.std.specs.Prelude.{length, map, slice_get, take};
ghost use Rattle.cedar_ids.specs.declared.entity.EntityUID.{EntityUID};
ghost use Rattle.cedar_entity_maps.specs.Plain.{entities_in};
ghost use Rattle.cedar_c_stores.specs.Lists.{AreEdgesOf, AreListed, IsMode, IsNoMode, IsUnlisted, with_parents};
ghost use Rattle.cedar_c_stores.specs.laws.Listed.{IsGathered, IsSomeEdgeOut, IsUngathered, listed_from, with_edge};
ghost use Rattle.cedar_c_lists.specs.declared.reason.Reason.TheVariants.{BadArgument, NoMemory};

use crate::known::Known;
use cedar_c_lists::{Edge, Reason, Span};
use cedar_entities::{Entity, TCComputation};
use cedar_ids::entity::EntityUID;
use cedar_uid_sets::SharedUid;
use std::alloc::{AllocError, Global};
use std::marker::Model;
use std::rc::Rc;

// Returns the mode of a number, or `BadArgument` if there is none.
pub(crate) fn mode_of(number: u32) -> Result<TCComputation, Reason>
    ensures { MatchResult result (IsMode number) (IsNoMode number) }
{
    match number {
        0 => Ok(TCComputation::ComputeNow),
        1 => Ok(TCComputation::EnforceAlreadyComputed),
        2 => Ok(TCComputation::AssumeAlreadyComputed),
        _ => Err(Reason::BadArgument),
    }
}

// Wraps uids for sharing.
pub(crate) fn shared_all(alloc: Global, uids: Vec<EntityUID>) -> Result<Vec<SharedUid>, AllocError>
    ensures { IfOk result (λ v. v.items ≡ uids.items) }
{
    let mut shared = Vec::new(alloc);
    for uid in uids {
        shared.push(SharedUid::new(alloc, uid)?)?;
    }
    Ok(shared)
}

// The uid of an entity, and the parents that were collected for it. Contracts see the pair.
#[derive(Drop)]
pub(crate) struct Listed {
    uid: SharedUid,
    parents: Vec<SharedUid>,
}

impl Model for Listed {
    ghost use Rattle.std.specs.Prelude.{List};
    ghost use Rattle.std.specs.Coded.{coded×, coded_list};
    ghost use Rattle.cedar_ids.specs.Codes.{uid_code};
    ghost use Rattle.cedar_ids.specs.declared.entity.EntityUID.{EntityUID};

    ghost Value = { EntityUID × List EntityUID };

    ghost coded = { coded× uid_code (coded_list uid_code) };

    ghost view = { λ l. (l.uid, l.parents.items) };
}

impl Listed {
    // Creates the pair of a uid and no parents.
    fn new(alloc: Global, uid: &SharedUid) -> Result<Listed, AllocError>
        ensures { IfOk result (λ l. l ≡ (uid.now, [])) }
    {
        Ok(Listed {
            uid: uid.clone()?,
            parents: Vec::new(alloc),
        })
    }

    // Appends a parent.
    fn add(&mut self, parent: SharedUid) -> Result<(), AllocError>
        ensures { OnOk result (self.new ≡ (self.old.0, self.old.1 ++ parent ∷ [])) }
    {
        self.parents.push(parent)?;
        Ok(())
    }

    // Returns the uid and the parents.
    pub(crate) fn into_parts(self) -> (SharedUid, Vec<SharedUid>)
        ensures uid { result.0 ≡ self.0 }
        ensures parents { result.1.items ≡ self.1 }
    {
        let Listed { uid, parents } = self;
        (uid, parents)
    }

    // Creates the entity with this uid and these parents.
    fn into_entity(self, alloc: Global) -> Result<Rc<Entity>, AllocError>
        ensures { IfOk result (λ e. e.value ≡ with_parents self.0 self.1) }
    {
        let Listed { uid, parents } = self;
        let entity = Entity::with_shared_parents(alloc, uid.into_uid()?, parents)?;
        Ok(Rc::new(alloc, entity)?)
    }
}

// Returns the uids, each without parents.
pub(crate) fn without_parents(alloc: Global, uids: &[SharedUid]) -> Result<Vec<Listed>, AllocError>
    ensures { IfOk result (λ v. v.items ≡ map (λ u. (u, [])) uids.now) }
{
    let mut listed = Vec::new(alloc);
    for uid in uids {
        listed.push(Listed::new(alloc, uid)?)?;
    }
    Ok(listed)
}

// Appends a parent to the item at a position. Returns `BadArgument` if there is none.
fn push_parent_at(listed: &mut Vec<Listed>, place: usize, parent: SharedUid) -> Result<(), Reason>
    ensures ok { OnOk result ((place < length listed.old.items)
        × (listed.new.items ≡ with_edge place parent listed.old.items)) }
    ensures err { IfErr result (λ w. (w ≡ NoMemory) ⊎ ((w ≡ BadArgument) × (length listed.old.items ≤ place))) }
{
    let Some(one) = listed.get_mut(place) else {
        return Err(Reason::BadArgument);
    };
    one.add(parent)?;
    Ok(())
}

// Returns the shared uid at a position, or `BadArgument` if there is none.
pub(crate) fn uid_in(uids: &[SharedUid], place: usize) -> Result<SharedUid, Reason>
    ensures { MatchResult result (λ u. slice_get uids.now place ≡ Some u)
        (λ w. (w ≡ NoMemory) ⊎ ((w ≡ BadArgument) × (length uids.now ≤ place))) }
{
    let Some(uid) = uids.get(place) else {
        return Err(Reason::BadArgument);
    };
    Ok(uid.clone()?)
}

// Appends the target of each edge to the parents of its source.
pub(crate) fn push_parents(
    listed: &mut Vec<Listed>,
    uids: &[SharedUid],
    edges: &[Edge],
) -> Result<(), Reason>
    ensures ok { OnOk result ((us : List EntityUID) → listed.old.items ≡ listed_from uids.now [] 0 us →
        listed.new.items ≡ listed_from uids.now edges.now 0 us) }
    ensures range { OnOk result (AreEdgesOf (length listed.old.items) (length uids.now) edges.now) }
    ensures err { IfErr result (IsSomeEdgeOut (length listed.old.items) (length uids.now) edges.now) }
{
    for edge in edges {
        let parent = uid_in(uids, edge.to)?;
        push_parent_at(listed, edge.from, parent)?;
    }
    Ok(())
}

// Creates an entity from each item.
fn entities_with(alloc: Global, listed: Vec<Listed>) -> Result<Vec<Rc<Entity>>, AllocError>
    ensures { IfOk result (λ v. entities_in v.items ≡ map (λ p. with_parents p.0 p.1) listed.items) }
{
    let mut list = Vec::new(alloc);
    for one in listed {
        list.push(one.into_entity(alloc)?)?;
    }
    Ok(list)
}

// Returns the first `count` uids, or `BadArgument` if there are fewer.
pub(crate) fn first_of(uids: &[SharedUid], count: usize) -> Result<&[SharedUid], Reason>
    ensures { MatchResult result (λ f. (count ≤ length uids.now) × (f.now ≡ take count uids.now))
        (λ w. (w ≡ BadArgument) × (length uids.now < count)) }
{
    match uids.get(..count) {
        Some(first) => Ok(first),
        None => Err(Reason::BadArgument),
    }
}

// Creates entities with the first `count` uids, and with the parents in the edges.
fn gathered(
    alloc: Global,
    uids: &[SharedUid],
    count: usize,
    edges: &[Edge],
) -> Result<Vec<Rc<Entity>>, Reason>
    ensures { MatchResult result (λ v. IsGathered uids.now count edges.now (entities_in v.items))
        (IsUngathered (length uids.now) count edges.now) }
{
    let first = first_of(uids, count)?;
    let mut listed = without_parents(alloc, first)?;
    match push_parents(&mut listed, uids, edges) {
        Ok(()) => Ok(entities_with(alloc, listed)?),
        Err(reason) => Err(reason),
    }
}

// Creates entities with the first `count` of the uids in parts of a text. The parents of an entity are the targets of
// the edges from its position.
//
// Returns `BadArgument` if a part is not within the text, if there are fewer parts than entities, or if an edge is out
// of range, and `NotAUid` if a part is not the text of a uid. Parses each part once, and does not parse known types
// again. Reads the edges once, and sorts the parents of each entity.
pub(crate) fn entities_of(
    alloc: Global,
    known: &mut Known,
    text: &[u8],
    spans: &[Span],
    count: usize,
    edges: &[Edge],
) -> Result<Vec<Rc<Entity>>, Reason>
    ensures { MatchResult result
        (λ v. AreListed text.now spans.now count edges.now (entities_in v.items))
        (IsUnlisted text.now spans.now count edges.now) }
{
    let uids = shared_all(alloc, known.uids_of(alloc, text, spans)?)?;
    match gathered(alloc, &uids, count, edges) {
        Ok(list) => Ok(list),
        Err(reason) => Err(reason),
    }
}
