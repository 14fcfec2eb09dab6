//! The parts of entities as they are collected: parents, indirect ancestors, attributes and tags.
ghost use Rattle.std.specs.Prelude.{◌≡◌, ◌<◌, ◌≤◌, ◌⊎◌, IfErr, IfOk, length, map, MatchResult, OnOk, string_bytes};
ghost use Rattle.std.specs.FinSet as set;
ghost use Rattle.std.specs.List.{AllZip};
ghost use Rattle.cedar_entity_maps.specs.Plain.{entities_in};
ghost use Rattle.cedar_entity.specs.Fields.{fields_of};
ghost use Rattle.cedar_c_stores.specs.Contents.{IsEntityOf, nodes_of};
ghost use Rattle.cedar_c_stores.specs.laws.Listed.{IsSomeEdgeOut, IsUngathered};
ghost use Rattle.cedar_c_stores.specs.laws.Rows.{AreFirst, changed_at, HasFields, IsNoValueOf, IsSomeTermOut};
ghost use Rattle.cedar_c_stores.specs.laws.Rows.{IsTermOut, IsValueOf, PutsAbove, PutsTerm, PutsTerms};
ghost use Rattle.cedar_c_stores.specs.laws.Rows.{said_of, with_above, with_field, HasNodes};
ghost use Rattle.cedar_c_lists.specs.declared.reason.Reason.TheVariants.{BadArgument, NoMemory};

use crate::content::Term;
use crate::keys::key_at;
use crate::listing::{Listed, first_of, push_parents, uid_in, without_parents};
use cedar_c_lists::{Edge, Reason};
use cedar_c_trees::{Node, partial_value_of};
use cedar_entities::Entity;
use cedar_ids::entity::EntityUID;
use cedar_terms::PartialValue;
use cedar_uid_sets::{SharedUid, UidSet};
use std::alloc::{AllocError, Global};
use std::collections::HashSet;
use std::marker::Model;
use std::rc::Rc;

// The parts of an entity. Contracts see them as `EntityParts`.
#[derive(Drop)]
pub(crate) struct Row {
    uid: SharedUid,
    parents: Vec<SharedUid>,
    above: Vec<SharedUid>,
    attrs: Vec<(String, PartialValue)>,
    tags: Vec<(String, PartialValue)>,
}

impl Model for Row {
    ghost use Rattle.cedar_entity.specs.Fields.{fields_of};
    ghost use Rattle.cedar_c_stores.specs.Contents.{EntityParts};
    ghost use Rattle.cedar_c_stores.specs.laws.Rows.{said_code};

    ghost Value = { EntityParts };

    ghost coded = { said_code };

    ghost view = { λ r. record {
      uid = r.uid;
      parents = r.parents.items;
      above = r.above.items;
      attrs = fields_of r.attrs.items;
      tags = fields_of r.tags.items;
    } };
}

// Creates an entity with a uid, attributes and tags, and without ancestors.
fn with_fields(
    alloc: Global,
    uid: EntityUID,
    attrs: Vec<(String, PartialValue)>,
    tags: Vec<(String, PartialValue)>,
) -> Result<Entity, AllocError>
    ensures { IfOk result (HasFields uid (fields_of attrs.items) (fields_of tags.items)) }
{
    let above = HashSet::new(alloc);
    let parents = HashSet::new(alloc);
    let entity = Entity::new_with_attr_partial_value(alloc, uid, attrs, above, parents, tags)?;
    Ok(entity)
}

// Adds shared parents to an entity without ancestors. Adds them in ascending order, so each is appended.
fn add_parents(entity: &mut Entity, parents: Vec<SharedUid>) -> Result<(), AllocError>
    requires parents { entity.old.parents ≡ set.empty }
    requires indirect { entity.old.indirect ≡ set.empty }
    ensures { OnOk result (entity.new ≡ record entity.old { parents = set.from_list parents.items }) }
{
    let ascending = UidSet::from_pointers(parents)?.into_pointers();
    for parent in ascending {
        entity.add_shared_parent(parent)?;
    }
    Ok(())
}

// Adds shared indirect ancestors to an entity without indirect ancestors. Parents are skipped.
fn insert_indirect(entity: &mut Entity, above: Vec<SharedUid>) -> Result<(), AllocError>
    requires { entity.old.indirect ≡ set.empty }
    ensures { OnOk result (entity.new ≡ record entity.old {
      indirect = set.difference (set.from_list above.items) entity.old.parents;
    }) }
{
    entity.add_shared_ancestors(above)?;
    Ok(())
}

impl Row {
    // Creates the parts of an entity that has only a uid and parents.
    fn of(alloc: Global, listed: Listed) -> Row
        ensures { result ≡ said_of listed }
    {
        let (uid, parents) = listed.into_parts();
        Row {
            uid,
            parents,
            above: Vec::new(alloc),
            attrs: Vec::new(alloc),
            tags: Vec::new(alloc),
        }
    }

    // Appends an indirect ancestor.
    fn insert_indirect(&mut self, uid: SharedUid) -> Result<(), AllocError>
        ensures { OnOk result (self.new ≡ with_above uid self.old) }
    {
        self.above.push(uid)?;
        Ok(())
    }

    // Appends an attribute (`part` 0) or a tag (`part` 1).
    fn add_field(&mut self, part: u32, key: String, value: PartialValue) -> Result<(), Reason>
        ensures ok { OnOk result ((part ≤ 1) × (self.new ≡ with_field part (string_bytes key) value self.old)) }
        ensures err { IfErr result (λ w. (w ≡ NoMemory) ⊎ ((w ≡ BadArgument) × (1 < part))) }
    {
        match part {
            0 => {
                self.attrs.push((key, value))?;
                Ok(())
            }
            1 => {
                self.tags.push((key, value))?;
                Ok(())
            }
            _ => Err(Reason::BadArgument),
        }
    }

    // Creates the entity with these parts.
    fn into_entity(self, alloc: Global) -> Result<Rc<Entity>, AllocError>
        ensures { IfOk result (λ e. IsEntityOf self e.value) }
    {
        let Row {
            uid,
            parents,
            above,
            attrs,
            tags,
        } = self;
        let mut entity = with_fields(alloc, uid.into_uid()?, attrs, tags)?;
        add_parents(&mut entity, parents)?;
        insert_indirect(&mut entity, above)?;
        Ok(Rc::new(alloc, entity)?)
    }
}

// Creates the parts of entities that have only uids and parents.
fn rows_of(alloc: Global, listed: Vec<Listed>) -> Result<Vec<Row>, AllocError>
    ensures { IfOk result (λ v. v.items ≡ map said_of listed.items) }
{
    let mut rows = Vec::new(alloc);
    for one in listed {
        rows.push(Row::of(alloc, one))?;
    }
    Ok(rows)
}

// Creates the parts of entities with the first `count` uids, and with the parents in the edges.
pub(crate) fn first_rows(
    alloc: Global,
    uids: &[SharedUid],
    count: usize,
    edges: &[Edge],
) -> Result<Vec<Row>, Reason>
    ensures { MatchResult result (λ v. AreFirst uids.now count edges.now v.items)
        (IsUngathered (length uids.now) count edges.now) }
{
    let first = first_of(uids, count)?;
    let mut listed = without_parents(alloc, first)?;
    match push_parents(&mut listed, uids, edges) {
        Ok(()) => Ok(rows_of(alloc, listed)?),
        Err(reason) => Err(reason),
    }
}

// Appends an indirect ancestor to the row at a position. Returns `BadArgument` if there is none.
fn push_ancestor_at(rows: &mut Vec<Row>, place: usize, uid: SharedUid) -> Result<(), Reason>
    ensures ok { OnOk result ((place < length rows.old.items)
        × (rows.new.items ≡ changed_at place (with_above uid) rows.old.items)) }
    ensures err { IfErr result (λ w. (w ≡ NoMemory) ⊎ ((w ≡ BadArgument) × (length rows.old.items ≤ place))) }
{
    let Some(row) = rows.get_mut(place) else {
        return Err(Reason::BadArgument);
    };
    row.insert_indirect(uid)?;
    Ok(())
}

// Appends the target of each edge to the indirect ancestors of its source.
pub(crate) fn push_ancestors_of_rows(
    rows: &mut Vec<Row>,
    uids: &[SharedUid],
    edges: &[Edge],
) -> Result<(), Reason>
    ensures ok { OnOk result (PutsAbove uids.now edges.now rows.old.items rows.new.items) }
    ensures err { IfErr result (IsSomeEdgeOut (length rows.old.items) (length uids.now) edges.now) }
{
    for edge in edges {
        let uid = uid_in(uids, edge.to)?;
        push_ancestor_at(rows, edge.from, uid)?;
    }
    Ok(())
}

// Appends an attribute or tag to the row of a term. Returns `BadArgument` if there is no such row or part.
fn push_field_at(
    rows: &mut Vec<Row>,
    term: &Term,
    key: String,
    value: PartialValue,
) -> Result<(), Reason>
    ensures ok { OnOk result ((term.now.of < length rows.old.items) × (term.now.part ≤ 1)
        × (rows.new.items ≡ changed_at term.now.of (with_field term.now.part (string_bytes key) value)
        rows.old.items)) }
    ensures err { IfErr result (λ w. (w ≡ NoMemory) ⊎ ((w ≡ BadArgument)
        × ((length rows.old.items ≤ term.now.of) ⊎ (1 < term.now.part)))) }
{
    let Some(row) = rows.get_mut(term.of) else {
        return Err(Reason::BadArgument);
    };
    match row.add_field(term.part, key, value) {
        Ok(()) => Ok(()),
        Err(reason) => Err(reason),
    }
}

// Returns the nodes of a term, or `BadArgument` if they are out of range.
fn nodes_at<'a>(nodes: &'a [Node], term: &Term) -> Result<&'a [Node], Reason>
    ensures { MatchResult result (λ found. HasNodes nodes.now term.now × (found.now ≡ nodes_of nodes.now term.now))
        (λ w. (w ≡ BadArgument) × (HasNodes nodes.now term.now → ⊥)) }
{
    match nodes.get(term.from..term.to) {
        Some(found) => Ok(found),
        None => Err(Reason::BadArgument),
    }
}

// Decodes the value of a term.
fn value_at(alloc: Global, text: &[u8], nodes: &[Node], term: &Term) -> Result<PartialValue, Reason>
    ensures { MatchResult result (IsValueOf text.now nodes.now term.now) (IsNoValueOf text.now nodes.now term.now) }
{
    match nodes_at(nodes, term) {
        Ok(found) => partial_value_of(alloc, text, found),
        Err(reason) => Err(reason),
    }
}

// Adds the attribute or tag of a term to its row.
fn push_term(
    alloc: Global,
    rows: &mut Vec<Row>,
    text: &[u8],
    nodes: &[Node],
    term: &Term,
) -> Result<(), Reason>
    ensures ok { OnOk result (PutsTerm text.now nodes.now term.now rows.old.items rows.new.items) }
    ensures err { IfErr result (IsTermOut text.now nodes.now (length rows.old.items) term.now) }
{
    let key = key_at(alloc, text, term.key)?;
    let value = value_at(alloc, text, nodes, term)?;
    match push_field_at(rows, term, key, value) {
        Ok(()) => Ok(()),
        Err(reason) => Err(reason),
    }
}

// Adds the attributes and tags of terms to their rows.
pub(crate) fn push_terms(
    alloc: Global,
    rows: &mut Vec<Row>,
    text: &[u8],
    nodes: &[Node],
    terms: &[Term],
) -> Result<(), Reason>
    ensures ok { OnOk result (PutsTerms text.now nodes.now terms.now rows.old.items rows.new.items) }
    ensures err { IfErr result (IsSomeTermOut text.now nodes.now (length rows.old.items) terms.now) }
{
    for term in terms {
        push_term(alloc, rows, text, nodes, term)?;
    }
    Ok(())
}

// Creates an entity from each row.
pub(crate) fn entities_of_rows(alloc: Global, rows: Vec<Row>) -> Result<Vec<Rc<Entity>>, AllocError>
    ensures { IfOk result (λ v. AllZip IsEntityOf rows.items (entities_in v.items)) }
{
    let mut list = Vec::new(alloc);
    for row in rows {
        list.push(row.into_entity(alloc)?)?;
    }
    Ok(list)
}
