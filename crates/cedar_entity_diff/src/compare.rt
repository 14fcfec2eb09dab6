//! The comparison of two entities with the same uid: their content, and their ancestors.
ghost use Rattle.std.specs.Prelude.{◌≡◌, ◌&&◌, ◌++◌, ◌∷◌, [], filter, IfOk, OnOk, IsTrue};
ghost use Rattle.std.specs.Cmp.Lexicographic.{pointwise};
ghost use Rattle.std.specs.FinSet as set;
ghost use Rattle.std.specs.List.{list_all};
ghost use Rattle.cedar_uid_sets.specs.UidSets.{same_uids};
ghost use Rattle.cedar_entity.specs.View.{overlap};
ghost use Rattle.cedar_entity.specs.laws.Fields.{field_eq};
ghost use Rattle.cedar_entity_diff.specs.Diffs.{ancestors, same_content};
ghost use Rattle.cedar_entity_diff.specs.laws.Listed.{agree_on, is_no_ancestor};

use cedar_entities::{Entity, Pairs, SharedUid, UidSet, Uids};
use cedar_ids::entity::EntityUID;
use std::alloc::{AllocError, Global};

// Checks whether two iterators return the same keys with the same values in the same order.
fn give_same_pairs(one: Pairs<'_>, mut other: Pairs<'_>) -> bool
    ensures { result ≡ pointwise field_eq one.entry other.entry }
{
    for (key, value) in one {
        match other.next() {
            None => return false,
            Some((next_key, next_value)) => {
                if key != next_key || value != next_value {
                    return false;
                }
            }
        }
    }
    other.next().is_none()
}

// Checks whether both have the same attributes and tags.
fn have_same_fields(one: &Entity, other: &Entity) -> bool
    ensures { result ≡ (pointwise field_eq one.now.attrs other.now.attrs
        && pointwise field_eq one.now.tags other.now.tags) }
{
    give_same_pairs(one.attrs(), other.attrs()) && give_same_pairs(one.tags(), other.tags())
}

// Checks whether a parent of an entity is a parent of the other, and an indirect ancestor of both or of neither.
fn agree_on(one: &Entity, other: &Entity, parent: &EntityUID) -> bool
    ensures { result ≡ agree_on one.now other.now parent.now }
{
    other.is_child_of(parent)
        && one.is_indirect_descendant_of(parent) == other.is_indirect_descendant_of(parent)
}

// Checks whether two entities agree on all of some parents.
fn agree_on_all(one: &Entity, other: &Entity, parents: Uids<'_>) -> bool
    ensures { result ≡ list_all (agree_on one.now other.now) parents.entry }
{
    for parent in parents {
        if !agree_on(one, other, parent) {
            return false;
        }
    }
    true
}

// Checks whether both have the same parents, and the same parents that are also indirect ancestors.
fn have_same_parents(one: &Entity, other: &Entity) -> bool
    ensures { result ≡ (same_uids one.now.parents other.now.parents
        && same_uids (overlap one.now) (overlap other.now)) }
{
    let parents = one.parents();
    let others = other.parents();
    agree_on_all(one, other, parents) && agree_on_all(other, one, others)
}

// Checks whether both have the same content.
pub(crate) fn have_same_content(one: &Entity, other: &Entity) -> bool
    ensures { result ≡ same_content one.now other.now }
{
    have_same_fields(one, other) && have_same_parents(one, other)
}

// Returns `true` only if the entities are equal in everything.
pub(crate) fn are_equal(one: &Entity, other: &Entity) -> bool
    ensures { IsTrue result → one.now ≡ other.now }
{
    one.deep_eq(other) && have_same_parents(one, other)
}

// Appends a uid, unless it is an ancestor of the entity.
fn push_unless_ancestor(
    uids: &mut Vec<SharedUid>,
    uid: &SharedUid,
    entity: &Entity,
) -> Result<(), AllocError>
    ensures { OnOk result (uids.new.items ≡ uids.old.items ++ filter (is_no_ancestor entity.now) (uid.now ∷ [])) }
{
    if !entity.is_descendant_of_shared(uid) {
        uids.push(uid.clone()?)?;
    }
    Ok(())
}

// Returns the ancestors of an entity that the other does not have.
pub(crate) fn ancestors_without(
    alloc: Global,
    entity: &Entity,
    other: &Entity,
) -> Result<UidSet, AllocError>
    ensures { IfOk result (λ s. s ≡ set.difference (ancestors entity.now) (ancestors other.now)) }
{
    let mut uids = Vec::new(alloc);
    for uid in entity.shared_ancestors() {
        push_unless_ancestor(&mut uids, uid, other)?;
    }
    UidSet::from_pointers(uids)
}
