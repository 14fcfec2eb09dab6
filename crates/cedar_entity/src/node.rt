//! Entities as nodes of a graph. The edges are the ancestors, and the direct edges are the parents.
ghost use Rattle.std.specs.Prelude.{◌≡◌, IfOk, OnOk, OnErr, map};
ghost use Rattle.std.specs.FinSet as set;
ghost use Rattle.std.specs.Set.{is_member};
ghost use Rattle.cedar_ids.specs.UidOf.{same_uid};
ghost use Rattle.cedar_ids.specs.declared.entity.EntityUID.{EntityUID};
ghost use Rattle.cedar_entity.specs.View.{has_ancestor};

use crate::entity::Entity;
use crate::iters::Ancestors;
use cedar_graph::TCNode;
use cedar_ids::entity::EntityUID;
use std::alloc::{AllocError, Global};
use std::rc::Rc;

// Collects the remaining items of an iterator.
fn listed<'a>(alloc: Global, uids: Ancestors<'a>) -> Result<Vec<&'a EntityUID>, AllocError>
    ensures { IfOk result (λ v. map (λ x. x.now) v.items ≡ uids.entry) }
{
    uids.collect(alloc)
}

// Removes all indirect ancestors.
pub(crate) fn reset(entity: &mut Entity)
    ensures exact { entity.new ≡ record entity.old { indirect = set.empty } }
    ensures edges { (q : EntityUID) → has_ancestor entity.new q ≡ set.contains entity.old.parents q }
{
    entity.remove_all_indirect_ancestors();
}

impl TCNode<EntityUID> for Entity {
    ghost use Rattle.cedar_ids.specs.declared.entity.EntityUID.{EntityUID};
    ghost use Rattle.std.specs.FinSet as set;
    ghost use Rattle.cedar_entity.specs.View.{EntityView, has_ancestor, Rest, rest, UnchangedParts, unchanged_parts};
    ghost use Rattle.cedar_entity.specs.laws.Views.{ancestors_respect, parents_are_ancestors};
    ghost use Rattle.cedar_entity.specs.laws.Views.{uid_precedes, uid_precedes_respects};

    ghost Rest = { Rest };

    ghost Kept = { UnchangedParts };

    ghost key = { λ e. e.uid };

    ghost edges = { has_ancestor };

    ghost direct = { λ e. set.contains e.parents };

    ghost rest = { rest };

    ghost kept = { unchanged_parts };

    ghost precedes = { uid_precedes };

    /// Returns a copy of the uid.
    ///
    /// # Errors
    ///
    /// Returns `AllocError` if an allocation fails.
    fn get_key(&self, _alloc: Global) -> Result<EntityUID, AllocError> {
        self.uid().clone()
    }

    /// Inserts an indirect ancestor; see [`Entity::add_indirect_ancestor`].
    fn add_edge_to(&mut self, _alloc: Global, k: EntityUID) -> Result<(), AllocError> {
        self.add_indirect_ancestor(k)
    }

    /// Lists the ancestors.
    ///
    /// # Errors
    ///
    /// Returns `AllocError` if an allocation fails.
    fn out_edges(&self, alloc: Global) -> Result<Vec<&EntityUID>, AllocError> {
        listed(alloc, self.ancestors())
    }

    /// Returns whether `k` is an ancestor; see [`Entity::is_descendant_of`].
    fn has_edge_to(&self, k: &EntityUID) -> bool {
        self.is_descendant_of(k)
    }

    /// Returns whether there is an ancestor. Does not allocate.
    fn may_have_edges(&self) -> bool {
        self.has_ancestors()
    }

    /// Removes all indirect ancestors. Never fails. Does not allocate.
    fn reset_edges(&mut self, _alloc: Global) -> Result<(), AllocError>
        ensures exact { self.new ≡ record self.old { indirect = set.empty } }
        ensures ok { OnOk result ((q : _) →
            has_ancestor self.new q ≡ set.contains self.old.parents q) }
        ensures err { OnErr result ((q : _) → has_ancestor self.new q ≡ has_ancestor self.old q) }
        ensures err_kept { OnErr result (unchanged_parts self.new ≡ unchanged_parts self.old) }
        ensures direct { (q : _) →
            set.contains self.new.parents q ≡ set.contains self.old.parents q }
        ensures key { self.new.uid ≡ self.old.uid }
        ensures rest { rest self.new ≡ rest self.old }
    {
        reset(self);
        Ok(())
    }

    /// Lists the parents only.
    ///
    /// # Errors
    ///
    /// Returns `AllocError` if an allocation fails.
    fn direct_edges(&self, alloc: Global) -> Result<Vec<&EntityUID>, AllocError>
        ensures exact { IfOk result (λ v. (q : _) →
            is_member same_uid (map (λ x. x.now) v.items) q ≡ set.contains self.now.parents q) }
    {
        self.parents().collect(alloc)
    }

    ghost respects_eq = { ancestors_respect };

    ghost direct_are_edges = { parents_are_ancestors };

    ghost precedes_respects_eq = { uid_precedes_respects };
}

/// A pointer to an entity, which several stores can share. `clone` copies the pointer. A change first copies the entity
/// if it is shared.
#[derive(Clone, Debug, Drop)]
pub struct SharedEntity(pub Rc<Entity>);

impl TCNode<EntityUID> for SharedEntity {
    ghost use Rattle.cedar_ids.specs.declared.entity.EntityUID.{EntityUID};
    ghost use Rattle.std.specs.FinSet as set;
    ghost use Rattle.cedar_entity.specs.View.{EntityView, has_ancestor, Rest, rest, UnchangedParts, unchanged_parts};
    ghost use Rattle.cedar_entity.specs.laws.Views.{ancestors_respect, parents_are_ancestors};
    ghost use Rattle.cedar_entity.specs.laws.Views.{uid_precedes, uid_precedes_respects};

    ghost Rest = { Rest };

    ghost Kept = { UnchangedParts };

    ghost key = { λ n. n.0.value.uid };

    ghost edges = { λ n. has_ancestor n.0.value };

    ghost direct = { λ n. set.contains n.0.value.parents };

    ghost rest = { λ n. rest n.0.value };

    ghost kept = { λ n. unchanged_parts n.0.value };

    ghost precedes = { uid_precedes };

    /// Returns a copy of the uid.
    ///
    /// # Errors
    ///
    /// Returns `AllocError` if an allocation fails.
    fn get_key(&self, alloc: Global) -> Result<EntityUID, AllocError> {
        self.0.get_key(alloc)
    }

    /// Inserts an indirect ancestor. If the entity is shared, it is copied first.
    fn add_edge_to(&mut self, alloc: Global, k: EntityUID) -> Result<(), AllocError> {
        match Rc::get_mut(&mut self.0) {
            Some(entity) => entity.add_edge_to(alloc, k),
            None => Rc::make_mut(&mut self.0)?.add_edge_to(alloc, k),
        }
    }

    /// Lists the ancestors.
    ///
    /// # Errors
    ///
    /// Returns `AllocError` if an allocation fails.
    fn out_edges(&self, alloc: Global) -> Result<Vec<&EntityUID>, AllocError> {
        self.0.out_edges(alloc)
    }

    /// Returns whether `k` is an ancestor. Does not allocate.
    fn has_edge_to(&self, k: &EntityUID) -> bool {
        self.0.has_edge_to(k)
    }

    /// Returns whether there is an ancestor. Does not allocate.
    fn may_have_edges(&self) -> bool {
        self.0.has_ancestors()
    }

    /// Removes all indirect ancestors. If the entity is shared, it is copied first.
    ///
    /// # Errors
    ///
    /// Returns `AllocError` if the allocation of the copy fails.
    fn reset_edges(&mut self, _alloc: Global) -> Result<(), AllocError>
        ensures exact { OnOk result
            (self.new.0.value ≡ record self.old.0.value { indirect = set.empty }) }
        ensures ok { OnOk result ((q : _) →
            has_ancestor self.new.0.value q ≡ set.contains self.old.0.value.parents q) }
        ensures err { OnErr result ((q : _) →
            has_ancestor self.new.0.value q ≡ has_ancestor self.old.0.value q) }
        ensures err_kept { OnErr result (unchanged_parts self.new.0.value ≡ unchanged_parts self.old.0.value) }
        ensures direct { (q : _) →
            set.contains self.new.0.value.parents q ≡ set.contains self.old.0.value.parents q }
        ensures key { self.new.0.value.uid ≡ self.old.0.value.uid }
        ensures rest { rest self.new.0.value ≡ rest self.old.0.value }
    {
        reset(Rc::make_mut(&mut self.0)?);
        Ok(())
    }

    /// Lists the parents only.
    ///
    /// # Errors
    ///
    /// Returns `AllocError` if an allocation fails.
    fn direct_edges(&self, alloc: Global) -> Result<Vec<&EntityUID>, AllocError>
        ensures exact { IfOk result (λ v. (q : _) → is_member same_uid (map (λ x. x.now) v.items) q
            ≡ set.contains self.now.0.value.parents q) }
    {
        self.0.direct_edges(alloc)
    }

    ghost respects_eq = { λ n. ancestors_respect n.0.value };

    ghost direct_are_edges = { λ n. parents_are_ancestors n.0.value };

    ghost precedes_respects_eq = { uid_precedes_respects };
}
