//! A single entity: its content, comparison, validity and text form, and its role as a node of a graph.
//!
//! Proved: the effect of each accessor and each change of [`Entity`] on a uid, two lists of fields with ascending keys,
//! and two sets of uids. Also proved: `validate` reports the first fault in its stated order. [`Entity`] and
//! [`SharedEntity`] are lawful nodes whose edges are the ancestors.
//!
//! The crate `cedar_entities` provides the store of entities.
#![tactic(auto, using(cedar_ids::specs::laws::UidOfLaws::same_uid_decides))]

pub mod entity;
mod entity_text;
pub mod err;
mod fault;
pub mod iters;
mod least;
pub mod node;
mod reserved;
mod rows;
mod shared_node;

pub use cedar_uid_sets::{SharedUid, UidSet, Uids};
pub use entity::Entity;
pub use err::EntitiesError;
pub use iters::{Ancestors, Keys, Pairs, SharedUids};
pub use node::SharedEntity;
