//! The store of entities: creation, addition, overwriting, removal, lookup, comparison and validation.
//!
//! Proved, for any store: the effect of each call. Proved, for entities without indirect ancestors: after each call the
//! store is the plain store of the input store that plain addition, overwriting or deletion results in.
//!
//! The entity itself is in `cedar_entity`; its names are exported here too.
#![tactic(auto, using(cedar_ids::specs::laws::UidOfLaws::same_uid_decides))]

mod default_hasher;
pub mod dereference;
mod edits;
pub mod entities;
mod incoming;
mod lists;
mod same_parents;
pub mod store_iters;
mod store_same;
mod store_text;
mod store_valid;

pub use cedar_entity::{
    Ancestors, EntitiesError, Entity, Keys, Pairs, SharedEntity, SharedUid, SharedUids, UidSet,
    Uids, entity, err, iters, node,
};
pub use dereference::Dereference;
pub use entities::{Entities, TCComputation};
pub use store_iters::{IntoIter, Iter};
