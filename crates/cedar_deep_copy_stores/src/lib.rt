//! Deep copies of entities and stores. A copy shares nothing with its source, so it can be sent to another thread.
//!
//! Each copy is equal to its source. The copy of the plain store of an input store is the plain store of that input
//! store, and the copy of a store that is known to be plain is known to be plain. These facts are proved.
#![tactic(auto, using(cedar_ids::specs::laws::UidOfLaws::same_uid_decides))]

pub mod entity;
mod parts;
pub mod store;
mod unshared;

pub use entity::deep_copy_entity;
pub use store::deep_copy_entities;
