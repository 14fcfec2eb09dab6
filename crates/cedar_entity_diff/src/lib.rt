//! The difference of two stores, and what an edit of a store would change.
//!
//! Proved, for any two stores: the difference has exactly the entities that only one store has, the entities whose
//! content differs, and for each entity in both the ancestors gained and lost. Each list is in ascending order of uid.
//! The difference of a store and itself is empty. Applied to the first store, the difference leads to the second.
//!
//! Also proved: the difference that an edit would make is the difference of the store and a store that the edit can
//! leave. Otherwise the result is an error that the edit can have.
#![tactic(auto, using(cedar_ids::specs::laws::UidOfLaws::same_uid_decides))]

mod compare;
mod differing;
mod parts;
pub mod store_diff;
pub mod would_change;

pub use store_diff::{AncestryChange, ContentChange, StoreDiff, diff};
pub use would_change::{would_change_by_add, would_change_by_remove, would_change_by_upsert};
