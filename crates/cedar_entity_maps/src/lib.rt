//! The entity map of a store: the modes of its edits, the entities that an edit affects, their stale ancestors, the
//! index of children, and the finalization of an edit.
//!
//! The `specs` folder defines the input store, the plain store of an input store, and the effect of an edit on an
//! entity map. Proved: the effect of each step. The calls of the store are in `cedar_entities`.
#![tactic(auto, using(cedar_ids::specs::laws::UidOfLaws::same_uid_decides))]

pub mod affected;
pub mod finalize;
pub mod index;
pub mod merging;
pub mod modes;
mod uid_lookup;

pub use modes::TCComputation;
