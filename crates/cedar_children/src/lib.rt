//! An index of children: for each parent, the entities that have it as a parent. A search for all descendants of some
//! uids reads nothing else.
//!
//! Proved: the children of each parent after each call, and that the search finds exactly the descendants.
#![tactic(auto, using(cedar_ids::specs::laws::UidOfLaws::same_uid_decides))]

pub mod children;
mod walk;

pub use children::Children;
pub use walk::listed;
