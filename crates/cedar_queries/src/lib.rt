//! Queries of a store: the descendants of a uid, and the shortest path over parents from one uid to another.
//!
//! Proved, for every store: the descendants are exactly the uids of the entities that reach the uid over parents, each
//! once, in ascending order. A path exists exactly if its end is reached, and no path is shorter.
//!
//! Also proved: in a plain store, the descendants of a uid are exactly the entities that have it as an ancestor, and a
//! path exists exactly to an ancestor.
#![tactic(auto, using(cedar_ids::specs::laws::UidOfLaws::same_uid_decides))]

pub mod members;
pub mod paths;
mod search;

pub use members::{descendants, descendants_of_type};
pub use paths::{path, reaches};
