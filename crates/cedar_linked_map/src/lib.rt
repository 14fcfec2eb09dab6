//! A map and a set in insertion order. A removal takes constant time and keeps the order of the other entries.
//!
//! The entries are in a table. Each entry has the places of the previous and of the next entry in the order. A removal
//! moves the last entry of the table into the gap, and repairs four links. `IndexMap::shift_remove` moves all later
//! entries instead.
//!
//! Contracts see a map as the record of an `IndexMap`, and a set as the record of an `IndexSet`. The clauses are those
//! of `indexmap`. `specs/Linked.antt` defines the order and the invariant of the links.
#![tactic(auto)]

mod chain;
mod iter;
mod map;
mod set;
mod traits;

pub use iter::{IntoValues, Iter, Keys, Values};
pub use map::LinkedMap;
pub use set::LinkedSet;
