//! Deep copies of policy sets. A copy can be sent to another thread.
//!
//! Proved: a copy is equal to its source.
#![tactic(auto)]

mod bindings;
mod bodies;
mod constraints;
pub mod set;

pub use set::deep_copy_set;
