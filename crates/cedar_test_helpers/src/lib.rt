//! Helpers for tests that several crates use. An implicit drop of a large value is expensive to prove. So each helper
//! drops its arguments explicitly, on each path.
#![tactic(auto)]

pub mod creation;
pub mod results;
pub mod rows;
