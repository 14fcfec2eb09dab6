//! The difference of two policy sets: which policies and templates are removed, added and changed, and which links have
//! a template that changed.
//!
//! Proved: each list contains exactly the policies or templates that it is to contain, in the order of a set. The
//! difference applied to the first set gives the second. The difference is empty exactly if the sets have the same
//! content. See `specs/Diff.antt`.
#![tactic(auto)]

mod changes;
pub mod policy_set_diff;

pub use policy_set_diff::{PolicySetDiff, diff_policy_sets};
