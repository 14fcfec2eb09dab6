//! The policies and templates that name a uid. Before an entity is removed, they tell which policies will mean something
//! else.
//!
//! Proved: the lists contain exactly the policies and templates whose scope constraints, bindings or clause contain the
//! uid, in the order of the set.
#![tactic(auto)]

pub mod naming;

pub use naming::{policies_naming, policy_names, template_names, templates_naming};
