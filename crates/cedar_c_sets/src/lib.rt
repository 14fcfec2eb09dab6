//! The calls of the C library on a policy set. The state of a set includes the texts of its last result and of its last
//! error. Policies, templates and bindings are built from the caller's data. The crate `cedar_c_bodies` decodes bodies.
//! This crate does not depend on handles.
#![tactic(auto)]

mod body_calls;
mod clauses;
mod deep_copies;
mod error_text;
mod making;
mod naming;
mod reads;
mod scopes;
pub mod set_state;
mod unknowns;
mod validity;

pub use set_state::SetState;
