//! Scope constraints: the conditions that a policy places on the principal and on the resource.
//!
//! Equality, order and hash ignore locations. Contracts see references and constraints as values without locations
//! (`specs/Scope.antt`).
//!
//! - `specs/ScopeTrees.antt` specifies the expression of a constraint.
//! - `specs/ScopeTexts.antt` specifies its printed text.
//! - `specs/ScopeReads.antt` specifies its uid and types, and how its slot is filled.
#![tactic(auto)]

pub mod constraint;
pub mod iters;
pub mod on_variable;
pub mod reference;
pub mod variable;

pub use constraint::PrincipalOrResourceConstraint;
pub use on_variable::{
    Principal, PrincipalConstraint, Resource, ResourceConstraint, ScopeVariable, VariableConstraint,
};
pub use reference::EntityReference;
pub use variable::PrincipalOrResource;
