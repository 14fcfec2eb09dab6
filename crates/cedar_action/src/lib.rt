//! Action constraints: the conditions that a policy places on the action.
//!
//! Equality, order and hash ignore locations. Contracts see a constraint as a rule without locations
//! (`specs/Rules.antt`).
//!
//! - `specs/RuleTrees.antt` specifies the expression of a rule.
//! - `specs/RuleTexts.antt` specifies its printed text.
//! - `specs/RuleReads.antt` specifies its uids.
#![tactic(auto)]

pub mod action;
pub mod iters;

pub use action::{ActionConstraint, ActionTypesError};
pub use iters::EntityIterator;
