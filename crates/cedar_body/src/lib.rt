//! Bodies of policies and templates: an id, annotations, an effect, three scope constraints and an optional clause.
//!
//! Equality and hash ignore locations. Contracts see a body as a value without locations.
//!
//! - `specs/Bodies.antt` specifies the parts of a body, its condition and its slots. The condition is one expression of
//!   the constraints and the clause.
//! - `specs/BodyTexts.antt` specifies how a body is printed.
//!
//! Templates and policies build on this crate.
#![tactic(auto)]

pub mod body;
pub mod effect;

pub use body::{TemplateBody, TemplateBodyImpl};
pub use effect::Effect;
