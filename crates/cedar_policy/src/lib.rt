//! Templates, static policies and links.
//!
//! A template is a body with the slots of its condition. A static policy is a body without slots. A policy is a
//! template with a uid for each of its slots.
//!
//! Contracts see a template and a static policy as the parts of their body. Contracts see a policy as its template, its
//! own id if it is a link, and its bindings (`specs/Policies.antt`). Contracts see no locations.
//!
//! - `specs/Links.antt` specifies linking.
//! - `specs/Statics.antt` specifies the creation of static policies.
//! - `specs/Validation.antt` specifies validation.
//! - `specs/Unknowns.antt` specifies the unknown entities of a policy.
//! - `specs/PolicyTexts.antt` specifies how policies are printed.
//!
//! This crate re-exports the names of the crates for bodies and bindings.
#![tactic(auto)]

pub mod err;
pub mod policy;
pub mod slots;
pub mod static_policy;
pub mod template;
pub mod unknowns;
pub mod validate;

pub use cedar_binding::{LinkingError, SlotEnv};
pub use cedar_body::{Effect, TemplateBody, TemplateBodyImpl};
pub use err::{TemplateValidationError, UnexpectedSlotError};
pub use policy::{Policy, share_template};
pub use slots::Slots;
pub use static_policy::StaticPolicy;
pub use template::Template;
