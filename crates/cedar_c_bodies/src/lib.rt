//! The bodies of policies and templates as callers in C pass them: numbers, parts of one text, and nodes over the text.
//! This crate does not depend on policy sets or handles.
#![tactic(auto)]

mod annotated;
mod bodies;
mod encode;
mod layout;
mod scopes;

pub use annotated::key_of;
pub use bodies::{effect_of, template_of};
pub use encode::{encode_constraint, encode_rule};
pub use layout::{AnnotationAt, Body, BodyLists, Scope};
