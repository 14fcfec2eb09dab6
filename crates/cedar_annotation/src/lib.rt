//! Annotations of policies: keys and texts that do not affect any decision.
//!
//! Equality, order and hash ignore locations. Contracts see annotations as a finite map from keys to values, both by
//! their bytes (`specs/Annotations.antt`). `specs/AnnotationOrder.antt` specifies equality, order and hash.
#![tactic(auto)]

pub mod annotation;

pub use annotation::{Annotation, Annotations};
