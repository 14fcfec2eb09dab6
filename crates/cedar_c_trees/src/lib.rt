//! Values and expressions as callers in C pass and receive them: flat nodes over one text. Each node comes after its
//! operands.
#![tactic(auto)]

pub mod draft;
pub mod expr_reading;
pub mod expr_stack;
pub mod expr_writing;
pub mod laws;
pub mod leaf_writing;
pub mod levels;
pub mod node;
pub mod numbers;
pub mod partial_reading;
pub mod parts;
pub mod pending;
pub mod reading;
pub mod unknowns;
pub mod value_stack;
pub mod value_writing;
pub mod write_laws;
pub mod writing;
pub mod written;

pub use expr_reading::expr_of;
pub use levels::CEDAR_LEVELS;
pub use node::Node;
pub use partial_reading::partial_value_of;
pub use reading::value_of;
pub use writing::{write_expr, write_partial, write_value};
pub use written::Written;
