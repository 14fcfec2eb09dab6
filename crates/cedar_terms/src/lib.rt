//! Values and expressions of Cedar, as far as policies and entities need them.
//!
//! Comparisons and hashes ignore locations. Contracts see a value and an expression as trees without locations, so `≡`
//! on them is equality.
//!
//! Functions that allocate use explicit stacks or share data. Comparing, hashing, writing and dropping recurse into the
//! tree. On a stack of 8 MiB they support a depth of about 25,000 levels. Dropping needs the most stack space, about
//! 330 bytes per level.
#![tactic(auto)]

pub mod err;
pub mod expr;
mod expr_hash;
mod expr_node;
mod expr_same;
mod expr_text;
mod expr_walk;
pub mod literal;
pub mod partial_value;
pub mod reserved;
pub mod slot;
pub mod static_type;
pub mod unknown;
pub mod value;
mod value_hash;
mod value_order;
mod value_text;
pub mod var;

pub use err::ExprValidationError;
pub use expr::Expr;
pub use expr_node::ExprNode;
pub use literal::Literal;
pub use partial_value::PartialValue;
pub use reserved::is_reserved_key;
pub use slot::{Slot, SlotId};
pub use static_type::{StaticType, StaticallyTyped};
pub use unknown::Unknown;
pub use value::{ExtensionValue, Value, ValueKind};
pub use var::Var;
