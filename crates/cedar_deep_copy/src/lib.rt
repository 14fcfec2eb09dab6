//! Deep copies of names, uids, values and expressions. A deep copy shares nothing with its source.
//!
//! Stores and policy sets share much of their content by reference-counted pointers with non-atomic counts, so their
//! parts must stay on one thread. A deep copy has only bytes from its source, so it can be sent to another thread.
//!
//! Proved: each copy is equal to its source. That nothing is shared is tested, because contracts do not describe where
//! a value is stored.
#![tactic(auto, using(cedar_ids::specs::laws::UidOfLaws::same_uid_decides))]

pub mod copied_uids;
pub mod uids;
pub mod values;

pub use copied_uids::CopiedUids;
pub use uids::{deep_copy_name, deep_copy_type, deep_copy_uid};
pub use values::{deep_copy_expr, deep_copy_partial};
