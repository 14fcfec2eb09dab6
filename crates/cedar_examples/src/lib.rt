//! Five uses of the store layer, by code that depends on `cedar_store` only:
//!
//! - build a store and query it
//! - edit a store
//! - link a template
//! - merge another policy set
//! - replay a list of calls
//!
//! Each has a clause that states the fact that its caller needs. They are examples, quoted in `docs/GUIDE.md`, and
//! not part of the layer.
#![tactic(auto, using(cedar_ids::specs::laws::UidOfLaws::same_uid_decides))]

mod policies;
mod stores;

pub use policies::{grant, take_in};
pub use stores::{is_member, moved, was_member};
