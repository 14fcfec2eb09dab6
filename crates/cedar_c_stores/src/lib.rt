//! The calls on a store in the library for C: a store with its last results, and lists of entities with or without
//! content. Handles are in `cedar_c`.
#![tactic(auto, using(cedar_ids::specs::laws::UidOfLaws::same_uid_decides))]

mod cached_store;
mod content;
mod content_calls;
mod deep_copies;
mod edits;
mod from_lists;
mod keys;
pub mod known;
mod listing;
mod number_calls;
pub mod numbers;
mod queries;
mod query_cache;
mod reads;
mod refusal;
mod rows;
mod store_calls;
pub mod store_state;
mod values;

pub use cached_store::CachedStore;
pub use content::{Content, Term};
pub use store_calls::EntityLists;
pub use store_state::StoreState;
