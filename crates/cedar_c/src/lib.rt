//! Stores and policy sets for callers in C.
//!
//! A handle is 16 bytes that belong to the caller. Zeroed memory is a closed handle. The caller must ensure only that
//! pointers and lengths describe arrays. A closed handle, a span out of range or an invalid text gives a status.
//!
//! A function that returns a status returns 0 if it succeeds. Otherwise it returns the number of a `Reason`, as
//! `Reason::number` gives it. The sections `# Status` name these reasons. The calls on the contents of handles are in
//! `cedar_c_stores` and `cedar_c_sets`.
#![tactic(auto)]

mod copying;
mod errors;
mod handles;
mod keys;
mod parts;
mod policies;
mod policies_bodies;
mod policies_deep_copy;
mod policies_handle;
mod policies_naming;
mod policies_reads;
mod program;
mod statuses;
mod store;
mod store_deep_copy;
mod store_handle;
mod store_numbers;
mod store_queries;
mod store_reads;
mod store_values;
mod uids;

pub use policies::Policies;
pub use store::Store;
