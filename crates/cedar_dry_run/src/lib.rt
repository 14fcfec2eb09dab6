//! Dry runs of edits of a store of entities: whether an edit would fail, and with which error. Nothing is changed.
//!
//! Proved, for the plain store of an input store and a list of entities without indirect ancestors: the dry run has the
//! result of the edit. If it succeeds, the edit can fail only with an allocation error. The dry run reads only the
//! slice of the store at the listed uids and their parents.
//!
//! Proved, for any other store: the edit can fail with the error of the dry run.
#![tactic(auto, using(cedar_ids::specs::laws::UidOfLaws::same_uid_decides))]

pub mod requested;
pub mod would;

pub use would::{have_no_indirect, would_add, would_upsert};
