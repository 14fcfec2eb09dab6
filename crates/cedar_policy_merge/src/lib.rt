//! The merge of two policy sets, on their maps: the ids in conflict, their new ids, and the merged maps.
//!
//! This crate uses the maps of `cedar_policy_maps` and an error type of `cedar_policy_set_errors`.
//!
//! Contracts see the maps as a list of bodies and a list of policies. `specs/Merge.antt` defines the merged set and the
//! result. `specs/Fresh.antt` defines which ids are free.
#![tactic(auto)]

mod cursor_lookup;
mod fresh;
mod merge;
mod places;

pub use merge::merge_maps;
