//! The three ordered maps of a policy set: bodies by id, policies by id, and the ids of the links of each template.
//!
//! Errors of policy set operations are in `cedar_policy_set_errors`.
//!
//! - Contracts see the maps as two lists of a policy set, the values of the first two maps (`specs/PolicySets.antt`).
//! - The invariant of [`PolicyMaps`] states how the three maps agree (`specs/Maps.antt`).
//! - Insertions must preserve the invariant, which the caller must prove (`specs/Insertions.antt`, `specs/BulkInsert.antt`).
#![tactic(auto)]

mod access;
mod bulk_insert;
pub mod iters;
mod lists;
mod maps;
pub mod policy_maps;
mod policy_or_template;

pub use bulk_insert::SharedAndNew;
pub use iters::{
    AllTemplates, IntoPolicies, LinkedIds, Policies, SharedBodies, StaticPolicies, Templates,
};
pub use lists::{has_no_slots, is_link};
pub use policy_maps::PolicyMaps;
pub use policy_or_template::PolicyOrTemplate;
