//! The errors of policy set operations, with one enum for each kind of operation. The set itself is in
//! `cedar_policy_set`, which re-exports these names.
#![tactic(auto)]

pub mod err;

pub use err::{
    PolicySetError, PolicySetGetLinksError, PolicySetPolicyRemovalError,
    PolicySetTemplateRemovalError, PolicySetUnlinkError, PolicySetValidationError,
};
