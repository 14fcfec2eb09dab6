//! Lists of calls on an entity store or on a policy set.
//!
//! [`replay_entities`] runs the calls one after another, up to the first error. [`replay_policies`] runs all calls and
//! returns all their results.
//!
//! The contract of [`replay_entities`] states which entities the store contains (`Calls.antt` of `cedar_entities`), and
//! that their ancestors are exactly those that follow from the parents. The contract of [`replay_policies`] states that
//! the results and the final set follow the calls' steps, one after another (`specs/Replays.antt`). The specs of
//! `cedar_policy_set` define these steps.
#![tactic(auto, using(cedar_ids::specs::laws::UidOfLaws::same_uid_decides))]

mod call;
mod entities;
mod policies;

pub use call::{Answer, PolicyCall};
pub use entities::{EntityCall, replay_entities, replay_entities_with_hasher};
pub use policies::replay_policies;
