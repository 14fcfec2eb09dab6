//! The program's commands on policy sets: how to read them from lines, and how to run them on the two sets.
//!
//! The program is in `cedar_store`. `specs/PolicyCommand.antt` defines the fields of each command.
//! `specs/PolicyOutput.antt` defines the effect and the output of each command, by the steps and the merge of policy
//! sets.
#![tactic(auto)]

mod command;
pub mod field;
pub mod machine;
pub mod making;
mod slot_flags;
mod writing;

pub use command::{PolicyCommand, read_policy_command};
pub use field::TemplateSlots;
pub use machine::PolicySets;
