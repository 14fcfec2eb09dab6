//! The program's commands on the store of entities: how to read them, and how to run them on the store and the queued
//! entities.
//!
//! The program is in `cedar_store`. `specs/EntityCommand.antt` defines the fields of each command.
//! `specs/EntityOutput.antt` defines the effect and the output of each command.
#![tactic(auto, using(cedar_ids::specs::laws::UidOfLaws::same_uid_decides))]

mod command;
mod machine;
mod parent_fields;
mod parse_entity;

pub use command::{EntityCommand, read_entity_command};
pub use machine::LineStore;
pub use parent_fields::KnownUids;
