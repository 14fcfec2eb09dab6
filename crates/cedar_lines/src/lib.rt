//! The parts that all lines of the program share: fields, uids as fields, cached entity types, texts in reused buffers,
//! and output lines.
//!
//! The commands on the store are in `cedar_entity_lines`, and the commands on policy sets in `cedar_policy_lines`.
//! `specs/Lines.antt` defines the bytes of a line and of an output line. `specs/Reads.antt` defines the result of
//! reading.
#![tactic(auto)]

mod eid_bytes;
mod escapes;
pub mod field;
pub mod known_types;
mod lanes;
pub mod line;
pub mod room;
pub mod writing;
