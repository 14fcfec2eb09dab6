//! Identifiers of Cedar: names, entity types, eids, uids and policy ids, with their texts.
//!
//! Equality, order and hash ignore locations. Contracts see a name as its components, and a uid as a name and the bytes
//! of an eid. `specs/Printed.antt` specifies how names and uids are printed. `specs/Reads.antt` and
//! `specs/ReadsUid.antt` specify how they are parsed.
#![tactic(auto)]

mod decode;
pub mod entity;
pub mod err;
pub mod escape;
pub mod id;
pub mod loc;
pub mod name;
pub mod non_empty;
pub mod policy_id;
mod reading;

pub use entity::{ACTION_ENTITY_TYPE, Eid, EntityType, EntityUID, EntityUIDImpl};
pub use err::ParseErrors;
pub use escape::Escaped;
pub use id::{AnyId, Id};
pub use loc::Loc;
pub use name::Name;
pub use non_empty::NonEmpty;
pub use policy_id::PolicyID;
