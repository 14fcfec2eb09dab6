//! The data that callers in C pass and receive: bytes, spans of uids and ids, edges, lists of texts, and a reason with
//! a status for each error. This crate does not depend on stores, policy sets or handles.
#![tactic(auto, using(cedar_ids::specs::laws::UidOfLaws::same_uid_decides))]

pub mod answer;
pub mod layout;
pub mod reading;
pub mod reason;
pub mod status;
pub mod texts;
pub mod uids;

pub use answer::Answer;
pub use layout::{Edge, Span};
pub use reading::{check_uid, id_of, text_at, uid_at, uid_of, uids_of};
pub use reason::{Reason, status_of, write_bool};
pub use status::{reason_with, status_text, write_result};
pub use texts::{push_uid, with_uid};
pub use uids::{UidTexts, parts_of, type_of, uid_text, uid_with};
