//! The names in the text of an error, without its fixed words, and the index of the invalid element in a list of uids.
#![tactic(auto, using(cedar_ids::specs::laws::UidOfLaws::same_uid_decides))]

pub mod arity;
pub mod naming;
pub mod unread;

pub use naming::{item_at, part_of};
pub use unread::{Unread, first_unread};
