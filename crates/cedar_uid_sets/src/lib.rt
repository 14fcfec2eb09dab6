//! Shared uids, and sets of shared uids as sorted vectors.
//!
//! A [`SharedUid`] is a uid behind a reference-counted pointer. A [`UidSet`] stores such pointers in ascending order of
//! the uids, without duplicates. A set therefore needs one pointer per uid, and a copy of it copies no uid. A lookup
//! among more than sixteen uids is a binary search.
//!
//! In contracts, a `SharedUid` is a uid and a `UidSet` is a finite set of uids. Proved: what each call of both types
//! does to the uid or to the finite set. Also proved: a `HashMap` with shared uids as keys can be looked up by a plain
//! uid.
#![tactic(auto)]

mod ascending;
mod fronts;
mod gather;
mod lookup;
mod merge;
mod order;
mod shared_uid;
mod uid_set;
mod union;

pub use order::are_equal;
pub use shared_uid::SharedUid;
pub use uid_set::{UidSet, Uids};
pub use union::Union;
