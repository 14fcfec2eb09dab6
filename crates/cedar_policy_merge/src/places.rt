//! Comparison of the source locations of bound uids in two equal policies.

use cedar_binding::{SlotEnv, bound_to};
use cedar_ids::entity::EntityUID;
use cedar_ids::loc::Loc;
use std::rc::RcStr;

// Returns whether two equal bindings have the same source locations.
pub(crate) fn are_placed_as(stands: &SlotEnv, values: &SlotEnv) -> bool {
    for (slot, uid) in values {
        if !is_placed_as(bound_to(stands, *slot), uid) {
            return false;
        }
    }
    true
}

// Returns whether there is a uid in `stands`, and it and its type have the same locations as `uid` and its type.
fn is_placed_as(stands: Option<&EntityUID>, uid: &EntityUID) -> bool {
    match stands {
        None => false,
        Some(stands) => {
            is_at(stands.loc(), uid.loc())
                && is_at(stands.entity_type().loc(), uid.entity_type().loc())
        }
    }
}

// Returns whether two optional locations are both absent, or are the same range of the same text.
fn is_at(stands: Option<&Loc>, loc: Option<&Loc>) -> bool {
    match stands {
        None => loc.is_none(),
        Some(stands) => match loc {
            None => false,
            Some(loc) => {
                stands.start == loc.start
                    && stands.end == loc.end
                    && RcStr::ptr_eq(&stands.src, &loc.src)
            }
        },
    }
}
