// Tests of uids, eids, policy ids and locations.
use super::{eid, place, uid};
use cedar_alloc_failures::{
    CallOutcome, Calls, Row, check_failures, copied, made, on, refuse, same_copied, unmade,
};
use cedar_ids::entity::EntityUID;
use cedar_ids::policy_id::PolicyID;
use std::alloc::Global;

struct OnUids;

const UIDS: &str = "
    Eid::escaped | a'b | a\\'b
    EntityUID::with_eid_and_type | A, it's | A::\"it\\'s\"
    - EntityUID::with_eid_and_type | A B, c | ! not a valid name
    EntityUID::from_normalized_str | A::B::\"a\\n\" | A::B::\"a\\n\"
    - EntityUID::from_normalized_str | A::b | ! not a normalized entity uid
    EntityUID::from_normalized_str | A::\"'\" | ! not a normalized entity uid
    EntityUID::from_normalized_str | A B::\"b\" | ! not a valid name
    PolicyID::from_string | p'q | p\\'q
    Eid::clone | e
    EntityUID::clone | A::B::\"a\" | A::B::\"a\"
    EntityUIDImpl::clone | A::B::\"a\"
    PolicyID::clone | p | p
    - Loc::clone
";

fn made_of(alloc: Global, number: usize, row: Row<'_>) -> CallOutcome {
    let (ty, eid) = row.given.split_once(", ").unwrap_or((row.given, ""));
    refuse(alloc, number);
    made(
        alloc,
        EntityUID::with_eid_and_type(alloc, ty, eid),
        row.want,
    )
}

// Runs `clone` on the content of a uid.
fn inner_copied(alloc: Global, number: usize, row: Row<'_>) -> CallOutcome {
    match uid(alloc, row.given) {
        Some(EntityUID::EntityUID(inner)) => same_copied(alloc, number, Some(inner)),
        None => unmade(),
    }
}

impl Calls for OnUids {
    fn tried(&self, alloc: Global, number: usize, row: Row<'_>) -> CallOutcome {
        match row.call {
            "Eid::escaped" => {
                on(alloc, number, eid(alloc, row.given), |eid| {
                    made(alloc, eid.escaped(alloc), row.want)
                })
            }
            "EntityUID::with_eid_and_type" => made_of(alloc, number, row),
            "EntityUID::from_normalized_str" => {
                refuse(alloc, number);
                made(
                    alloc,
                    EntityUID::from_normalized_str(alloc, row.given),
                    row.want,
                )
            }
            "PolicyID::from_string" => {
                refuse(alloc, number);
                made(alloc, PolicyID::from_string(alloc, row.given), row.want)
            }
            "Eid::clone" => same_copied(alloc, number, eid(alloc, row.given)),
            "EntityUID::clone" => copied(alloc, number, uid(alloc, row.given), row.want),
            "EntityUIDImpl::clone" => inner_copied(alloc, number, row),
            "PolicyID::clone" => {
                copied(
                    alloc,
                    number,
                    PolicyID::from_string(alloc, row.given).ok(),
                    row.want,
                )
            }
            "Loc::clone" => same_copied(alloc, number, place(alloc)),
            _ => unmade(),
        }
    }
}

#[test]
fn each_call_on_uids(rt: HostRuntime) {
    assert!(rt; check_failures(rt, &OnUids, UIDS));
}
