// Uids that are printed and parsed again are equal to the original. Only locations are lost.
ghost use Rattle.std.specs.Prelude.{◌≡◌, IfOk, IsTrue};
ghost use Rattle.cedar_ids.specs.UidOf.{uid_parts};
ghost use Rattle.cedar_ids.specs.Escape.{is_ascii};

use super::is_equal;
use cedar_ids::entity::EntityUID;
use cedar_ids::err::ParseErrors;
use std::alloc::Global;

// Prints a uid and parses the text. That the result is the uid follows from the contracts of the three calls.
fn read_again(alloc: Global, uid: &EntityUID) -> Result<EntityUID, ParseErrors>
    ensures { IsTrue (is_ascii (uid_parts uid.now).eid) → IfOk result (λ u. u ≡ uid.now) }
{
    let _ = uid.entity_type();
    let text = uid.to_string(alloc)?;
    EntityUID::from_normalized_str(alloc, text.as_str())
}

// Returns whether the uid of type `A` with this eid is parsed back from its text.
fn reads_back(alloc: Global, eid: &str) -> bool {
    match EntityUID::with_eid_and_type(alloc, "A", eid) {
        Ok(uid) => {
            let told = is_equal(read_again(alloc, &uid), &uid);
            drop(uid);
            told
        }
        Err(_) => false,
    }
}

#[test]
fn a_printed_uid_reads_back(rt: HostRuntime) {
    let alloc = rt.alloc();
    for eid in &[
        "",
        "eid",
        "it's\t\"\\\0\r\n\u{1}\u{7f}",
        "A::\"b\"",
        "é",
        "\u{80}\u{200b}'",
    ] {
        assert!(rt; reads_back(alloc, eid), "with the eid {eid:?}");
    }
}
