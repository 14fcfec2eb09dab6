//! Creation of sets from shared uids in any order.
ghost use Rattle.std.specs.Prelude.{◌≡◌, IfOk};
ghost use Rattle.std.specs.FinSet as set;

use crate::ascending::ascend;
use crate::shared_uid::SharedUid;
use crate::uid_set::UidSet;
use std::alloc::AllocError;

// Creates the set by inserting the uids one after another.
fn gathered(uids: Vec<SharedUid>) -> Result<UidSet, AllocError>
    ensures { IfOk result (λ s. s ≡ set.from_list uids.items) }
{
    let mut set = UidSet::new(*uids.allocator());
    for shared in uids {
        set.insert(shared)?;
    }
    Ok(set)
}

impl UidSet {
    /// Creates a set from shared uids in any order, with or without duplicates.
    ///
    /// If the uids are in ascending order, they are compared once each. Otherwise they are sorted. If there are
    /// duplicates, the uids are inserted one after another.
    ///
    /// Without duplicates the set takes over the vector and does not allocate.
    ///
    /// # Errors
    ///
    /// Returns `AllocError` if an allocation fails.
    pub fn from_pointers(mut uids: Vec<SharedUid>) -> Result<UidSet, AllocError>
        ensures { IfOk result (λ s. s ≡ set.from_list uids.items) }
    {
        if ascend(&uids) {
            return Ok(UidSet::from_ascending(uids));
        }
        uids.sort_unstable();
        if ascend(&uids) {
            return Ok(UidSet::from_ascending(uids));
        }
        gathered(uids)
    }
}
