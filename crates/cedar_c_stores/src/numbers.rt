//! Numbered uids.
ghost use Rattle.std.specs.Prelude.{◌≡◌, [], IfOk, OnErr, OnOk, slice_get};
ghost use Rattle.std.specs.Option.{option_copied};
ghost use Rattle.cedar_c_stores.specs.Numbers.{IsNumberOf, uids_with};

use cedar_ids::entity::EntityUID;
use cedar_uid_sets::SharedUid;
use indexmap::IndexSet;
use std::alloc::{AllocError, Global};
use std::hash::BuildHasher;
use std::marker::Model;

/// A list of uids without duplicates, in the order in which they were added. The position of a uid is its number.
/// Contracts see the list.
#[derive(Drop)]
pub struct Numbers<S: BuildHasher> {
    uids: IndexSet<SharedUid, S>,
}

impl<S: BuildHasher> Model for Numbers<S> {
    ghost use Rattle.std.specs.Prelude.{List};
    ghost use Rattle.cedar_ids.specs.declared.entity.EntityUID.{EntityUID};

    ghost Value = { List EntityUID };

    ghost view = { λ n. n.uids.keys };
}

impl<S: BuildHasher + Copy> Numbers<S> {
    // Creates an empty list. Does not allocate.
    pub(crate) fn new(alloc: Global, hasher: S) -> Numbers<S>
        ensures { result ≡ [] }
    {
        Numbers {
            uids: IndexSet::with_hasher(alloc, hasher),
        }
    }

    // Returns the number of a shared uid. Appends the uid if it has none. After an error nothing has changed.
    pub(crate) fn number_of_shared(&mut self, shared: SharedUid) -> Result<usize, AllocError>
        ensures uids { OnOk result (self.new ≡ uids_with self.old shared) }
        ensures number { IfOk result (IsNumberOf self.new shared) }
        ensures err { OnErr result (self.new ≡ self.old) }
    {
        let (number, _) = self.uids.insert_full(shared)?;
        Ok(number)
    }

    // Returns the number of a uid. Appends the uid if it has none. After an error nothing has changed.
    pub(crate) fn number_of(&mut self, alloc: Global, uid: EntityUID) -> Result<usize, AllocError>
        ensures uids { OnOk result (self.new ≡ uids_with self.old uid) }
        ensures number { IfOk result (IsNumberOf self.new uid) }
        ensures err { OnErr result (self.new ≡ self.old) }
    {
        let shared = SharedUid::new(alloc, uid)?;
        self.number_of_shared(shared)
    }

    // Returns the uid of a number. Does not allocate.
    pub(crate) fn uid_at(&self, number: usize) -> Option<&EntityUID>
        ensures { option_copied result ≡ slice_get self.now number }
    {
        match self.uids.as_slice().get(number) {
            None => None,
            Some(shared) => Some(shared.uid()),
        }
    }
}
