//! Deep copies of stores and of their slices, which can be sent to another thread.
ghost use Rattle.std.specs.Prelude.{◌≡◌};
ghost use Rattle.cedar_c_stores.specs.Stores.{Copies, SlicesAt};

use crate::store_state::StoreState;
use cedar_c_lists::{Reason, Span};
use std::alloc::Global;
use std::hash::BuildHasher;

impl<S: BuildHasher + Copy> StoreState<S> {
    /// Returns a deep copy, which shares nothing with the store and can be sent to another thread. The copy has an
    /// empty `answer`, no numbers and no last error. That the copy shares nothing is tested. It is not proved.
    ///
    /// # Errors
    ///
    /// Returns `NoMemory` if an allocation fails.
    pub fn deep_copy(&self, alloc: Global) -> Result<StoreState<S>, Reason>
        ensures { Copies self.now.store result }
    {
        let store = self.store.deep_copy_store(alloc, self.hasher)?;
        Ok(StoreState::cached(alloc, self.hasher, store))
    }

    /// Returns a deep copy of the slice at the uids in parts of a text. Creates the slice as `slice` does, and copies
    /// it as `deep_copy` does.
    ///
    /// # Errors
    ///
    /// - `BadArgument`: a part is not within the text.
    /// - `NotAUid`: a part is not the text of a uid.
    /// - `NoMemory`: an allocation failed.
    pub fn slice_deep_copy(
        &mut self,
        alloc: Global,
        text: &[u8],
        spans: &[Span],
    ) -> Result<StoreState<S>, Reason>
        ensures same { self.new ≡ self.old }
        ensures slices { SlicesAt text.now spans.now self.old.store result }
    {
        let part = self.slice(alloc, text, spans)?;
        part.deep_copy(alloc)
    }
}
