//! The calls on a store by the numbers of uids.
ghost use Rattle.cedar_c_stores.specs.Numbers.{ReadsPresenceByNumber, ReadsAncestryByNumbers, ReturnsNumber, NamesNumber};

use crate::store_state::StoreState;
use cedar_c_lists::{Answer, Reason, with_uid};
use std::alloc::Global;
use std::hash::BuildHasher;

impl<S: BuildHasher + Copy> StoreState<S> {
    /// Returns the number of the uid in a text. The first uid gets 0, the next new one gets 1, and so on. Later calls
    /// with the same uid return the same number. The store need not have an entity with the uid. Edits do not change
    /// numbers. A copy or a slice begins without numbers.
    ///
    /// # Errors
    ///
    /// - `NotAUid`: the text is not the text of a uid.
    /// - `NoMemory`: an allocation failed.
    ///
    /// After an error nothing has changed.
    pub fn uid_number(&mut self, alloc: Global, text: &[u8]) -> Result<usize, Reason>
        ensures { ReturnsNumber text.now result self.old self.new }
    {
        let uid = self.known.uid_of(alloc, text)?;
        Ok(self.numbers.number_of(alloc, uid)?)
    }

    /// Returns whether the store has an entity with the uid of a number. Does not allocate.
    ///
    /// # Errors
    ///
    /// - `BadArgument`: no uid has the number.
    pub fn has_number(&self, number: usize) -> Result<bool, Reason>
        ensures { ReadsPresenceByNumber self.now.store self.now.numbers number result }
    {
        match self.numbers.uid_at(number) {
            None => Err(Reason::BadArgument),
            Some(uid) => Ok(self.store.stored(uid).is_some()),
        }
    }

    /// Returns whether the entity with the uid of the number `child` is a descendant of the uid of the number
    /// `ancestor`. Does not allocate.
    ///
    /// # Errors
    ///
    /// - `BadArgument`: no uid has one of the numbers.
    /// - `NoEntity`: the store has no entity with the uid of `child`.
    pub fn is_descendant_of_numbers(&self, child: usize, ancestor: usize) -> Result<bool, Reason>
        ensures { ReadsAncestryByNumbers self.now.store self.now.numbers child ancestor result }
    {
        let Some(child) = self.numbers.uid_at(child) else {
            return Err(Reason::BadArgument);
        };
        let Some(ancestor) = self.numbers.uid_at(ancestor) else {
            return Err(Reason::BadArgument);
        };
        match self.store.stored(child) {
            None => Err(Reason::NoEntity),
            Some(entity) => Ok(entity.is_descendant_of(ancestor)),
        }
    }

    /// Stores the text of the uid that has this number in `answer`.
    ///
    /// # Errors
    ///
    /// - `BadArgument`: no uid has the number.
    /// - `NoMemory`: an allocation failed.
    ///
    /// After an error nothing has changed.
    pub fn number_uid(&mut self, alloc: Global, number: usize) -> Result<(), Reason>
        ensures { NamesNumber number result self.old self.new }
    {
        let answer = match self.numbers.uid_at(number) {
            None => return Err(Reason::BadArgument),
            Some(uid) => with_uid(alloc, Answer::new(alloc), uid)?,
        };
        self.answer = answer;
        Ok(())
    }
}
