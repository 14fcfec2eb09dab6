//! The call that returns the unknown entities of a policy.
ghost use Rattle.std.specs.Prelude.{IfOk};
ghost use Rattle.cedar_c_lists.specs.Texts.{AreTextsOf};
ghost use Rattle.cedar_c_sets.specs.Reads.{AnswersAt, policy_at};
ghost use Rattle.cedar_c_sets.specs.Unknowns.{AreUnknownIn};

use crate::set_state::SetState;
use cedar_c_lists::{Answer, Reason, id_of, with_uid};
use cedar_policy::Policy;
use cedar_uid_sets::{UidSet, Uids};
use std::alloc::{AllocError, Global};
use std::hash::BuildHasher;

// Returns the texts of uids.
fn texts_of_uids(alloc: Global, uids: Uids<'_>) -> Result<Answer, AllocError>
    ensures { IfOk result (AreTextsOf uids.entry) }
{
    let mut answer = Answer::new(alloc);
    for uid in uids {
        answer = with_uid(alloc, answer, uid)?;
    }
    Ok(answer)
}

// Returns the texts of the uids of the unknowns in a policy's condition. They are collected in a set with the hasher
// builder `hasher`.
fn unknowns_of<S: BuildHasher + Copy>(
    alloc: Global,
    policy: &Policy,
    hasher: S,
) -> Result<Answer, AllocError>
    ensures { IfOk result (AreUnknownIn policy.now) }
{
    let found = policy.unknown_entities_with_hasher(alloc, hasher)?;
    let uids = UidSet::from_set(alloc, found)?;
    let answer = texts_of_uids(alloc, uids.iter())?;
    Ok(answer)
}

impl<S: BuildHasher + Copy> SetState<S> {
    /// Stores the uids of the unknowns in the condition of the policy with an id in `answer`: ascending, each once.
    /// They are the uids of `Policy::unknown_entities_with_hasher` with the set's hasher builder.
    ///
    /// # Errors
    ///
    /// - `NotUtf8`: the id is not UTF-8.
    /// - `NoBody`: there is no policy with the id.
    /// - `NoMemory`: an allocation failed.
    ///
    /// After an error nothing has changed.
    pub fn unknown_entities(&mut self, alloc: Global, id: &[u8]) -> Result<(), Reason>
        ensures { AnswersAt policy_at AreUnknownIn id.now result self.old self.new }
    {
        let id = id_of(alloc, id)?;
        let answer = match self.set.get(&id) {
            None => return Err(Reason::NoBody),
            Some(policy) => unknowns_of(alloc, policy, *self.set.hasher())?,
        };
        self.answer = answer;
        Ok(())
    }
}
