//! The iterators of action constraints. Contracts see each as the list of its remaining items.
ghost use Rattle.std.specs.Prelude.{◌≡◌, ◌++◌, List, map};
ghost use Rattle.std.specs.Iterator.{YieldsFirstBy, item_count};
ghost use Rattle.cedar_ids.specs.Uid.{UidParts, name_part};
ghost use Rattle.cedar_ids.specs.UidOf.{uid_parts};
ghost use Rattle.cedar_ids.specs.Views.{type_name};
ghost use Rattle.cedar_action.specs.Views.{uids_left, from_the_back};

use cedar_ids::entity::{EntityType, EntityUID};
use std::marker::Model;

/// An iterator over the uids of an action constraint.
///
/// # Differences from cedar-policy-core
///
/// This type is private in the original.
#[derive(Drop)]
pub enum EntityIterator<'a> {
    /// No uid.
    None,
    /// This uid, once.
    One(&'a EntityUID),
    /// The uids of this list, from the back.
    Bunch(Vec<&'a EntityUID>),
}

impl<'a> Iterator for EntityIterator<'a> {
    type Item = &'a EntityUID;

    ghost next_gives = { YieldsFirstBy (λ u. uid_parts u.now) uids_left };

    ghost remaining = { item_count uids_left };

    /// Returns the next uid. Does not allocate.
    fn next(&mut self) -> Option<&'a EntityUID> {
        match self {
            EntityIterator::None => None,
            EntityIterator::One(euid) => {
                let euid: &'a EntityUID = *euid;
                *self = EntityIterator::None;
                Some(euid)
            }
            EntityIterator::Bunch(euids) => pop_last(euids),
        }
    }
}

// Removes the last uid and returns it.
#[tactic(auto, using(crate::proofs::Bunch::last_comes_first))]
fn pop_last<'a>(euids: &mut Vec<&'a EntityUID>) -> Option<&'a EntityUID>
    ensures { YieldsFirstBy (λ u. uid_parts u.now) from_the_back euids.old.items result euids.new.items }
{
    euids.pop()
}

/// An iterator over the types of the uids of an action constraint, in the order of [`EntityIterator`].
#[derive(Drop)]
pub struct ActionTypeNames<'a> {
    euids: EntityIterator<'a>,
}

impl<'a> Model for ActionTypeNames<'a> {
    ghost use Rattle.std.specs.Prelude.{List, map};
    ghost use Rattle.cedar_ids.specs.Name.{NameParts};
    ghost use Rattle.cedar_ids.specs.Uid.{name_part};
    ghost use Rattle.cedar_action.specs.Views.{uids_left};

    ghost Value = { List NameParts };

    ghost view = { λ i. map name_part (uids_left i.euids) };
}

impl<'a> ActionTypeNames<'a> {
    // Creates an iterator over the types of these uids.
    pub(crate) fn of(euids: EntityIterator<'a>) -> ActionTypeNames<'a>
        ensures { result ≡ map name_part (uids_left euids.entry) }
    {
        ActionTypeNames { euids }
    }
}

impl<'a> Iterator for ActionTypeNames<'a> {
    type Item = &'a EntityType;

    ghost next_gives = { YieldsFirstBy (λ t. type_name t.now) (λ s. s) };

    ghost remaining = { item_count (λ s. s) };

    fn next(&mut self) -> Option<&'a EntityType> {
        let euid = self.euids.next()?;
        Some(euid.entity_type())
    }
}
