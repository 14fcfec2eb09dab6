//! The union of two sets, as an iterator.
ghost use Rattle.std.specs.Prelude.{◌≡◌, ◌||◌};
ghost use Rattle.std.specs.FinSet as set;
ghost use Rattle.std.specs.Set.{is_member};
ghost use Rattle.std.specs.Iterator.{YieldsFirstRef, item_count};
ghost use Rattle.cedar_ids.specs.UidOf.{same_uid};
ghost use Rattle.cedar_ids.specs.declared.entity.EntityUID.{EntityUID};
ghost use Rattle.cedar_uid_sets.specs.UidSets.{Ascend};
ghost use Rattle.cedar_uid_sets.specs.laws.Unions.{union_of};

use crate::shared_uid::SharedUid;
use crate::uid_set::UidSet;
use cedar_ids::entity::EntityUID;
use std::cmp::Ordering;
use std::marker::Model;

/// An iterator over the uids of two sets, in ascending order and without duplicates. In contracts it is the list of the
/// remaining uids.
#[derive(Drop)]
pub struct Union<'a> {
    one: &'a [SharedUid],
    other: &'a [SharedUid],
}

impl<'a> Model for Union<'a> {
    ghost use Rattle.std.specs.Prelude.{List};
    ghost use Rattle.std.specs.Coded.{coded_list};
    ghost use Rattle.cedar_ids.specs.declared.entity.EntityUID.{EntityUID};
    ghost use Rattle.cedar_ids.specs.Codes.{uid_code};
    ghost use Rattle.cedar_uid_sets.specs.laws.Unions.{union_of};

    ghost Value = { List EntityUID };

    ghost coded = { coded_list uid_code };

    ghost view = { λ u. union_of u.one.now u.other.now };
}

impl<'a> Union<'a> {
    pub(crate) fn of(one: &'a [SharedUid], other: &'a [SharedUid]) -> Union<'a>
        ensures { result ≡ union_of one.now other.now }
    {
        Union { one, other }
    }
}

impl UidSet {
    /// Iterates over the uids of both sets, in ascending order and without duplicates. Does not allocate.
    pub fn union<'a>(&'a self, other: &'a UidSet) -> Union<'a>
        ensures members { (q : EntityUID) → is_member same_uid result q
            ≡ (set.contains self.now q || set.contains other.now q) }
        ensures ascending { Ascend result }
    {
        Union::of(self.pointers(), other.pointers())
    }
}

impl<'a> Iterator for Union<'a> {
    type Item = &'a EntityUID;

    ghost next_gives = { YieldsFirstRef (λ s. s) };

    ghost remaining = { item_count (λ s. s) };

    fn next(&mut self) -> Option<&'a EntityUID> {
        let Some((x, xs)) = self.one.split_first() else {
            let (y, ys) = self.other.split_first()?;
            self.other = ys;
            return Some(y.uid());
        };
        let Some((y, ys)) = self.other.split_first() else {
            self.one = xs;
            return Some(x.uid());
        };
        match x.cmp(y) {
            Ordering::Less => {
                self.one = xs;
                Some(x.uid())
            }
            Ordering::Equal => {
                self.one = xs;
                self.other = ys;
                Some(x.uid())
            }
            Ordering::Greater => {
                self.other = ys;
                Some(y.uid())
            }
        }
    }
}
