//! The iterators of an entity. In contracts, an iterator is the list of its remaining items.
ghost use Rattle.std.specs.Prelude.{◌≡◌, ◌++◌, List, string_bytes, map};
ghost use Rattle.std.specs.Iterator.{YieldsFirstRef, YieldsFirstBy, item_count};
ghost use Rattle.cedar_entity.specs.Fields.{KeysAscend, fields_of, field_keys};
ghost use Rattle.cedar_entity.specs.Listing.{ListsBoth};

use cedar_ids::entity::EntityUID;
use cedar_terms::PartialValue;
pub use cedar_uid_sets::Uids;
use cedar_uid_sets::{SharedUid, UidSet};
use std::collections::{BTreeMap, btree_map};
use std::marker::Model;
use std::slice;

/// An iterator over the keys of attributes or tags, in byte order.
#[derive(Drop)]
pub struct Keys<'a> {
    inner: btree_map::Keys<'a, String, PartialValue>,
}

impl<'a> Model for Keys<'a> {
    ghost use Rattle.std.specs.Prelude.{List, ℕ, map, string_bytes};

    ghost Value = { List (List ℕ) };

    ghost view = { λ k. map string_bytes k.inner };
}

impl<'a> Keys<'a> {
    pub(crate) fn of(fields: &'a BTreeMap<String, PartialValue>) -> Keys<'a>
        ensures keys { result ≡ field_keys (fields_of fields.now.entries) }
        ensures ascending { KeysAscend (fields_of fields.now.entries) }
    {
        Keys {
            inner: fields.keys(),
        }
    }
}

impl<'a> Iterator for Keys<'a> {
    type Item = &'a str;

    ghost next_gives = { YieldsFirstRef (λ s. s) };

    ghost remaining = { item_count (λ s. s) };

    fn next(&mut self) -> Option<&'a str> {
        let key = self.inner.next()?;
        Some(key.as_str())
    }
}

/// An iterator over attributes or tags with their keys, in byte order of the keys.
#[derive(Drop)]
pub struct Pairs<'a> {
    inner: btree_map::Iter<'a, String, PartialValue>,
}

impl<'a> Model for Pairs<'a> {
    ghost use Rattle.cedar_entity.specs.Codes.{fields_code};
    ghost use Rattle.cedar_entity.specs.Fields.{Fields, fields_of};

    ghost Value = { Fields };

    ghost coded = { fields_code };

    ghost view = { λ p. fields_of p.inner };
}

impl<'a> Pairs<'a> {
    pub(crate) fn of(fields: &'a BTreeMap<String, PartialValue>) -> Pairs<'a>
        ensures pairs { result ≡ fields_of fields.now.entries }
        ensures ascending { KeysAscend (fields_of fields.now.entries) }
    {
        Pairs {
            inner: fields.iter(),
        }
    }
}

impl<'a> Iterator for Pairs<'a> {
    type Item = (&'a str, &'a PartialValue);

    ghost next_gives = { YieldsFirstBy (λ x. (x.0.now, x.1.now)) (λ s. s) };

    ghost remaining = { item_count (λ s. s) };

    fn next(&mut self) -> Option<(&'a str, &'a PartialValue)> {
        let (key, value) = self.inner.next()?;
        Some((key.as_str(), value))
    }
}

/// An iterator over the shared uids of two sets, one after the other, each in ascending order of uid.
#[derive(Drop)]
pub struct SharedUids<'a> {
    first: slice::Iter<'a, SharedUid>,
    others: slice::Iter<'a, SharedUid>,
}

impl<'a> Model for SharedUids<'a> {
    ghost use Rattle.std.specs.Prelude.{List, ◌++◌};
    ghost use Rattle.std.specs.Coded.{coded_list};
    ghost use Rattle.std.specs.Slice.Iter.{iter_rest};
    ghost use Rattle.cedar_ids.specs.declared.entity.EntityUID.{EntityUID};
    ghost use Rattle.cedar_ids.specs.Codes.{uid_code};

    ghost Value = { List EntityUID };

    ghost coded = { coded_list uid_code };

    ghost view = { λ a. iter_rest a.first ++ iter_rest a.others };
}

impl<'a> SharedUids<'a> {
    pub(crate) fn of(first: &'a [SharedUid], others: &'a [SharedUid]) -> SharedUids<'a>
        ensures { result ≡ first.now ++ others.now }
    {
        SharedUids {
            first: first.iter(),
            others: others.iter(),
        }
    }
}

impl<'a> Iterator for SharedUids<'a> {
    type Item = &'a SharedUid;

    ghost next_gives = { YieldsFirstRef (λ s. s) };

    ghost remaining = { item_count (λ s. s) };

    fn next(&mut self) -> Option<&'a SharedUid> {
        if let Some(uid) = self.first.next() {
            return Some(uid);
        }
        self.others.next()
    }

    fn size_hint(&self) -> (usize, Option<usize>) {
        let first = self.first.len();
        let others = self.others.len();
        (first.saturating_add(others), first.checked_add(others))
    }
}

/// An iterator over the uids of two sets, one after the other, each in ascending order of uid.
#[derive(Drop)]
pub struct Ancestors<'a> {
    parents: Uids<'a>,
    indirect: Uids<'a>,
}

impl<'a> Model for Ancestors<'a> {
    ghost use Rattle.std.specs.Prelude.{List, ◌++◌};
    ghost use Rattle.std.specs.Coded.{coded_list};
    ghost use Rattle.cedar_ids.specs.declared.entity.EntityUID.{EntityUID};
    ghost use Rattle.cedar_ids.specs.Codes.{uid_code};

    ghost Value = { List EntityUID };

    ghost coded = { coded_list uid_code };

    ghost view = { λ a. a.parents ++ a.indirect };
}

impl<'a> Ancestors<'a> {
    pub(crate) fn of(parents: &'a UidSet, indirect: &'a UidSet) -> Ancestors<'a>
        ensures { ListsBoth parents.now indirect.now result }
    {
        Ancestors {
            parents: parents.iter(),
            indirect: indirect.iter(),
        }
    }
}

impl<'a> Iterator for Ancestors<'a> {
    type Item = &'a EntityUID;

    ghost next_gives = { YieldsFirstRef (λ s. s) };

    ghost remaining = { item_count (λ s. s) };

    fn next(&mut self) -> Option<&'a EntityUID> {
        if let Some(uid) = self.parents.next() {
            return Some(uid);
        }
        self.indirect.next()
    }
}
