//! The two numbers that abbreviate a uid, and comparisons of uids by these numbers.
ghost use Rattle.std.specs.Prelude.{◌≡◌, ◌<◌, ◌+◌, ◌*◌, nat_eq, slice_index};
ghost use Rattle.std.specs.Ordering.{nat_cmp};
ghost use Rattle.std.specs.Cmp.Lexicographic.{pointwise, slice_cmp};
ghost use Rattle.cedar_ids.specs.UidOf.{same_uid, uid_order, uid_parts};
ghost use Rattle.cedar_uid_sets.specs.laws.Fronts.{AreDigits, front, kind, is_short, number, same_numbers};
ghost use Rattle.cedar_uid_sets.specs.laws.Fronts.{BeginsWithBytes};

use cedar_ids::entity::EntityUID;
use cedar_ids::name::Name;
use std::alloc::AllocError;
use std::cmp::Ordering;
use std::fmt;
use std::marker::Model;

// Returns the byte at a position, or 0 after the end.
fn byte(text: &[u8], at: usize) -> u64
    ensures value { result ≡ slice_index text.now at }
    ensures small { result < 256 }
{
    match text.get(at) {
        Some(byte) => *byte as u64,
        None => 0,
    }
}

// Returns the number of four bytes, highest byte first.
fn from_four_bytes(a: u8, b: u8, c: u8, d: u8) -> u64
    ensures value { result ≡ a * 0x100_0000 + (b * 0x1_0000 + (c * 0x100 + d)) }
    ensures small { result < 0x1_0000_0000 }
{
    u64::from(a) * 0x100_0000 + u64::from(b) * 0x1_0000 + u64::from(c) * 0x100 + u64::from(d)
}

// Returns the first four bytes as a number, highest byte first. Missing bytes count as zero.
fn half(text: &[u8]) -> u64
    ensures value { result ≡ number 4 (slice_index text.now) }
    ensures small { result < 0x1_0000_0000 }
    ensures bytes { AreDigits 4 (slice_index text.now) }
{
    if let [a, b, c, d, ..] = text {
        return from_four_bytes(*a, *b, *c, *d);
    }
    byte(text, 0) * 0x100_0000 + byte(text, 1) * 0x1_0000 + byte(text, 2) * 0x100 + byte(text, 3)
}

// Returns the first eight bytes as a number, highest byte first. Missing bytes count as zero.
fn front(text: &[u8]) -> u64
    ensures value { result ≡ front text.now }
    ensures bytes { BeginsWithBytes text.now }
{
    if let [a, b, c, d, rest @ ..] = text {
        return from_four_bytes(*a, *b, *c, *d) * 0x1_0000_0000 + half(rest);
    }
    half(text) * 0x1_0000_0000
}

// Checks whether a name has no path and a basename of at most eight bytes.
fn is_short(name: &Name) -> bool
    ensures { result ≡ is_short name.now }
{
    name.is_unqualified() && name.basename().as_ref().len() <= 8
}

// Returns the front of a short name, and 0 for any other name.
fn kind(name: &Name) -> u64
    ensures { result ≡ kind name.now }
{
    if !is_short(name) {
        return 0;
    }
    front(name.basename().as_ref().as_bytes())
}

/// A uid to look up, with the two numbers that abbreviate its type (`kind`) and its eid (`front`). In contracts it is
/// the uid.
#[derive(Drop)]
pub(crate) struct Key<'a> {
    pub(crate) kind: u64,
    pub(crate) front: u64,
    uid: &'a EntityUID,
}

impl<'a> Model for Key<'a> {
    ghost use Rattle.cedar_ids.specs.Codes.{uid_code};
    ghost use Rattle.cedar_ids.specs.declared.entity.EntityUID.{EntityUID};
    ghost use Rattle.cedar_uid_sets.specs.laws.Fronts.{Abbreviate};

    ghost Value = { EntityUID };

    ghost coded = { uid_code };

    ghost view = { λ k. k.uid.now };

    ghost invariant = { λ k. Abbreviate k.kind k.front k.uid.now };
}

impl<'a> Key<'a> {
    pub(crate) fn of(uid: &'a EntityUID) -> Key<'a>
        ensures { result ≡ uid.now }
    {
        Key {
            kind: kind(uid.entity_type().name()),
            front: front(uid.eid().as_ref().as_bytes()),
            uid,
        }
    }
}

/// A uid with its two numbers. In contracts it is the uid.
#[derive(Drop)]
pub(crate) struct Fronted {
    kind: u64,
    front: u64,
    uid: EntityUID,
}

impl Model for Fronted {
    ghost use Rattle.cedar_ids.specs.Codes.{uid_code};
    ghost use Rattle.cedar_ids.specs.declared.entity.EntityUID.{EntityUID};
    ghost use Rattle.cedar_uid_sets.specs.laws.Fronts.{Abbreviate};

    ghost Value = { EntityUID };

    ghost coded = { uid_code };

    ghost view = { λ f. f.uid };

    ghost invariant = { λ f. Abbreviate f.kind f.front f.uid };
}

impl Fronted {
    #[inline(always)]
    pub(crate) fn new(uid: EntityUID) -> Fronted
        ensures { result ≡ uid }
    {
        let kind = kind(uid.entity_type().name());
        let front = front(uid.eid().as_ref().as_bytes());
        Fronted { kind, front, uid }
    }

    pub(crate) fn uid(&self) -> &EntityUID
        ensures { result.now ≡ self.now }
    {
        &self.uid
    }

    // Returns the lookup key of the uid.
    pub(crate) fn key(&self) -> Key<'_>
        ensures { result ≡ self.now }
    {
        Key {
            kind: self.kind,
            front: self.front,
            uid: &self.uid,
        }
    }

    pub(crate) fn into_uid(self) -> EntityUID
        ensures { result ≡ self }
    {
        let Fronted { uid, .. } = self;
        uid
    }
}

impl Clone for Fronted {
    ghost is_clone = { λ x y. y ≡ x };

    fn clone(&self) -> Result<Fronted, AllocError> {
        let uid = self.uid.clone()?;
        Ok(Fronted {
            kind: self.kind,
            front: self.front,
            uid,
        })
    }
}

impl fmt::Debug for Fronted {
    fn fmt<W: fmt::Write>(&self, f: &mut fmt::Formatter<W>) -> fmt::Result {
        self.uid.fmt(f)
    }
}

// Compares the eids of two uids.
fn order_of_eids(one: &EntityUID, other: &EntityUID) -> Ordering
    ensures { result ≡ slice_cmp nat_cmp (uid_parts one.now).eid (uid_parts other.now).eid }
{
    one.eid().as_ref().cmp(other.eid().as_ref())
}

// Compares two uids. If both names are short and the numbers differ, the numbers decide.
pub(crate) fn order_of(one: &Key<'_>, other: &Key<'_>) -> Ordering
    ensures { result ≡ uid_order one.now other.now }
{
    if one.kind == 0 || other.kind == 0 {
        return one.uid.cmp(other.uid);
    }
    if one.kind != other.kind {
        return one.kind.cmp(&other.kind);
    }
    if one.front != other.front {
        return one.front.cmp(&other.front);
    }
    order_of_eids(one.uid, other.uid)
}

// Checks whether two eids with the same first eight bytes are equal. If one has at most eight bytes, their lengths
// decide.
fn have_one_eid(one: &EntityUID, other: &EntityUID) -> bool
    requires same { front (uid_parts one.now).eid ≡ front (uid_parts other.now).eid }
    requires one { BeginsWithBytes (uid_parts one.now).eid }
    requires other { BeginsWithBytes (uid_parts other.now).eid }
    ensures { result ≡ pointwise nat_eq (uid_parts one.now).eid (uid_parts other.now).eid }
{
    let one = one.eid().as_ref();
    let other = other.eid().as_ref();
    if one.len() <= 8 {
        return one.len() == other.len();
    }
    one == other
}

// Checks whether two uids have the same numbers. If not, the uids differ.
#[inline(always)]
pub(crate) fn have_same_numbers(one: &Key<'_>, other: &Key<'_>) -> bool
    ensures { result ≡ same_numbers one.now other.now }
{
    one.front == other.front && one.kind == other.kind
}

// Checks whether two uids are equal. If the numbers differ, the uids differ. If both names are short, only the eids
// remain to be compared.
pub(crate) fn are_same(one: &Key<'_>, other: &Key<'_>) -> bool
    ensures { result ≡ same_uid one.now other.now }
{
    if one.front != other.front || one.kind != other.kind {
        return false;
    }
    if one.kind == 0 || other.kind == 0 {
        return one.uid == other.uid;
    }
    have_one_eid(one.uid, other.uid)
}
