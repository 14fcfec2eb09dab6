//! Reading of parents. Many entities have the same parent, so recently read parents are cached by their texts and
//! shared.
ghost use Rattle.std.specs.Prelude.{◌≡◌, List, IfOk, IfSome, map};
ghost use Rattle.cedar_ids.specs.TextOf.{IsPrinted};
ghost use Rattle.cedar_ids.specs.UidOf.{uid_parts};
ghost use Rattle.cedar_ids.specs.declared.entity.EntityUID.{EntityUID};
ghost use Rattle.cedar_lines.specs.Reads.{ReadsAs};
ghost use Rattle.cedar_entity_lines.specs.EntityCommand.{AreTexts};

use cedar_lines::known_types::{KnownTypes, uid_of_text};
use cedar_lines::room::text_in;
use cedar_uid_sets::SharedUid;
use std::alloc::{AllocError, Global};
use std::marker::Model;
use std::mem;

// A cached parent and its text. Contracts see the uid.
#[derive(Drop)]
struct KnownParent {
    text: String,
    uid: SharedUid,
}

impl Model for KnownParent {
    ghost use Rattle.std.specs.String.{string_bytes};
    ghost use Rattle.cedar_ids.specs.TextOf.{IsPrinted};
    ghost use Rattle.cedar_ids.specs.UidOf.{uid_parts};
    ghost use Rattle.cedar_ids.specs.declared.entity.EntityUID.{EntityUID};

    ghost Value = { EntityUID };

    ghost view = { λ k. k.uid };

    ghost invariant = { λ k. IsPrinted (uid_parts k.uid) (string_bytes k.text) };
}

/// A cache of the types and parents in earlier lines, keyed by their texts, so that later lines share them. It has the
/// types of a [`KnownTypes`] and 256 places for parents. The text of a parent determines its place. A place has the
/// last parent read for it, if its text has at most 4,096 bytes. The cache never changes how a line is read.
///
/// # Differences from cedar-policy-core
///
/// The original has no such type.
#[derive(Drop)]
pub struct KnownUids {
    pub(crate) types: KnownTypes,
    parents: Vec<Option<KnownParent>>,
}

impl KnownUids {
    /// Creates an empty cache. Does not allocate.
    pub fn new(alloc: Global) -> KnownUids {
        KnownUids {
            types: KnownTypes::new(alloc),
            parents: Vec::new(alloc),
        }
    }

    /// Returns the cache of types, for lines that name no parents.
    pub fn types(&mut self) -> &mut KnownTypes {
        &mut self.types
    }
}

// The number of places for parents.
const PLACES: usize = 256;

// The length in bytes of the longest text of a parent that is cached.
const LONGEST: usize = 4096;

// Returns the place of a text with these last bytes. The last byte, a quote, is ignored. Texts that end in consecutive
// numbers get different places.
fn place_of_end(end: &[u8; 8]) -> usize {
    let digits = u32::from(end[6]) + u32::from(end[5]) * 10 + u32::from(end[4]) * 100;
    let others = u32::from(end[3]) * 31 + u32::from(end[2]) * 7 + u32::from(end[1]) * 13;
    (digits + others + u32::from(end[0])) as usize % PLACES
}

// Returns the place of a text, from its last bytes. Texts with the same place replace each other.
fn place_of(text: &str) -> usize {
    let bytes = text.as_bytes();
    if let Some(end) = bytes.last_chunk::<8>() {
        return place_of_end(end);
    }
    let mut sum = 0u32;
    for b in bytes {
        sum = sum.wrapping_mul(31).wrapping_add(u32::from(*b));
    }
    sum as usize % PLACES
}

// Returns a new reference to the cached parent at a place, if it has this text.
#[inline(always)]
fn known_parent(
    known: &[Option<KnownParent>],
    place: usize,
    text: &str,
) -> Result<Option<SharedUid>, AllocError>
    ensures { IfOk result (λ o. IfSome o (λ u. IsPrinted (uid_parts u) text.now)) }
{
    let Some(Some(one)) = known.get(place) else {
        return Ok(None);
    };
    if one.text.as_str() != text {
        return Ok(None);
    }
    Ok(Some(one.uid.clone()?))
}

// Creates the places, all empty.
fn make_places(known: &mut Vec<Option<KnownParent>>) -> Result<(), AllocError> {
    for _ in 0..PLACES {
        known.push(None)?;
    }
    Ok(())
}

// Returns the text of a cached parent, so that its buffer can be reused.
fn text_of(alloc: Global, known: Option<KnownParent>) -> String {
    match known {
        None => String::new(alloc),
        Some(KnownParent { text, uid: _uid }) => text,
    }
}

// Caches a parent at its place, if its text is not too long.
fn cache_parent(
    alloc: Global,
    known: &mut Vec<Option<KnownParent>>,
    place: usize,
    text: &str,
    uid: &SharedUid,
) -> Result<(), AllocError>
    requires { IsPrinted (uid_parts uid.now) text.now }
{
    if text.len() > LONGEST {
        return Ok(());
    }
    if known.is_empty() {
        make_places(known)?;
    }
    let Some(at) = known.get_mut(place) else {
        return Ok(());
    };
    let mut room = text_of(alloc, mem::replace(at, None));
    *at = Some(KnownParent {
        text: text_in(alloc, &mut room, text)?,
        uid: uid.clone()?,
    });
    Ok(())
}

// Reads a parent that is not cached, and caches it. Returns nothing if the text is not a uid.
fn read_parent(
    alloc: Global,
    known: &mut KnownUids,
    place: usize,
    text: &str,
) -> Result<Option<SharedUid>, AllocError>
    ensures { IfOk result (ReadsAs (λ (u : EntityUID). IsPrinted (uid_parts u) text.now) (λ u. u)) }
{
    match uid_of_text(alloc, &mut known.types, text)? {
        None => Ok(None),
        Some(uid) => {
            let shared = SharedUid::new(alloc, uid)?;
            cache_parent(alloc, &mut known.parents, place, text, &shared)?;
            Ok(Some(shared))
        }
    }
}

// Returns the cached parent with this text, or reads it. Returns nothing if the text is not a uid.
#[inline(always)]
pub(crate) fn parent_of_text(
    alloc: Global,
    known: &mut KnownUids,
    text: &str,
) -> Result<Option<SharedUid>, AllocError>
    ensures { IfOk result (ReadsAs (λ (u : EntityUID). IsPrinted (uid_parts u) text.now) (λ u. u)) }
{
    let place = place_of(text);
    if let Some(uid) = known_parent(&known.parents, place, text)? {
        return Ok(Some(uid));
    }
    read_parent(alloc, known, place, text)
}

// Reads each field as a parent. Returns nothing if one is not a uid.
pub(crate) fn parents_of_fields(
    alloc: Global,
    known: &mut KnownUids,
    fields: &[&str],
) -> Result<Option<Vec<SharedUid>>, AllocError>
    ensures { IfOk result (ReadsAs
        (λ (us : List EntityUID). AreTexts us (map (λ f. f.now) fields.now))
        (λ us. us.items)) }
{
    let mut parents = Vec::with_capacity(alloc, fields.len())?;
    for field in fields {
        match parent_of_text(alloc, known, field)? {
            None => return Ok(None),
            Some(parent) => parents.push(parent)?,
        }
    }
    Ok(Some(parents))
}
