//! Reading of uids with a cache of their types. Many uids have the same type, so types are cached by their texts and
//! shared.
ghost use Rattle.std.specs.Prelude.{◌≡◌, ◌++◌, List, ℕ, IfOk, MatchOption, IfSome, IsTrue, codes};
ghost use Rattle.std.specs.String.{string_bytes};
ghost use Rattle.cedar_ids.specs.Escape.{escaped, is_ascii, is_extra_escape};
ghost use Rattle.cedar_ids.specs.Name.{NameParts};
ghost use Rattle.cedar_ids.specs.TextOf.{IsNameText, IsPrinted};
ghost use Rattle.cedar_ids.specs.UidOf.{uid_parts};
ghost use Rattle.cedar_ids.specs.Views.{type_name};
ghost use Rattle.cedar_ids.specs.declared.entity.EntityUID.{EntityUID};
ghost use Rattle.cedar_lines.specs.Reads.{ReadsAs};
ghost use Rattle.cedar_lines.specs.laws.Halves.{IsMadeOf};

use crate::eid_bytes::is_extra_escape_from;
use crate::escapes::text_of_escapes;
use crate::field::uid_field;
use crate::room::text_in;
use cedar_ids::entity::{Eid, EntityType, EntityUID};
use cedar_ids::err::ParseErrors;
use std::alloc::{AllocError, Global};
use std::marker::Model;

// A cached type, and its text with the mark `::"` after it. Contracts see the name of the type.
#[derive(Drop)]
struct KnownType {
    marked: String,
    ty: EntityType,
}

impl Model for KnownType {
    ghost use Rattle.std.specs.String.{string_bytes};
    ghost use Rattle.cedar_ids.specs.Name.{NameParts};
    ghost use Rattle.cedar_ids.specs.Views.{type_name};
    ghost use Rattle.cedar_lines.specs.laws.Halves.{IsMarked};

    ghost Value = { NameParts };

    ghost view = { λ k. type_name k.ty };

    ghost invariant = { λ k. IsMarked (type_name k.ty) (string_bytes k.marked) };
}

/// A cache of the types in earlier fields, keyed by their texts, so that later uids share them. It has up to 16 types,
/// each with a text of up to 256 bytes. If the cache is full, every fourth type that is read and not cached replaces a
/// cached one. The replaced places follow one another, so types that are no longer read disappear. The cache never
/// changes how a field is read.
///
/// # Differences from cedar-policy-core
///
/// The original has no such type.
#[derive(Drop)]
pub struct KnownTypes {
    types: Vec<KnownType>,
    // The number of types that were read and not cached since the cache was full.
    misses: usize,
}

impl KnownTypes {
    /// Creates an empty cache. Does not allocate.
    pub fn new(alloc: Global) -> KnownTypes {
        KnownTypes {
            types: Vec::new(alloc),
            misses: 0,
        }
    }
}

// The maximum number of cached types.
const MOST: usize = 16;

// The length in bytes of the longest text of a type that is cached.
const LONGEST: usize = 256;

// The number of misses for each replacement. Assume that each miss replaced a type, and that slightly more types than
// places were read in rotation. Then each type would be replaced just before it is read again.
const MISSES: usize = 4;

// The text between a type and an eid.
const MARK: &str = "::\"";

// Returns a text with the mark after it.
fn with_mark(alloc: Global, text: &str) -> Result<String, AllocError>
    ensures { IfOk result (λ t. string_bytes t ≡ text.now ++ codes "::\"") }
{
    let mut marked = String::with_capacity(alloc, text.len().saturating_add(MARK.len()))?;
    marked.push_str(text)?;
    marked.push_str(MARK)?;
    Ok(marked)
}

// Creates the cache entry of a type.
fn known_type(alloc: Global, text: &str, ty: &EntityType) -> Result<KnownType, AllocError>
    requires { IsNameText (type_name ty.now) text.now }
    ensures { IfOk result (λ k. k ≡ type_name ty.now) }
{
    let marked = with_mark(alloc, text)?;
    Ok(KnownType {
        marked,
        ty: ty.clone()?,
    })
}

// Caches a type, if its text is not too long. If the cache is full, every fourth type replaces another.
fn cache_type(
    alloc: Global,
    known: &mut KnownTypes,
    text: &str,
    ty: &EntityType,
) -> Result<(), AllocError>
    requires { IsNameText (type_name ty.now) text.now }
{
    if text.len() > LONGEST {
        return Ok(());
    }
    if known.types.len() < MOST {
        known.types.push(known_type(alloc, text, ty)?)?;
        return Ok(());
    }
    known.misses = known.misses.wrapping_add(1);
    if known.misses % MISSES != 0 {
        return Ok(());
    }
    if let Some(place) = known.types.get_mut(known.misses / MISSES % MOST) {
        *place = known_type(alloc, text, ty)?;
    }
    Ok(())
}

// Reads the type with this text and caches it. Returns nothing if the text is not a type.
fn read_type(
    alloc: Global,
    known: &mut KnownTypes,
    text: &str,
) -> Result<Option<EntityType>, AllocError>
    ensures { IfOk result (λ o. IfSome o (λ t. IsNameText (type_name t) text.now)) }
{
    match EntityType::from_normalized_str(alloc, text) {
        Ok(ty) => {
            cache_type(alloc, known, text, &ty)?;
            Ok(Some(ty))
        }
        Err(ParseErrors::Memory) => Err(AllocError),
        Err(ParseErrors::NotNormalized) => Ok(None),
        Err(ParseErrors::InvalidName) => Ok(None),
    }
}

// Returns the text before the first `::"`, and the text between it and the last `"`.
fn halves(text: &str) -> Option<(&str, &str)>
    ensures { IfSome result (λ r. text.now ≡ r.0.now ++ (codes "::\"" ++ (r.1.now ++ codes "\""))) }
{
    let (name, eid) = text.strip_suffix('"')?.split_once("::\"")?;
    Some((name, eid))
}

// Creates the uid of a type and an eid that needs no escape. Its text is the type, the mark, the eid and a quote.
fn uid_of_parts(ty: EntityType, eid: String) -> EntityUID
    requires { IsTrue (is_extra_escape (string_bytes eid)) }
    ensures { (name : List ℕ) → IsNameText (type_name ty) name →
        IsPrinted (uid_parts result) (name ++ (codes "::\"" ++ (string_bytes eid ++ codes "\""))) }
{
    EntityUID::from_components(ty, Eid::new(eid), None)
}

// Creates the uid of a type and an eid that was escaped. Its text is the type, the mark, the escaped eid and a quote.
fn uid_of_escaped(ty: EntityType, eid: String) -> EntityUID
    requires { IsTrue (is_ascii (string_bytes eid)) }
    ensures { (name : List ℕ) → IsNameText (type_name ty) name →
        IsPrinted (uid_parts result) (name ++ (codes "::\"" ++ (escaped (string_bytes eid) ++ codes "\""))) }
{
    EntityUID::from_components(ty, Eid::new(eid), None)
}

// Returns a new reference to a cached type.
fn type_of(known: &KnownType) -> Result<EntityType, AllocError>
    ensures { IfOk result (λ t. type_name t ≡ known.now) }
{
    known.ty.clone()
}

// Returns the text after the type and the mark, if it needs no escape. `unclosed` is the text of a uid without its last
// quote.
#[inline(always)]
fn eid_of_type<'a>(known: &KnownType, unclosed: &'a str) -> Option<&'a str>
    ensures made { IfSome result (λ e. IsMadeOf known.now e.now (unclosed.now ++ codes "\"")) }
    ensures own_escape { IfSome result (λ e. IsTrue (is_extra_escape e.now)) }
{
    let eid = unclosed.strip_prefix(known.marked.as_str())?;
    if is_extra_escape_from(unclosed.as_bytes(), known.marked.len()) {
        return Some(eid);
    }
    None
}

// Returns the cached type and the eid of the text of a uid, if the type is cached and the eid needs no escape.
#[inline(always)]
fn known_halves<'a, 'b>(known: &'a [KnownType], text: &'b str) -> Option<(&'a KnownType, &'b str)>
    ensures made { IfSome result (λ r. IsMadeOf r.0.now r.1.now text.now) }
    ensures own_escape { IfSome result (λ r. IsTrue (is_extra_escape r.1.now)) }
{
    let unclosed = text.strip_suffix('"')?;
    for one in known {
        if let Some(eid) = eid_of_type(one, unclosed) {
            return Some((one, eid));
        }
    }
    None
}

// Returns the cached type and the escaped eid of the text of a uid, if the type is cached.
fn known_parts<'a, 'b>(known: &'a [KnownType], text: &'b str) -> Option<(&'a KnownType, &'b str)>
    ensures { IfSome result (λ r. IsMadeOf r.0.now r.1.now text.now) }
{
    let unclosed = text.strip_suffix('"')?;
    for one in known {
        if let Some(escaped) = unclosed.strip_prefix(one.marked.as_str()) {
            return Some((one, escaped));
        }
    }
    None
}

// Reads a uid whose type is cached and whose eid has escapes. Decodes only the eid. Returns nothing for other texts and
// for rare escapes.
fn uid_with_escapes(
    alloc: Global,
    known: &[KnownType],
    text: &str,
) -> Result<Option<EntityUID>, AllocError>
    ensures { IfOk result (λ o. IfSome o (λ u. IsPrinted (uid_parts u) text.now)) }
{
    let Some((one, eid)) = known_parts(known, text) else {
        return Ok(None);
    };
    let Some(eid) = text_of_escapes(alloc, eid)? else {
        return Ok(None);
    };
    let ty = type_of(one)?;
    Ok(Some(uid_of_escaped(ty, eid)))
}

// Creates the uid of this type and this escaped eid. Reads and caches the type. Returns nothing if the first text is not
// a type, or for rare escapes.
fn uid_of_halves(
    alloc: Global,
    known: &mut KnownTypes,
    name: &str,
    eid: &str,
) -> Result<Option<EntityUID>, AllocError>
    ensures { IfOk result (λ o. IfSome o (λ u. IsPrinted (uid_parts u) (name.now
        ++ (codes "::\"" ++ (eid.now ++ codes "\""))))) }
{
    let Some(eid) = text_of_escapes(alloc, eid)? else {
        return Ok(None);
    };
    let Some(ty) = read_type(alloc, known, name)? else {
        return Ok(None);
    };
    Ok(Some(uid_of_escaped(ty, eid)))
}

// Reads a uid and caches its type. Returns nothing for rare escapes and for texts that are not the text of a uid.
fn uid_of_new_type(
    alloc: Global,
    known: &mut KnownTypes,
    text: &str,
) -> Result<Option<EntityUID>, AllocError>
    ensures { IfOk result (λ o. IfSome o (λ u. IsPrinted (uid_parts u) text.now)) }
{
    match halves(text) {
        None => Ok(None),
        Some((name, eid)) => uid_of_halves(alloc, known, name, eid),
    }
}

// Reads a uid whose type is not cached, or whose eid needs escapes.
#[inline(never)]
fn read_uid(
    alloc: Global,
    known: &mut KnownTypes,
    text: &str,
) -> Result<Option<EntityUID>, AllocError>
    ensures { IfOk result (ReadsAs (λ (u : EntityUID). IsPrinted (uid_parts u) text.now) (λ u. u)) }
{
    if let Some(uid) = uid_with_escapes(alloc, &known.types, text)? {
        return Ok(Some(uid));
    }
    if let Some(uid) = uid_of_new_type(alloc, known, text)? {
        return Ok(Some(uid));
    }
    uid_field(alloc, text)
}

/// Reads a field as a uid with an ASCII eid. Returns nothing if the field is not the text of such a uid. The result is
/// the same as [`uid_field`]'s.
///
/// If each escape of the eid has one letter after its backslash, the type is cached in `known` and shared with other uids
/// of the type, and the uid has no location. A uid with other escapes, such as `\u{1}`, is read without the cache.
///
/// # Errors
///
/// Returns `AllocError` if an allocation fails.
///
/// # Complexity
///
/// O(n), where n is the length of the field and of the texts of the cached types. Allocates the uid, and also its type
/// and a cache entry if the type is not cached.
///
/// # Differences from cedar-policy-core
///
/// The original has no such function.
#[inline(always)]
pub fn uid_of_text(
    alloc: Global,
    known: &mut KnownTypes,
    text: &str,
) -> Result<Option<EntityUID>, AllocError>
    ensures { IfOk result (ReadsAs (λ (u : EntityUID). IsPrinted (uid_parts u) text.now) (λ u. u)) }
{
    let Some((one, eid)) = known_halves(&known.types, text) else {
        // This function reads uids of cached types without a further move. Only the result of `read_uid` is moved.
        if let Some(uid) = read_uid(alloc, known, text)? {
            return Ok(Some(uid));
        }
        return Ok(None);
    };
    let ty = type_of(one)?;
    let eid = String::from_str(alloc, eid)?;
    Ok(Some(uid_of_parts(ty, eid)))
}

/// Reads a field as a uid, as [`uid_of_text`] does. If the type is cached, the eid is written into the buffer of
/// `room`, which is moved into the uid.
///
/// # Errors
///
/// Returns `AllocError` if an allocation fails.
///
/// # Complexity
///
/// O(n), where n is the length of the field and of the texts of the cached types. Allocates as [`uid_of_text`] does,
/// but the eid only if the buffer is too small.
///
/// # Differences from cedar-policy-core
///
/// The original has no such function.
pub fn uid_in(
    alloc: Global,
    known: &mut KnownTypes,
    room: &mut String,
    text: &str,
) -> Result<Option<EntityUID>, AllocError>
    ensures { IfOk result (ReadsAs (λ (u : EntityUID). IsPrinted (uid_parts u) text.now) (λ u. u)) }
{
    let Some((one, eid)) = known_halves(&known.types, text) else {
        return read_uid(alloc, known, text);
    };
    let ty = type_of(one)?;
    let eid = text_in(alloc, room, eid)?;
    Ok(Some(uid_of_parts(ty, eid)))
}
