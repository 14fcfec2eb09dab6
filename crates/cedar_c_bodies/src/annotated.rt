//! Annotations from parts of a text.
ghost use Rattle.std.specs.Prelude.{MatchResult};
ghost use Rattle.cedar_ids.specs.TextOf.{IsIdentifierText};
ghost use Rattle.cedar_c_trees.specs.Reads.{IsTextAt};
ghost use Rattle.cedar_c_bodies.specs.Annotated.{AreAnnotationsAt, AreNoAnnotationsAt, ArePairsAt, IsKeyAt, IsNoKey};
ghost use Rattle.cedar_c_bodies.specs.Annotated.{IsNoKeyAt, IsNoPairAt, IsNoValueAt, IsPairAt};

use crate::layout::AnnotationAt;
use cedar_annotation::{Annotation, Annotations};
use cedar_c_lists::{Reason, Span, text_at};
use cedar_ids::err::ParseErrors;
use cedar_ids::id::AnyId;
use std::alloc::Global;
use std::str;

/// Parses the key of an annotation.
///
/// # Errors
///
/// - `NotAName`: the bytes are not an identifier.
/// - `NoMemory`: an allocation failed.
pub fn key_of(alloc: Global, text: &[u8]) -> Result<AnyId, Reason>
    ensures { MatchResult result (λ k. IsIdentifierText k text.now) (IsNoKey text.now) }
{
    let Ok(text) = str::from_utf8(text) else {
        return Err(Reason::NotAName);
    };
    match AnyId::from_normalized_str(alloc, text) {
        Ok(key) => Ok(key),
        Err(ParseErrors::Memory) => Err(Reason::NoMemory),
        Err(ParseErrors::NotNormalized) => Err(Reason::NotAName),
        Err(ParseErrors::InvalidName) => Err(Reason::NotAName),
    }
}

// Parses the key of an annotation in a part of a text.
fn key_at(alloc: Global, text: &[u8], at: Span) -> Result<AnyId, Reason>
    ensures { MatchResult result (IsKeyAt text.now at) (IsNoKeyAt text.now at) }
{
    let text = text_at(text, at)?;
    let key = key_of(alloc, text)?;
    Ok(key)
}

// Reads the value of an annotation in a part of a text.
fn value_at(alloc: Global, text: &[u8], at: Span) -> Result<Annotation, Reason>
    ensures { MatchResult result (IsTextAt text.now at) (IsNoValueAt text.now at) }
{
    let text = text_at(text, at)?;
    let Ok(text) = str::from_utf8(text) else {
        return Err(Reason::NotUtf8);
    };
    let val = String::from_str(alloc, text)?;
    Ok(Annotation { val, loc: None })
}

// Reads a key and its value.
fn pair_at(alloc: Global, text: &[u8], at: AnnotationAt) -> Result<(AnyId, Annotation), Reason>
    ensures { MatchResult result (λ p. IsPairAt text.now p at) (IsNoPairAt text.now at) }
{
    let key = key_at(alloc, text, at.key)?;
    let value = value_at(alloc, text, at.value)?;
    Ok((key, value))
}

// Reads keys and their values.
fn pairs_at(
    alloc: Global,
    text: &[u8],
    annotations: &[AnnotationAt],
) -> Result<Vec<(AnyId, Annotation)>, Reason>
    ensures { MatchResult result (λ v. ArePairsAt text.now v.items annotations.now)
        (AreNoAnnotationsAt text.now annotations.now) }
{
    let mut pairs = Vec::new(alloc);
    for at in annotations {
        let pair = pair_at(alloc, text, *at)?;
        pairs.push(pair)?;
    }
    Ok(pairs)
}

// Reads annotations. For a repeated key the last one is used.
pub(crate) fn annotations_at(
    alloc: Global,
    text: &[u8],
    annotations: &[AnnotationAt],
) -> Result<Annotations, Reason>
    ensures { MatchResult result (AreAnnotationsAt text.now annotations.now)
        (AreNoAnnotationsAt text.now annotations.now) }
{
    let pairs = pairs_at(alloc, text, annotations)?;
    let made = Annotations::try_from_iter(alloc, pairs)?;
    Ok(made)
}
