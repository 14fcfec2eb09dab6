//! Reading a part of a text.
ghost use Rattle.std.specs.Prelude.{MatchResult, string_bytes};
ghost use Rattle.cedar_ids.specs.TextOf.{IsNameText};
ghost use Rattle.cedar_terms.specs.Views.{literal_tree};
ghost use Rattle.cedar_c_trees.specs.Plans.{literal_item};
ghost use Rattle.cedar_c_trees.specs.Reads.{IsNameAt, IsTextAt, Decodes};
ghost use Rattle.cedar_c_trees.specs.laws.Stacks.{IsNoLiteral, IsNoName, IsNoTextAt, IsNotNamedAt};

use crate::node::Node;
use crate::numbers::truth_of;
use cedar_c_lists::{Reason, Span, text_at, uid_at};
use cedar_ids::err::ParseErrors;
use cedar_ids::name::Name;
use cedar_terms::Literal;
use std::alloc::Global;
use std::rc::Rc;
use std::str;

// Returns a part of a text as UTF-8. Does not allocate.
fn str_at(text: &[u8], at: Span) -> Result<&str, Reason>
    ensures { MatchResult result (λ t. IsTextAt text.now at t.now) (IsNoTextAt text.now at) }
{
    let text = text_at(text, at)?;
    match str::from_utf8(text) {
        Ok(text) => Ok(text),
        Err(_error) => Err(Reason::NotUtf8),
    }
}

/// Copies a part of a text as UTF-8.
pub(crate) fn string_at(alloc: Global, text: &[u8], at: Span) -> Result<String, Reason>
    ensures { MatchResult result (λ s. IsTextAt text.now at (string_bytes s)) (IsNoTextAt text.now at) }
{
    let text = str_at(text, at)?;
    let string = String::from_str(alloc, text)?;
    Ok(string)
}

/// Parses a name.
pub(crate) fn name_of(alloc: Global, text: &str) -> Result<Name, Reason>
    ensures { MatchResult result (λ n. IsNameText n text.now) (IsNoName text.now) }
{
    match Name::from_normalized_str(alloc, text) {
        Ok(name) => Ok(name),
        Err(ParseErrors::Memory) => Err(Reason::NoMemory),
        Err(ParseErrors::NotNormalized) => Err(Reason::NotAName),
        Err(ParseErrors::InvalidName) => Err(Reason::NotAName),
    }
}

/// Parses the name in a part of a text.
pub(crate) fn name_at(alloc: Global, text: &[u8], at: Span) -> Result<Name, Reason>
    ensures { MatchResult result (IsNameAt text.now at) (IsNotNamedAt text.now at) }
{
    let text = str_at(text, at)?;
    name_of(alloc, text)
}

/// Returns the literal of a node.
pub(crate) fn literal_of(alloc: Global, text: &[u8], node: &Node) -> Result<Literal, Reason>
    ensures { MatchResult result (λ l. Decodes text.now node.now (literal_item (literal_tree l)))
        (IsNoLiteral text.now node.now) }
{
    match node.kind {
        0 => {
            let truth = truth_of(node.number)?;
            Ok(Literal::Bool(truth))
        }
        1 => Ok(Literal::Long(node.number)),
        2 => {
            let string = string_at(alloc, text, node.at)?;
            Ok(Literal::String(string))
        }
        3 => {
            let uid = uid_at(alloc, text, node.at)?;
            let shared = Rc::new(alloc, uid)?;
            Ok(Literal::EntityUID(shared))
        }
        _ => Err(Reason::BadArgument),
    }
}
