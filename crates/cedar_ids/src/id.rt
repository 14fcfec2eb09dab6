//! Identifiers, with and without the reserved words.
ghost use Rattle.std.specs.Prelude.{◌≡◌, Some, List, ℕ, IsTrue};
ghost use Rattle.std.specs.Rc.{rc_str_bytes};
ghost use Rattle.std.specs.Ordering.{as_partial_cmp};
ghost use Rattle.std.specs.Cmp.{partial_equiv_from_equiv};
ghost use Rattle.std.specs.Cmp.Lexicographic.{texts_ties, texts_po};
ghost use Rattle.std.specs.Hash as fed;
ghost use Rattle.std.specs.List.{list_all};
ghost use Rattle.cedar_ids.specs.Texts.{same_text, text_order};
ghost use Rattle.cedar_ids.specs.laws.TextLaws.{same_text_equiv, text_order_total};
ghost use Rattle.cedar_ids.specs.Reading.{is_id_start, is_id_part, is_identifier, is_reserved, is_id};
ghost use Rattle.cedar_ids.specs.TextOf.{IsIdText, IsIdentifierText};
ghost use Rattle.cedar_ids.specs.Reads.{Reads};
ghost use Rattle.std.specs.Cmp.Rules.{hashing};
ghost use Rattle.std.proofs.Common.{rules, refl};

use crate::err::ParseErrors;
use std::alloc::{AllocError, Global};
use std::cmp::Ordering;
use std::fmt;
use std::hash::{Hash, Hasher};
use std::marker::Model;
use std::rc::RcStr;

/// An identifier that is not a reserved word: an ASCII letter or `_`, followed by ASCII letters, digits and `_`. The
/// components of a name are such identifiers.
///
/// Equality, order and hash use the text. The order compares bytes. `clone` shares the text and copies no
/// characters. `Display` writes the text. Contracts see the text.
#[derive(Drop, Debug)]
pub struct Id {
    text: RcStr,
}

impl Model for Id {
    ghost use Rattle.std.specs.Prelude.{List, ℕ};
    ghost use Rattle.std.specs.Rc.{rc_str_bytes};
    ghost use Rattle.std.specs.Prelude.{IsTrue};
    ghost use Rattle.cedar_ids.specs.Reading.{is_id};

    ghost Value = { List ℕ };

    ghost view = { λ i. rc_str_bytes i.text };

    ghost invariant = { λ i. IsTrue (is_id (rc_str_bytes i.text)) };
}

fn is_id_start(b: u8) -> bool
    ensures { result ≡ is_id_start b }
{
    b.is_ascii_alphabetic() || b == b'_'
}

fn is_id_part(b: u8) -> bool
    ensures { result ≡ is_id_part b }
{
    is_id_start(b) || b.is_ascii_digit()
}

fn are_id_parts(text: &[u8]) -> bool
    ensures { result ≡ list_all is_id_part text.now }
{
    text.iter().all(|b| is_id_part(*b))
}

fn is_identifier(text: &str) -> bool
    ensures { result ≡ is_identifier text.now }
{
    match text.as_bytes().split_first() {
        None => false,
        Some((first, rest)) => is_id_start(*first) && are_id_parts(rest),
    }
}

fn is_reserved(text: &str) -> bool
    ensures { result ≡ is_reserved text.now }
{
    text == "true"
        || text == "false"
        || text == "if"
        || text == "then"
        || text == "else"
        || text == "in"
        || text == "is"
        || text == "like"
        || text == "has"
        || text == "__cedar"
}

#[tactic(auto, unfolding(crate::specs::Reading::is_id))]
fn is_id(text: &str) -> bool
    ensures { result ≡ is_id text.now }
{
    is_identifier(text) && !is_reserved(text)
}

impl Id {
    /// Reads an identifier that is not a reserved word. The identifier must be the whole text, without blanks around
    /// it.
    ///
    /// # Errors
    ///
    /// - `InvalidName`: the text is not such an identifier.
    /// - `Memory`: an allocation failed.
    ///
    /// # Complexity
    ///
    /// O(n), where n is the length of the text. Allocates a copy of the text.
    pub fn from_normalized_str(alloc: Global, text: &str) -> Result<Id, ParseErrors>
        ensures { Reads IsIdText result text.now }
    {
        if is_id(text) {
            let text = RcStr::from_str(alloc, text)?;
            Ok(Id { text })
        } else {
            Err(ParseErrors::InvalidName)
        }
    }

    /// Returns the text. Does not allocate.
    pub fn as_ref(&self) -> &str
        ensures value { result.now ≡ self.now }
        ensures valid { IsTrue (is_id self.now) }
    {
        self.text.as_str()
    }
}

impl Clone for Id {
    ghost is_clone = { λ x y. y ≡ x };

    fn clone(&self) -> Result<Id, AllocError> {
        let text = self.text.clone()?;
        Ok(Id { text })
    }
}

impl PartialEq for Id {
    ghost eq = { same_text };

    ghost laws = { partial_equiv_from_equiv same_text_equiv };

    fn eq(&self, other: &Id) -> bool {
        self.text == other.text
    }
}

impl Eq for Id {
    ghost laws = { same_text_equiv };
}

impl PartialOrd for Id {
    ghost partial_cmp = { as_partial_cmp text_order };

    ghost laws = { texts_po };

    fn partial_cmp(&self, other: &Id) -> Option<Ordering> {
        Some(self.cmp(other))
    }
}

impl Ord for Id {
    ghost cmp = { text_order };

    ghost total = { text_order_total };

    ghost matches_partial_cmp = { λ x y. refl };

    ghost matches_eq = { texts_ties };

    fn cmp(&self, other: &Id) -> Ordering {
        self.text.cmp(&other.text)
    }
}

impl Hash for Id {
    ghost hash_input = { fed.str };

    ghost respects_eq = { Prim.search (hashing, rules) };

    fn hash<H: Hasher>(&self, state: &mut H) {
        self.text.hash(state);
    }
}

impl fmt::Display for Id {
    ghost output = { λ i. Some i };

    fn fmt<W: fmt::Write>(&self, f: &mut fmt::Formatter<W>) -> fmt::Result {
        fmt::Display::fmt(&self.text, f)
    }
}

/// An identifier, reserved or not: an ASCII letter or `_`, followed by ASCII letters, digits and `_`. The keys of
/// annotations are such identifiers.
///
/// Equality, order and hash use the text. The order compares bytes. `clone` shares the text and copies no
/// characters. `Display` writes the text. Contracts see the text.
#[derive(Drop, Debug)]
pub struct AnyId {
    word: RcStr,
}

impl Model for AnyId {
    ghost use Rattle.std.specs.Prelude.{List, ℕ};
    ghost use Rattle.std.specs.Rc.{rc_str_bytes};
    ghost use Rattle.std.specs.Prelude.{IsTrue};
    ghost use Rattle.cedar_ids.specs.Reading.{is_identifier};

    ghost Value = { List ℕ };

    ghost view = { λ i. rc_str_bytes i.word };

    ghost invariant = { λ i. IsTrue (is_identifier (rc_str_bytes i.word)) };
}

impl AnyId {
    /// Reads an identifier, which may be a reserved word. The identifier must be the whole text, without blanks around
    /// it.
    ///
    /// # Errors
    ///
    /// - `InvalidName`: the text is not an identifier.
    /// - `Memory`: an allocation failed.
    ///
    /// # Complexity
    ///
    /// O(n), where n is the length of the text. Allocates a copy of the text.
    pub fn from_normalized_str(alloc: Global, text: &str) -> Result<AnyId, ParseErrors>
        ensures { Reads IsIdentifierText result text.now }
    {
        if is_identifier(text) {
            let word = RcStr::from_str(alloc, text)?;
            Ok(AnyId { word })
        } else {
            Err(ParseErrors::InvalidName)
        }
    }

    /// Returns the text. Does not allocate.
    pub fn as_ref(&self) -> &str
        ensures value { result.now ≡ self.now }
        ensures valid { IsTrue (is_identifier self.now) }
    {
        self.word.as_str()
    }
}

impl Clone for AnyId {
    ghost is_clone = { λ x y. y ≡ x };

    fn clone(&self) -> Result<AnyId, AllocError> {
        let word = self.word.clone()?;
        Ok(AnyId { word })
    }
}

impl PartialEq for AnyId {
    ghost eq = { same_text };

    ghost laws = { partial_equiv_from_equiv same_text_equiv };

    fn eq(&self, other: &AnyId) -> bool {
        self.word == other.word
    }
}

impl Eq for AnyId {
    ghost laws = { same_text_equiv };
}

impl PartialOrd for AnyId {
    ghost partial_cmp = { as_partial_cmp text_order };

    ghost laws = { texts_po };

    fn partial_cmp(&self, other: &AnyId) -> Option<Ordering> {
        Some(self.cmp(other))
    }
}

impl Ord for AnyId {
    ghost cmp = { text_order };

    ghost total = { text_order_total };

    ghost matches_partial_cmp = { λ x y. refl };

    ghost matches_eq = { texts_ties };

    fn cmp(&self, other: &AnyId) -> Ordering {
        self.word.cmp(&other.word)
    }
}

impl Hash for AnyId {
    ghost hash_input = { fed.str };

    ghost respects_eq = { Prim.search (hashing, rules) };

    fn hash<H: Hasher>(&self, state: &mut H) {
        self.word.hash(state);
    }
}

impl fmt::Display for AnyId {
    ghost output = { λ i. Some i };

    fn fmt<W: fmt::Write>(&self, f: &mut fmt::Formatter<W>) -> fmt::Result {
        fmt::Display::fmt(&self.word, f)
    }
}
