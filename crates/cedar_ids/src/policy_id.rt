//! Ids of policies and templates.
ghost use Rattle.std.specs.Prelude.{◌≡◌, List, ℕ, IfOk};
ghost use Rattle.std.specs.String.{string_bytes};
ghost use Rattle.std.specs.Ordering.{as_partial_cmp};
ghost use Rattle.std.specs.Cmp.{partial_equiv_from_equiv};
ghost use Rattle.std.specs.Cmp.Lexicographic.{texts_ties, texts_po};
ghost use Rattle.std.specs.Hash as fed;
ghost use Rattle.std.specs.Cmp.Rules.{hashing};
ghost use Rattle.std.proofs.Common.{rules, refl};
ghost use Rattle.cedar_ids.specs.Texts.{same_text, text_order};
ghost use Rattle.cedar_ids.specs.laws.TextLaws.{same_text_equiv, text_order_total};
ghost use Rattle.cedar_ids.specs.Escape.{escaped_output};

use crate::escape::Escaped;
use std::alloc::{AllocError, Global};
use std::cmp::Ordering;
use std::fmt;
use std::hash::{Hash, Hasher};
use std::marker::Model;

/// The id of a policy or of a template: any text.
///
/// Equality, order and hash use the text. The order compares bytes. `clone` allocates a copy of the text.
/// Contracts see the bytes of the text.
#[derive(Drop, Debug)]
pub struct PolicyID {
    text: String,
}

impl Model for PolicyID {
    ghost use Rattle.std.specs.Prelude.{List, ℕ};
    ghost use Rattle.std.specs.String.{string_bytes};

    ghost Value = { List ℕ };

    ghost view = { λ i. string_bytes i.text };
}

impl PolicyID {
    /// Creates an id with a copy of this text.
    ///
    /// # Errors
    ///
    /// Returns `AllocError` if an allocation fails.
    pub fn from_string(alloc: Global, text: &str) -> Result<PolicyID, AllocError>
        ensures { IfOk result (λ id. id ≡ text.now) }
    {
        let text = String::from_str(alloc, text)?;
        Ok(PolicyID::from_smolstr(text))
    }

    /// Creates an id with this text. Does not allocate.
    ///
    /// # Differences from cedar-policy-core
    ///
    /// The original takes a `SmolStr`.
    pub fn from_smolstr(id: String) -> PolicyID
        ensures { result ≡ string_bytes id }
    {
        PolicyID { text: id }
    }

    /// Returns the text. Does not allocate.
    pub fn into_smolstr(self) -> String
        ensures { string_bytes result ≡ self }
    {
        let PolicyID { text } = self;
        text
    }

    /// Returns the text. Does not allocate.
    pub fn as_ref(&self) -> &str
        ensures { result.now ≡ self.now }
    {
        self.text.as_str()
    }
}

impl Clone for PolicyID {
    ghost is_clone = { λ x y. y ≡ x };

    fn clone(&self) -> Result<PolicyID, AllocError> {
        let text = self.text.clone()?;
        Ok(PolicyID::from_smolstr(text))
    }
}

impl PartialEq for PolicyID {
    ghost eq = { same_text };

    ghost laws = { partial_equiv_from_equiv same_text_equiv };

    fn eq(&self, other: &PolicyID) -> bool {
        self.text == other.text
    }
}

impl Eq for PolicyID {
    ghost laws = { same_text_equiv };
}

impl PartialOrd for PolicyID {
    ghost partial_cmp = { as_partial_cmp text_order };

    ghost laws = { texts_po };

    fn partial_cmp(&self, other: &PolicyID) -> Option<Ordering> {
        Some(self.cmp(other))
    }
}

impl Ord for PolicyID {
    ghost cmp = { text_order };

    ghost total = { text_order_total };

    ghost matches_partial_cmp = { λ x y. refl };

    ghost matches_eq = { texts_ties };

    fn cmp(&self, other: &PolicyID) -> Ordering {
        self.text.cmp(&other.text)
    }
}

impl Hash for PolicyID {
    ghost hash_input = { fed.str };

    ghost respects_eq = { Prim.search (hashing, rules) };

    fn hash<H: Hasher>(&self, state: &mut H) {
        self.text.hash(state);
    }
}

/// Writes the escaped text, without quotes around it. Does not allocate.
impl fmt::Display for PolicyID {
    ghost output = { λ i. escaped_output i };

    fn fmt<W: fmt::Write>(&self, f: &mut fmt::Formatter<W>) -> fmt::Result {
        let text = Escaped(self.as_ref());
        write!(f, "{text}")
    }
}
