//! Literals: Booleans, integers, strings and uids.
ghost use Rattle.std.specs.Prelude.{◌≡◌, IsTrue};
ghost use Rattle.std.specs.Ordering.{on};
ghost use Rattle.std.specs.Cmp.{partial_equiv_from_equiv, on_equiv};
ghost use Rattle.cedar_terms.specs.LiteralTree.{literal_cmp, same_literal};
ghost use Rattle.cedar_terms.specs.laws.LiteralLaws.{same_literal_equiv, literal_hash_respects};
ghost use Rattle.cedar_terms.specs.ValueHash.{literal_hash};
ghost use Rattle.cedar_terms.specs.ValueTexts.{literal_output};
ghost use Rattle.cedar_terms.specs.Views.{literal_tree};

use cedar_ids::entity::EntityUID;
use cedar_ids::escape::Escaped;
use std::alloc::AllocError;
use std::cmp::Ordering;
use std::fmt;
use std::hash::{Hash, Hasher};
use std::rc::Rc;

/// A literal: a leaf of an expression or of a value.
///
/// Comparing and hashing use the content, ignore the location of a uid, and do not allocate. Contracts see a literal
/// through `literal_tree`.
#[derive(Debug, Drop)]
pub enum Literal {
    /// A Boolean.
    Bool(bool),
    /// A 64-bit integer.
    Long(i64),
    /// A string.
    String(String),
    /// The uid of an entity.
    EntityUID(Rc<EntityUID>),
}

impl Clone for Literal {
    ghost is_clone = { λ x y. literal_tree y ≡ literal_tree x };

    /// Copies the literal. A string is copied, and a uid is shared.
    ///
    /// # Errors
    ///
    /// Returns `AllocError` if an allocation fails.
    fn clone(&self) -> Result<Literal, AllocError> {
        match self {
            Literal::Bool(b) => Ok(Literal::Bool(*b)),
            Literal::Long(n) => Ok(Literal::Long(*n)),
            Literal::String(text) => Ok(Literal::String(text.clone()?)),
            Literal::EntityUID(uid) => Ok(Literal::EntityUID(uid.clone()?)),
        }
    }
}

impl PartialEq for Literal {
    ghost eq = { on literal_tree same_literal };

    ghost laws = { partial_equiv_from_equiv (on_equiv literal_tree same_literal_equiv) };

    fn eq(&self, other: &Literal) -> bool {
        compare_literals(self, other).is_eq()
    }
}

impl Eq for Literal {
    ghost laws = { on_equiv literal_tree same_literal_equiv };
}

impl Hash for Literal {
    ghost hash_input = { λ l. literal_hash (literal_tree l) };

    ghost respects_eq = { literal_hash_respects };

    fn hash<H: Hasher>(&self, state: &mut H) {
        match self {
            Literal::Bool(b) => {
                state.write_u8(0);
                b.hash(state);
            }
            Literal::Long(n) => {
                state.write_u8(1);
                n.hash(state);
            }
            Literal::String(text) => {
                state.write_u8(2);
                text.hash(state);
            }
            Literal::EntityUID(uid) => {
                state.write_u8(3);
                uid.hash(state);
            }
        }
    }
}

impl fmt::Display for Literal {
    ghost output = { λ l. literal_output (literal_tree l) };

    fn fmt<W: fmt::Write>(&self, f: &mut fmt::Formatter<W>) -> fmt::Result {
        match self {
            Literal::Bool(b) => write!(f, "{b}"),
            Literal::Long(n) => write!(f, "{n}"),
            Literal::String(text) => {
                let text = Escaped(text.as_str());
                write!(f, "\"{text}\"")
            }
            Literal::EntityUID(uid) => write!(f, "{uid}"),
        }
    }
}

// Compares two literals in the order of values.
pub(crate) fn compare_literals(a: &Literal, b: &Literal) -> Ordering
    ensures { result ≡ literal_cmp (literal_tree a.now) (literal_tree b.now) }
{
    match a {
        Literal::Bool(x) => match b {
            Literal::Bool(y) => x.cmp(y),
            Literal::Long(_) | Literal::String(_) | Literal::EntityUID(_) => Ordering::Less,
        },
        Literal::Long(x) => match b {
            Literal::Bool(_) => Ordering::Greater,
            Literal::Long(y) => x.cmp(y),
            Literal::String(_) | Literal::EntityUID(_) => Ordering::Less,
        },
        Literal::String(x) => match b {
            Literal::Bool(_) | Literal::Long(_) => Ordering::Greater,
            Literal::String(y) => x.cmp(y),
            Literal::EntityUID(_) => Ordering::Less,
        },
        Literal::EntityUID(x) => match b {
            Literal::Bool(_) | Literal::Long(_) | Literal::String(_) => Ordering::Greater,
            Literal::EntityUID(y) => x.cmp(y),
        },
    }
}
