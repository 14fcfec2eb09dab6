//! Unknowns: placeholders for values that are not known yet.
ghost use Rattle.std.specs.Prelude.{◌≡◌, IsTrue, Some, None, string_bytes};
ghost use Rattle.std.specs.Cmp.{partial_equiv_from_equiv};
ghost use Rattle.cedar_terms.specs.UnknownParts.{UnknownParts, same_unknown, unknown_hash};
ghost use Rattle.cedar_terms.specs.laws.UnknownLaws.{same_unknown_equiv, unknown_hash_respects};

use crate::static_type::StaticType;
use cedar_ids::escape::Escaped;
use std::alloc::AllocError;
use std::fmt;
use std::hash::{Hash, Hasher};
use std::marker::Model;

/// A value that is not known yet: its name and its optional type.
///
/// Comparing and hashing ignore locations and do not allocate.
#[derive(Debug, Drop)]
pub struct Unknown {
    /// The name that identifies the unknown.
    pub name: String,
    /// The type of the value, if it is known.
    pub type_annotation: Option<StaticType>,
}

impl Model for Unknown {
    ghost use Rattle.std.specs.Prelude.{string_bytes};
    ghost use Rattle.cedar_terms.specs.UnknownParts.{UnknownParts};
    ghost use Rattle.cedar_terms.specs.TypeViews.{annotation_name};

    ghost Value = { UnknownParts };

    ghost view = { λ u. record { name = string_bytes u.name; annotation = annotation_name u.type_annotation } };
}

impl Unknown {
    ghost use Rattle.cedar_terms.specs.TypeViews.{entity_name};

    /// Creates an unknown with this name and without a type. Does not allocate.
    pub fn new_untyped(name: String) -> Unknown
        ensures { result ≡ record { name = string_bytes name; annotation = None } }
    {
        Self {
            name,
            type_annotation: None,
        }
    }

    /// Creates an unknown with this name and type. Does not allocate.
    pub fn new_with_type(name: String, ty: StaticType) -> Unknown
        ensures { result
            ≡ record { name = string_bytes name; annotation = Some (entity_name ty) } }
    {
        Unknown {
            name,
            type_annotation: Some(ty),
        }
    }
}

impl Clone for Unknown {
    ghost is_clone = { λ x y. y ≡ x };

    /// Copies the unknown.
    ///
    /// # Errors
    ///
    /// Returns `AllocError` if an allocation fails.
    fn clone(&self) -> Result<Unknown, AllocError> {
        let type_annotation = match &self.type_annotation {
            None => None,
            Some(ty) => Some(ty.clone()?),
        };
        Ok(Unknown {
            name: self.name.clone()?,
            type_annotation,
        })
    }
}

impl PartialEq for Unknown {
    ghost eq = { same_unknown };

    ghost laws = { partial_equiv_from_equiv same_unknown_equiv };

    fn eq(&self, other: &Unknown) -> bool {
        self.name == other.name && self.type_annotation == other.type_annotation
    }
}

impl Eq for Unknown {
    ghost laws = { same_unknown_equiv };
}

impl Hash for Unknown {
    ghost hash_input = { unknown_hash };

    ghost respects_eq = { unknown_hash_respects };

    fn hash<H: Hasher>(&self, state: &mut H) {
        self.name.hash(state);
        match &self.type_annotation {
            None => state.write_u8(0),
            Some(StaticType::Entity { ty }) => {
                state.write_u8(1);
                ty.name().hash(state);
            }
        }
    }
}

impl fmt::Display for Unknown {
    ghost use Rattle.cedar_terms.specs.ExprTexts.{unknown_output};

    ghost output = { unknown_output };

    fn fmt<W: fmt::Write>(&self, f: &mut fmt::Formatter<W>) -> fmt::Result {
        let name = Escaped(self.name.as_str());
        write!(f, "unknown(\"{name}\")")
    }
}
