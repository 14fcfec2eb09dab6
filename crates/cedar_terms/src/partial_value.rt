//! Partial values: a value, or an expression that is not evaluated yet.
ghost use Rattle.std.specs.Prelude.{◌≡◌, IsTrue};
ghost use Rattle.std.specs.Cmp.{partial_equiv_from_equiv};
ghost use Rattle.cedar_terms.specs.PartialTexts.{partial_output};
ghost use Rattle.cedar_terms.specs.PartialViews.{same_partial, partial_hash};
ghost use Rattle.cedar_terms.specs.laws.PartialLaws.{same_partial_equiv, partial_hash_respects};

use crate::expr::Expr;
use crate::value::Value;
use std::alloc::AllocError;
use std::fmt;
use std::hash::{Hash, Hasher};

/// The result of partial evaluation: a value, or an expression that is not evaluated yet.
///
/// Comparing and hashing ignore locations and do not allocate.
#[derive(Debug, Drop)]
pub enum PartialValue {
    /// A value.
    Value(Value),
    /// An expression that is not evaluated yet.
    Residual(Expr),
}

impl Clone for PartialValue {
    ghost is_clone = { λ x y. y ≡ x };

    /// Copies the partial value, as the `clone` of its content does.
    ///
    /// # Errors
    ///
    /// Returns `AllocError` if an allocation fails.
    fn clone(&self) -> Result<PartialValue, AllocError> {
        match self {
            PartialValue::Value(value) => Ok(PartialValue::Value(value.clone()?)),
            PartialValue::Residual(expr) => Ok(PartialValue::Residual(expr.clone()?)),
        }
    }
}

impl PartialEq for PartialValue {
    ghost eq = { same_partial };

    ghost laws = { partial_equiv_from_equiv same_partial_equiv };

    fn eq(&self, other: &PartialValue) -> bool {
        match self {
            PartialValue::Value(value) => match other {
                PartialValue::Value(other) => value == other,
                PartialValue::Residual(_) => false,
            },
            PartialValue::Residual(expr) => match other {
                PartialValue::Value(_) => false,
                PartialValue::Residual(other) => expr == other,
            },
        }
    }
}

impl Eq for PartialValue {
    ghost laws = { same_partial_equiv };
}

impl Hash for PartialValue {
    ghost hash_input = { partial_hash };

    ghost respects_eq = { partial_hash_respects };

    fn hash<H: Hasher>(&self, state: &mut H) {
        match self {
            PartialValue::Value(value) => {
                state.write_u8(0);
                value.hash(state);
            }
            PartialValue::Residual(expr) => {
                state.write_u8(1);
                expr.hash(state);
            }
        }
    }
}

impl fmt::Display for PartialValue {
    ghost output = { partial_output };

    fn fmt<W: fmt::Write>(&self, f: &mut fmt::Formatter<W>) -> fmt::Result {
        match self {
            PartialValue::Value(value) => write!(f, "{value}"),
            PartialValue::Residual(expr) => write!(f, "{expr}"),
        }
    }
}
