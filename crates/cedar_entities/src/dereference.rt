//! The result of a lookup of an entity.
ghost use Rattle.std.specs.Prelude.{◌≡◌, IfOk};
ghost use Rattle.cedar_entities.specs.Answers.{HasData, IsUnknownOf, WithData};

use cedar_ids::entity::EntityUID;
use cedar_terms::{Expr, StaticallyTyped, Unknown};
use std::alloc::{AllocError, Global};

// Creates the unknown for the entity with a uid.
pub(crate) fn unknown_of(alloc: Global, uid: &EntityUID) -> Result<Expr, AllocError>
    ensures { IfOk result (IsUnknownOf uid.now) }
{
    let name = uid.to_string(alloc)?;
    let ty = uid.type_of(alloc)?;
    Expr::unknown(alloc, Unknown::new_with_type(name, ty))
}

/// The result of a lookup.
#[derive(Debug, Drop)]
pub enum Dereference<'a, T> {
    /// There is no entity with the uid.
    NoSuchEntity,
    /// The entity is not known. The expression is an unknown for it.
    Residual(Expr),
    /// The value that was found.
    Data(&'a T),
}

impl<'a, T> Dereference<'a, T> {
    /// Returns the value. The caller must ensure that the variant is `Data`. Does not allocate.
    pub fn unwrap(self) -> &'a T
        requires { HasData self }
        ensures { WithData self.entry (λ x. result.now ≡ x) }
    {
        match self {
            Dereference::Data(found) => found,
            Dereference::NoSuchEntity => unreachable!(),
            Dereference::Residual(_) => unreachable!(),
        }
    }

    /// Returns the value, as [`Dereference::unwrap`] does. The text is documentation for readers of the call; it is not
    /// used, because the call cannot fail.
    pub fn expect(self, _msg: &str) -> &'a T
        requires { HasData self }
        ensures { WithData self.entry (λ x. result.now ≡ x) }
    {
        self.unwrap()
    }
}

impl<'a, T> Clone for Dereference<'a, T> {
    ghost is_clone = { λ x y. y ≡ x };

    /// Returns a copy. A found value is not copied, because it is a reference. The expression of a residual is copied.
    ///
    /// # Errors
    ///
    /// Returns `AllocError` if the allocation for an expression fails.
    fn clone(&self) -> Result<Dereference<'a, T>, AllocError> {
        match self {
            Dereference::NoSuchEntity => Ok(Dereference::NoSuchEntity),
            Dereference::Residual(expr) => Ok(Dereference::Residual(expr.clone()?)),
            Dereference::Data(found) => Ok(Dereference::Data(*found)),
        }
    }
}
