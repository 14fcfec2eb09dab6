//! Deep copies of partial values and of expressions.
ghost use Rattle.std.specs.Prelude.{◌≡◌, IfOk};

use cedar_c_trees::{expr_of, partial_value_of, write_expr, write_partial};
use cedar_terms::{Expr, PartialValue};
use std::alloc::{AllocError, Global};

/// Returns a deep copy of a partial value, without locations.
///
/// The value is encoded as nodes over a text, and the nodes are decoded. The result is compared with the value, so it
/// is equal. Encoding and decoding use explicit stacks; only the comparison recurses.
///
/// # Errors
///
/// Returns `AllocError` if an allocation fails. `AllocError` is also returned if the value has more than `CEDAR_LEVELS`
/// levels, or has a set that was not built in order. A value that was decoded from nodes has at most that many levels,
/// and its sets are in order.
pub fn deep_copy_partial(alloc: Global, partial: &PartialValue) -> Result<PartialValue, AllocError>
    ensures { IfOk result (λ v. v ≡ partial.now) }
{
    let written = write_partial(alloc, partial)?;
    match partial_value_of(alloc, written.bytes(), written.nodes()) {
        Ok(copy) => {
            if copy == *partial {
                Ok(copy)
            } else {
                Err(AllocError)
            }
        }
        Err(_reason) => Err(AllocError),
    }
}

/// Returns a deep copy of an expression, without locations. It is made and compared as in [`deep_copy_partial`].
///
/// # Errors
///
/// The errors of [`deep_copy_partial`].
pub fn deep_copy_expr(alloc: Global, expr: &Expr) -> Result<Expr, AllocError>
    ensures { IfOk result (λ e. e ≡ expr.now) }
{
    let written = write_expr(alloc, expr)?;
    match expr_of(alloc, written.bytes(), written.nodes()) {
        Ok(copy) => {
            if copy == *expr {
                Ok(copy)
            } else {
                Err(AllocError)
            }
        }
        Err(_reason) => Err(AllocError),
    }
}
