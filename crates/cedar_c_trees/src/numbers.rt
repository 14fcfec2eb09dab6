//! The meaning of the numbers of nodes.
ghost use Rattle.std.specs.Prelude.{◌≡◌, MatchResult, pos};
ghost use Rattle.cedar_terms.specs.SlotTree.{slot_index};
ghost use Rattle.cedar_terms.specs.VarTree.{var_index};
ghost use Rattle.cedar_c_trees.specs.Reads.{truth_number};
ghost use Rattle.cedar_c_trees.specs.laws.Stacks.{IsNoNumber};

use cedar_c_lists::Reason;
use cedar_terms::{SlotId, Var};

/// Returns the Boolean with a number.
pub(crate) fn truth_of(number: i64) -> Result<bool, Reason>
    ensures { MatchResult result (λ b. number ≡ truth_number b) (IsNoNumber truth_number number) }
{
    match number {
        0 => Ok(false),
        1 => Ok(true),
        _ => Err(Reason::BadArgument),
    }
}

/// Returns the variable with a number.
pub(crate) fn var_of(number: i64) -> Result<Var, Reason>
    ensures { MatchResult result (λ v. number ≡ pos (var_index v)) (IsNoNumber (λ v. pos (var_index v)) number) }
{
    match number {
        0 => Ok(Var::Principal),
        1 => Ok(Var::Action),
        2 => Ok(Var::Resource),
        3 => Ok(Var::Context),
        _ => Err(Reason::BadArgument),
    }
}

/// Returns the slot with a number.
pub(crate) fn slot_of(number: i64) -> Result<SlotId, Reason>
    ensures { MatchResult result (λ s. number ≡ pos (slot_index s)) (IsNoNumber (λ s. pos (slot_index s)) number) }
{
    match number {
        0 => Ok(SlotId::Principal),
        1 => Ok(SlotId::Action),
        2 => Ok(SlotId::Resource),
        _ => Err(Reason::BadArgument),
    }
}
