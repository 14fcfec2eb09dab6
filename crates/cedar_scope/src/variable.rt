//! The variable of a constraint: the principal or the resource.
ghost use Rattle.std.specs.Prelude.{◌≡◌, Some};
ghost use Rattle.std.specs.Ordering.{on};
ghost use Rattle.std.specs.Cmp.{partial_equiv_from_equiv, on_equiv};
ghost use Rattle.cedar_terms.specs.VarTree.{same_var, var_hash};
ghost use Rattle.cedar_terms.specs.laws.VarLaws.{var_hash_respects, same_var_equiv};
ghost use Rattle.cedar_scope.specs.ScopeTrees.{var_of, slot_id_of};
ghost use Rattle.cedar_scope.specs.ScopeTexts.{variable_text};
ghost use Rattle.cedar_scope.specs.Variables.{variable_of};

use cedar_terms::slot::SlotId;
use cedar_terms::var::Var;
use std::fmt;
use std::hash::{Hash, Hasher};

/// A variable whose constraints have the shared type: the principal or the resource.
///
/// `Display` writes the variable in lower case. Copying, comparing, hashing, writing and converting do not allocate.
#[derive(Clone, Copy, Debug)]
pub enum PrincipalOrResource {
    /// The entity that makes the request.
    Principal,
    /// The entity that the action concerns.
    Resource,
}

impl From<PrincipalOrResource> for Var {
    ghost from_gives = { λ v x. x ≡ var_of v };

    fn from(variable: PrincipalOrResource) -> Var {
        match variable {
            PrincipalOrResource::Principal => Var::Principal,
            PrincipalOrResource::Resource => Var::Resource,
        }
    }
}

impl From<PrincipalOrResource> for SlotId {
    ghost from_gives = { λ v s. s ≡ slot_id_of v };

    fn from(variable: PrincipalOrResource) -> SlotId {
        match variable {
            PrincipalOrResource::Principal => SlotId::Principal,
            PrincipalOrResource::Resource => SlotId::Resource,
        }
    }
}

/// Converts a variable. `Var::Action` and `Var::Context` are returned as the error.
impl TryFrom<Var> for PrincipalOrResource {
    type Error = Var;

    ghost try_from_gives = { λ x r. r ≡ variable_of x };

    fn try_from(var: Var) -> Result<PrincipalOrResource, Var> {
        match var {
            Var::Principal => Ok(PrincipalOrResource::Principal),
            Var::Action => Err(Var::Action),
            Var::Resource => Ok(PrincipalOrResource::Resource),
            Var::Context => Err(Var::Context),
        }
    }
}

impl PartialEq for PrincipalOrResource {
    ghost eq = { on var_of same_var };

    ghost laws = { partial_equiv_from_equiv (on_equiv var_of same_var_equiv) };

    fn eq(&self, other: &PrincipalOrResource) -> bool {
        Var::from(*self) == Var::from(*other)
    }
}

impl Eq for PrincipalOrResource {
    ghost laws = { on_equiv var_of same_var_equiv };
}

impl Hash for PrincipalOrResource {
    ghost hash_input = { λ v. var_hash (var_of v) };

    ghost respects_eq = { λ x y e. var_hash_respects (var_of x) (var_of y) e };

    fn hash<H: Hasher>(&self, state: &mut H) {
        Var::from(*self).hash(state);
    }
}

impl fmt::Display for PrincipalOrResource {
    ghost output = { λ v. Some (variable_text v) };

    fn fmt<W: fmt::Write>(&self, f: &mut fmt::Formatter<W>) -> fmt::Result {
        let var = Var::from(*self);
        write!(f, "{var}")
    }
}
