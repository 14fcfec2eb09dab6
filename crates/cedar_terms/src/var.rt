//! The four variables of a request.
ghost use Rattle.std.specs.Prelude.{◌≡◌, Some, IsTrue};
ghost use Rattle.std.specs.Cmp.{partial_equiv_from_equiv};
ghost use Rattle.cedar_terms.specs.VarTree.{var_index, same_var, var_hash, var_text};
ghost use Rattle.cedar_terms.specs.laws.VarLaws.{var_hash_respects, same_var_equiv};

use std::fmt;
use std::hash::{Hash, Hasher};

/// A variable of a request, as it occurs in expressions.
///
/// `Display` writes it in lower case. Copying, comparing, hashing and writing do not allocate.
#[derive(Clone, Copy, Debug)]
pub enum Var {
    /// The entity that makes the request.
    Principal,
    /// The requested action.
    Action,
    /// The entity that the action concerns.
    Resource,
    /// The context: further attributes of the request.
    Context,
}

impl Var {
    // Returns the index of the variable.
    fn index(self) -> u8
        ensures { result ≡ var_index self }
    {
        match self {
            Var::Principal => 0,
            Var::Action => 1,
            Var::Resource => 2,
            Var::Context => 3,
        }
    }
}

impl PartialEq for Var {
    ghost eq = { same_var };

    ghost laws = { partial_equiv_from_equiv same_var_equiv };

    fn eq(&self, other: &Var) -> bool {
        self.index() == other.index()
    }
}

impl Eq for Var {
    ghost laws = { same_var_equiv };
}

impl Hash for Var {
    ghost hash_input = { var_hash };

    ghost respects_eq = { var_hash_respects };

    fn hash<H: Hasher>(&self, state: &mut H) {
        self.index().hash(state);
    }
}

impl fmt::Display for Var {
    ghost output = { λ v. Some (var_text v) };

    fn fmt<W: fmt::Write>(&self, f: &mut fmt::Formatter<W>) -> fmt::Result {
        match self {
            Var::Principal => f.write_str("principal"),
            Var::Action => f.write_str("action"),
            Var::Resource => f.write_str("resource"),
            Var::Context => f.write_str("context"),
        }
    }
}
