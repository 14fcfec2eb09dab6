//! The effect of a policy: permit or forbid.
ghost use Rattle.std.specs.Prelude.{◌≡◌, Some};
ghost use Rattle.std.specs.Ordering.{as_partial_cmp};
ghost use Rattle.std.specs.Cmp.{partial_equiv_from_equiv};
ghost use Rattle.std.proofs.Common.{refl};
ghost use Rattle.cedar_body.specs.Effects.{effect_index, same_effect, effect_cmp, effect_hash, effect_text};
ghost use Rattle.cedar_body.specs.laws.EffectLaws.{same_effect_equiv, effect_cmp_total, effect_ties, effect_po};
ghost use Rattle.cedar_body.specs.laws.EffectLaws.{effect_hash_respects};

use std::cmp::Ordering;
use std::fmt;
use std::hash::{Hash, Hasher};

/// The effect of a policy on the requests that satisfy its condition.
///
/// `Permit` is less than `Forbid`. `Display` writes the effect in lower case, for example `permit`. Copying, comparing,
/// hashing and writing do not allocate.
#[derive(Clone, Copy, Debug)]
pub enum Effect {
    /// The policy permits the request.
    Permit,
    /// The policy forbids the request.
    Forbid,
}

impl Effect {
    // Returns the index of the effect.
    fn index(self) -> u8
        ensures { result ≡ effect_index self }
    {
        match self {
            Effect::Permit => 0,
            Effect::Forbid => 1,
        }
    }
}

impl PartialEq for Effect {
    ghost eq = { same_effect };

    ghost laws = { partial_equiv_from_equiv same_effect_equiv };

    fn eq(&self, other: &Effect) -> bool {
        self.index() == other.index()
    }
}

impl Eq for Effect {
    ghost laws = { same_effect_equiv };
}

impl PartialOrd for Effect {
    ghost partial_cmp = { as_partial_cmp effect_cmp };

    ghost laws = { effect_po };

    fn partial_cmp(&self, other: &Effect) -> Option<Ordering> {
        Some(self.cmp(other))
    }
}

impl Ord for Effect {
    ghost cmp = { effect_cmp };

    ghost total = { effect_cmp_total };

    ghost matches_partial_cmp = { λ x y. refl };

    ghost matches_eq = { effect_ties };

    fn cmp(&self, other: &Effect) -> Ordering {
        self.index().cmp(&other.index())
    }
}

impl Hash for Effect {
    ghost hash_input = { effect_hash };

    ghost respects_eq = { effect_hash_respects };

    fn hash<H: Hasher>(&self, state: &mut H) {
        self.index().hash(state);
    }
}

impl fmt::Display for Effect {
    ghost output = { λ e. Some (effect_text e) };

    fn fmt<W: fmt::Write>(&self, f: &mut fmt::Formatter<W>) -> fmt::Result {
        match self {
            Effect::Permit => f.write_str("permit"),
            Effect::Forbid => f.write_str("forbid"),
        }
    }
}
