//! The reserved keys of records.
ghost use Rattle.std.specs.Prelude.{◌≡◌};
ghost use Rattle.cedar_terms.specs.Reserved.{is_reserved_key};

/// Returns whether a key is reserved, so that no record may have it: `__extn`, `__expr` or `__entity`. Does not
/// allocate.
pub fn is_reserved_key(key: &str) -> bool
    ensures { result ≡ is_reserved_key key.now }
{
    key == "__extn" || key == "__expr" || key == "__entity"
}
