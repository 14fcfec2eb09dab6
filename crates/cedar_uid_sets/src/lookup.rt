//! Lookup of a shared uid by a plain uid.
ghost use Rattle.std.specs.Prelude.{◌≡◌};
ghost use Rattle.cedar_ids.specs.UidOf.{same_uid};
ghost use Rattle.cedar_ids.specs.laws.UidOfLaws.{uid_hash_respects, same_uid_equiv};

use crate::shared_uid::SharedUid;
use cedar_ids::entity::EntityUID;
use std::collections::hash_map::Equivalent;

/// Allows a map whose keys are shared uids to be looked up by a plain uid.
impl Equivalent<SharedUid> for &EntityUID {
    ghost equivalent = { λ q k. same_uid q.now k };

    ghost respects_hash = { λ q k. uid_hash_respects q.now k };

    ghost respects_eq = { λ q x y. same_uid_equiv.congr q.now x y };

    fn equivalent(&self, key: &SharedUid) -> bool {
        *self == key.uid()
    }
}
