//! Static types of uids and entities.
ghost use Rattle.std.specs.Prelude.{◌≡◌, IfOk};
ghost use Rattle.cedar_ids.specs.Name.{NameParts};
ghost use Rattle.cedar_ids.specs.UidOf.{uid_parts};

use cedar_ids::entity::{EntityType, EntityUID};
use std::alloc::{AllocError, Global};

/// A type that is known without evaluation. Only entity types are supported.
///
/// Comparing and hashing ignore locations and do not allocate.
#[derive(Clone, Debug, Drop, PartialEq, Eq, Hash)]
pub enum StaticType {
    /// An entity of this entity type.
    Entity {
        /// The entity type.
        ty: EntityType,
    },
}

/// Values whose type is known without evaluation.
pub trait StaticallyTyped {
    ghost use Rattle.cedar_terms.specs.TypeViews.{entity_name};

    // The name of the entity type.
    ghost static_name: { Self → NameParts };

    /// Returns the type.
    ///
    /// # Errors
    ///
    /// Returns `AllocError` if an allocation fails.
    fn type_of(&self, alloc: Global) -> Result<StaticType, AllocError>
        ensures { IfOk result (λ t. entity_name t ≡ static_name self.now) };
}

impl StaticallyTyped for EntityUID {
    ghost static_name = { λ u. (uid_parts u).name };

    fn type_of(&self, _alloc: Global) -> Result<StaticType, AllocError> {
        Ok(StaticType::Entity {
            ty: self.entity_type().clone()?,
        })
    }
}
