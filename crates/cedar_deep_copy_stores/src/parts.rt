//! Deep copies of the parts of entities: attributes, tags and uids.
ghost use Rattle.std.specs.Prelude.{◌≡◌, IfOk};
ghost use Rattle.cedar_entity.specs.Fields.{fields_of};

use cedar_deep_copy::{CopiedUids, deep_copy_partial};
use cedar_entity::{Pairs, SharedUid, Uids};
use cedar_terms::PartialValue;
use std::alloc::{AllocError, Global};
use std::hash::BuildHasher;

// Copies attributes or tags.
pub(crate) fn deep_copy_fields(
    alloc: Global,
    fields: Pairs<'_>,
) -> Result<Vec<(String, PartialValue)>, AllocError>
    ensures { IfOk result (λ v. fields_of v.items ≡ fields.entry) }
{
    let mut copies = Vec::new(alloc);
    for (key, value) in fields {
        let key = String::from_str(alloc, key)?;
        let value = deep_copy_partial(alloc, value)?;
        copies.push((key, value))?;
    }
    Ok(copies)
}

// Returns the shared uids in `own` that are equal to the given uids.
pub(crate) fn deep_copy_uids<S: BuildHasher + Clone>(
    alloc: Global,
    own: &mut CopiedUids<S>,
    uids: Uids<'_>,
) -> Result<Vec<SharedUid>, AllocError>
    ensures { IfOk result (λ v. v.items ≡ uids.entry) }
{
    let mut copies = Vec::new(alloc);
    for uid in uids {
        copies.push(own.shared(alloc, uid)?)?;
    }
    Ok(copies)
}
