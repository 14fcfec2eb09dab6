//! Deep copies of the bindings of slots.
use cedar_binding::{SlotEnv, bound_to, no_bindings};
use cedar_deep_copy::deep_copy_uid;
use cedar_terms::slot::SlotId;
use std::alloc::{AllocError, Global};

// Binds a slot as in `values`, if it is bound there.
fn bind_as(
    alloc: Global,
    own: &mut SlotEnv,
    values: &SlotEnv,
    slot: SlotId,
) -> Result<(), AllocError> {
    if let Some(uid) = bound_to(values, slot) {
        own.insert(slot, deep_copy_uid(alloc, uid)?)?;
    }
    Ok(())
}

// Copies bindings.
pub(crate) fn deep_copy_bindings(alloc: Global, values: &SlotEnv) -> Result<SlotEnv, AllocError> {
    let mut own = no_bindings(alloc);
    bind_as(alloc, &mut own, values, SlotId::Principal)?;
    bind_as(alloc, &mut own, values, SlotId::Action)?;
    bind_as(alloc, &mut own, values, SlotId::Resource)?;
    Ok(own)
}
