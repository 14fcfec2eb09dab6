//! The reasons and the texts of the errors of a store.
ghost use Rattle.std.specs.Prelude.{◌≡◌, ◌≢◌, ◌++◌, IfOk, OnOk};
ghost use Rattle.std.specs.List.{AllByRecursion, flat_map};
ghost use Rattle.cedar_c_stores.specs.Stores.{IsRefusalText, closure_names, closure_reason, key_in_error, reason_of};
ghost use Rattle.cedar_c_stores.specs.Stores.{uids_in_error};
ghost use Rattle.cedar_c_lists.specs.Texts.{IsAsciiUid, spaced};
ghost use Rattle.cedar_c_lists.specs.declared.reason.Reason.TheVariants as reasons;

use cedar_c_lists::{Reason, push_uid};
use cedar_entities::EntitiesError;
use cedar_graph::TcError;
use cedar_ids::entity::EntityUID;
use std::alloc::{AllocError, Global};

// Returns the reason of an error of the closure.
fn closure_reason(error: &TcError<EntityUID>) -> Reason
    ensures { result ≡ closure_reason error.now }
{
    match error {
        TcError::MissingTcEdge(_) => Reason::NotClosed,
        TcError::HasCycle(_) => Reason::Cycle,
        TcError::Memory => Reason::NoMemory,
    }
}

// Returns the reason of an error.
pub(crate) fn reason_of(error: &EntitiesError) -> Reason
    ensures { result ≡ reason_of error.now }
{
    match error {
        EntitiesError::Duplicate(_) => Reason::Duplicate,
        EntitiesError::TransitiveClosureError(error) => closure_reason(error),
        EntitiesError::SelfAncestor { .. } => Reason::SelfAncestor,
        EntitiesError::DuplicateAncestor { .. } => Reason::DuplicateAncestor,
        EntitiesError::ActionParentIsNotAction { .. } => Reason::ActionParentIsNotAction,
        EntitiesError::ReservedKey(_) => Reason::ReservedKey,
        EntitiesError::Memory => Reason::NoMemory,
    }
}

// Appends the uids in an error of the closure.
fn push_closure(
    alloc: Global,
    out: &mut Vec<u8>,
    error: &TcError<EntityUID>,
) -> Result<(), AllocError>
    ensures { OnOk result (AllByRecursion IsAsciiUid (closure_names error.now) →
        out.new.items ≡ out.old.items ++ flat_map spaced (closure_names error.now)) }
{
    match error {
        TcError::MissingTcEdge(edge) => {
            push_uid(alloc, out, &edge.child)?;
            push_uid(alloc, out, &edge.parent)?;
            push_uid(alloc, out, &edge.grandparent)
        }
        TcError::HasCycle(cycle) => push_uid(alloc, out, cycle.vertex_with_loop()),
        TcError::Memory => Ok(()),
    }
}

// Appends the uids or the key in an error.
fn push_uid_text(alloc: Global, out: &mut Vec<u8>, error: &EntitiesError) -> Result<(), AllocError>
    ensures { OnOk result (AllByRecursion IsAsciiUid (uids_in_error error.now) →
        out.new.items ≡ out.old.items ++ (flat_map spaced (uids_in_error error.now) ++ key_in_error error.now)) }
{
    match error {
        EntitiesError::Duplicate(uid) => push_uid(alloc, out, uid),
        EntitiesError::TransitiveClosureError(error) => push_closure(alloc, out, error),
        EntitiesError::SelfAncestor { uid } => push_uid(alloc, out, uid),
        EntitiesError::DuplicateAncestor { uid, ancestor } => {
            push_uid(alloc, out, uid)?;
            push_uid(alloc, out, ancestor)
        }
        EntitiesError::ActionParentIsNotAction { uid, parent } => {
            push_uid(alloc, out, uid)?;
            push_uid(alloc, out, parent)
        }
        EntitiesError::ReservedKey(key) => {
            out.push(b' ')?;
            out.extend_from_slice(key.as_bytes())
        }
        EntitiesError::Memory => Ok(()),
    }
}

// The reason of an error other than an allocation failure, and the text of the error.
#[derive(Drop)]
pub(crate) struct ErrorText {
    pub(crate) reason: Reason,
    pub(crate) text: Vec<u8>,
}

// Returns a reason with the text of the error: the words of the reason, then the uids or the key in the error.
fn error_text_for(
    alloc: Global,
    reason: Reason,
    error: &EntitiesError,
) -> Result<ErrorText, AllocError>
    requires { reason ≡ reason_of error.now }
    ensures { IfOk result (λ t. (t.reason ≡ reason_of error.now) × IsRefusalText error.now t.text.items) }
{
    let mut text = Vec::new(alloc);
    text.extend_from_slice(reason.words().as_bytes())?;
    push_uid_text(alloc, &mut text, error)?;
    Ok(ErrorText { reason, text })
}

// Returns the reason and the text of an error, or `AllocError` if the error is an allocation failure.
pub(crate) fn error_text_of(alloc: Global, error: &EntitiesError) -> Result<ErrorText, AllocError>
    ensures { IfOk result (λ t. (t.reason ≡ reason_of error.now) × (t.reason ≢ reasons.NoMemory)
        × IsRefusalText error.now t.text.items) }
{
    match reason_of(error) {
        Reason::NoMemory => Err(AllocError),
        reason => error_text_for(alloc, reason, error),
    }
}
