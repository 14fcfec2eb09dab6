//! The output of the commands on policy sets.
ghost use Rattle.std.specs.Prelude.{◌≡◌, ◌++◌, ◌∷◌, OnOk, IfOk, map, codes, ℕ, List};
ghost use Rattle.std.specs.List.{flat_map};
ghost use Rattle.std.specs.String.{string_bytes};
ghost use Rattle.cedar_ids.specs.UidOf.{uid_parts};
ghost use Rattle.cedar_policy_set.specs.Refusals.{set_error_of, linking_error_of, unlinking_error_of};
ghost use Rattle.cedar_policy_merge.specs.Merge.{body_ids, policy_ids};
ghost use Rattle.cedar_policy_lines.specs.PolicyOutput.{ok_line, merged_line, id_text, uid_text, id_field};
ghost use Rattle.cedar_policy_lines.specs.PolicyOutput.{renamed_fields, ids_lines};
ghost use Rattle.cedar_policy_lines.specs.laws.Machines.{Said, SaidMerged, refused_with};

use cedar_ids::entity::EntityUID;
use cedar_ids::escape::is_extra_escape;
use cedar_ids::policy_id::PolicyID;
use cedar_lines::writing::push_line;
use cedar_policy::{LinkingError, Policy};
use cedar_policy_set::{PolicySet, PolicySetError, PolicySetUnlinkError};
use indexmap::IndexMap;
use std::alloc::{AllocError, Global};
use std::hash::BuildHasher;

// Writes the line `ok`.
pub(crate) fn push_ok(out: &mut Vec<u8>) -> Result<(), AllocError>
    ensures { OnOk result (out.new.items ≡ out.old.items ++ ok_line) }
{
    push_line(out, "ok")
}

// Returns the escaped text of an id, or the empty text if the id is not ASCII.
fn id_text(alloc: Global, id: &PolicyID) -> Result<String, AllocError>
    ensures { IfOk result (λ s. string_bytes s ≡ id_text id.now) }
{
    if id.as_ref().is_ascii() {
        return id.to_string(alloc);
    }
    Ok(String::new(alloc))
}

// Returns the text of a uid, or the empty text if its eid is not ASCII.
fn uid_text(alloc: Global, uid: &EntityUID) -> Result<String, AllocError>
    ensures { IfOk result (λ s. string_bytes s ≡ uid_text (uid_parts uid.now)) }
{
    if uid.eid().as_ref().is_ascii() {
        return uid.to_string(alloc);
    }
    Ok(String::new(alloc))
}

// Writes a text and a uid.
fn push_uid(
    alloc: Global,
    out: &mut Vec<u8>,
    before: &str,
    uid: &EntityUID,
) -> Result<(), AllocError>
    ensures { OnOk result (out.new.items ≡ out.old.items ++ (before.now ++ uid_text (uid_parts uid.now))) }
{
    out.extend_from_slice(before.as_bytes())?;
    let text = uid_text(alloc, uid)?;
    out.extend_from_slice(text.as_bytes())
}

// Writes the line of an error with a uid.
fn push_refused_uid(
    alloc: Global,
    out: &mut Vec<u8>,
    words: &str,
    uid: &EntityUID,
) -> Result<(), AllocError>
    ensures { OnOk result (out.new.items ≡ out.old.items ++ refused_with words.now (uid_text (uid_parts uid.now))) }
{
    out.extend_from_slice(b"refused: ")?;
    push_uid(alloc, out, words, uid)?;
    out.push(b'\n')?;
    Ok(())
}

// Writes the text of an id. Most ids need no escape, and are copied directly.
fn push_id_text(alloc: Global, out: &mut Vec<u8>, id: &PolicyID) -> Result<(), AllocError>
    ensures { OnOk result (out.new.items ≡ out.old.items ++ id_text id.now) }
{
    let own = id.as_ref().as_bytes();
    if is_extra_escape(own) {
        out.extend_from_slice(own)?;
        return Ok(());
    }
    let text = id_text(alloc, id)?;
    out.extend_from_slice(text.as_bytes())
}

// Writes a text and an id.
fn push_id(alloc: Global, out: &mut Vec<u8>, before: &str, id: &PolicyID) -> Result<(), AllocError>
    ensures { OnOk result (out.new.items ≡ out.old.items ++ (before.now ++ id_text id.now)) }
{
    out.extend_from_slice(before.as_bytes())?;
    push_id_text(alloc, out, id)
}

// Writes the line of an error with an id.
fn push_refused(
    alloc: Global,
    out: &mut Vec<u8>,
    words: &str,
    id: &PolicyID,
) -> Result<(), AllocError>
    ensures { OnOk result (out.new.items ≡ out.old.items ++ refused_with words.now (id_text id.now)) }
{
    out.extend_from_slice(b"refused: ")?;
    push_id(alloc, out, words, id)?;
    out.push(b'\n')?;
    Ok(())
}

// Writes the result of adding a policy or a template.
pub(crate) fn push_by_set(
    alloc: Global,
    out: &mut Vec<u8>,
    answer: Result<(), PolicySetError>,
) -> Result<(), AllocError>
    ensures { OnOk result (Said set_error_of answer out.old.items out.new.items) }
{
    match answer {
        Ok(()) => push_ok(out),
        Err(PolicySetError::Occupied { id }) => push_refused(alloc, out, "occupied ", &id),
        Err(PolicySetError::Memory) => Err(AllocError),
    }
}

// Writes the result of linking.
pub(crate) fn push_by_linking(
    alloc: Global,
    out: &mut Vec<u8>,
    answer: Result<(), LinkingError>,
) -> Result<(), AllocError>
    ensures { OnOk result (Said linking_error_of answer out.old.items out.new.items) }
{
    match answer {
        Ok(()) => push_ok(out),
        Err(LinkingError::ArityError { .. }) => push_line(out, "refused: arity"),
        Err(LinkingError::NotAnAction { uid }) => {
            push_refused_uid(alloc, out, "not an action ", &uid)
        }
        Err(LinkingError::NoSuchTemplate { id }) => push_refused(alloc, out, "no template ", &id),
        Err(LinkingError::PolicyIdConflict { id }) => push_refused(alloc, out, "occupied ", &id),
        Err(LinkingError::Memory) => Err(AllocError),
    }
}

// Writes the result of unlinking.
pub(crate) fn push_by_unlinking(
    alloc: Global,
    out: &mut Vec<u8>,
    answer: Result<Policy, PolicySetUnlinkError>,
) -> Result<(), AllocError>
    ensures { OnOk result (Said unlinking_error_of answer out.old.items out.new.items) }
{
    match answer {
        Ok(_policy) => push_ok(out),
        Err(PolicySetUnlinkError::UnlinkingError(id)) => push_refused(alloc, out, "no link ", &id),
        Err(PolicySetUnlinkError::NotLinkError(id)) => {
            push_refused(alloc, out, "not a link ", &id)
        }
        Err(PolicySetUnlinkError::Memory) => Err(AllocError),
    }
}

// Writes the renamed ids, each with its new id.
fn push_renamed<S: BuildHasher + Copy>(
    alloc: Global,
    out: &mut Vec<u8>,
    renaming: &IndexMap<PolicyID, PolicyID, S>,
) -> Result<(), AllocError>
    ensures { OnOk result (out.new.items ≡ out.old.items ++ flat_map renamed_fields renaming.now.entries) }
{
    for (old, new) in renaming {
        push_id(alloc, out, "\t", old)?;
        push_id(alloc, out, "\t", new)?;
    }
    Ok(())
}

// Writes the line of a successful merge.
fn push_merged<S: BuildHasher + Copy>(
    alloc: Global,
    out: &mut Vec<u8>,
    renaming: &IndexMap<PolicyID, PolicyID, S>,
) -> Result<(), AllocError>
    ensures { OnOk result (out.new.items
        ≡ out.old.items ++ merged_line renaming.now.entries) }
{
    out.extend_from_slice(b"ok")?;
    push_renamed(alloc, out, renaming)?;
    out.push(b'\n')?;
    Ok(())
}

// Writes the result of merging.
pub(crate) fn push_by_merging<S: BuildHasher + Copy>(
    alloc: Global,
    out: &mut Vec<u8>,
    answer: Result<IndexMap<PolicyID, PolicyID, S>, PolicySetError>,
) -> Result<(), AllocError>
    ensures { OnOk result (SaidMerged (λ r. r.entries) answer out.old.items out.new.items) }
{
    match answer {
        Ok(renaming) => push_merged(alloc, out, &renaming),
        Err(PolicySetError::Occupied { id }) => push_refused(alloc, out, "occupied ", &id),
        Err(PolicySetError::Memory) => Err(AllocError),
    }
}

// Writes the ids of all bodies.
fn push_bodies<S: BuildHasher + Copy>(
    alloc: Global,
    out: &mut Vec<u8>,
    set: &PolicySet<S>,
) -> Result<(), AllocError>
    ensures { OnOk result (out.new.items ≡ out.old.items ++ flat_map id_field (body_ids set.now)) }
{
    for template in set.all_templates() {
        push_id(alloc, out, "\t", template.id())?;
    }
    Ok(())
}

// Writes the ids of all policies.
fn push_policies<S: BuildHasher + Copy>(
    alloc: Global,
    out: &mut Vec<u8>,
    set: &PolicySet<S>,
) -> Result<(), AllocError>
    ensures { OnOk result (out.new.items ≡ out.old.items ++ flat_map id_field (policy_ids set.now)) }
{
    for policy in set.policies() {
        push_id(alloc, out, "\t", policy.id())?;
    }
    Ok(())
}

// Writes the two lines with the ids of a set.
pub(crate) fn push_ids<S: BuildHasher + Copy>(
    alloc: Global,
    out: &mut Vec<u8>,
    set: &PolicySet<S>,
) -> Result<(), AllocError>
    ensures { OnOk result (out.new.items ≡ out.old.items ++ ids_lines set.now) }
{
    out.extend_from_slice(b"bodies")?;
    push_bodies(alloc, out, set)?;
    out.extend_from_slice(b"\npolicies")?;
    push_policies(alloc, out, set)?;
    out.push(b'\n')?;
    Ok(())
}
