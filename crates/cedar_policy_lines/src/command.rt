//! Commands on policy sets, and how to read them from the fields of a line.
ghost use Rattle.std.specs.Prelude.{◌≡◌, OnOk, IfOk, map, Some, None, if◌then◌else◌};
ghost use Rattle.std.specs.List.{list_all};
ghost use Rattle.std.specs.Map.{keys_of};
ghost use Rattle.std.specs.Option.{option_map};
ghost use Rattle.cedar_ids.specs.UidOf.{uid_parts};
ghost use Rattle.cedar_lines.specs.Reads.{ReadsAs};
ghost use Rattle.cedar_binding.specs.Views.{env_of};
ghost use Rattle.cedar_policy_lines.specs.PolicyCommand.{IsPolicyCommand, Static, Template, Link, Unlink, Other, Ids, bound_more};
ghost use Rattle.cedar_policy_lines.specs.CommandOf.{policy_command_of};
ghost use Rattle.cedar_policy_lines.specs.laws.SlotFlagLaws.{is_named, named_alone, bound_if};
ghost use Rattle.cedar_policy_lines.specs.laws.PolicyReading.{only, bindings_of, static_of, template_of, link_of};
ghost use Rattle.cedar_policy_lines.specs.laws.PolicyReading.{unlink_of, merge_of, bare_of, command_by};

use crate::field::{TemplateSlots, binding_of, effect_of, renaming_of, slots_of};
use crate::slot_flags::SlotFlags;
use cedar_binding::no_bindings;
use cedar_body::Effect;
use cedar_ids::entity::EntityUID;
use cedar_ids::policy_id::PolicyID;
use cedar_lines::known_types::KnownTypes;
use cedar_lines::room::text_in;
use cedar_policy::SlotEnv;
use cedar_terms::slot::SlotId;
use std::alloc::{AllocError, Global};
use std::mem;

/// A command on the two policy sets.
///
/// # Differences from cedar-policy-core
///
/// The original has no such type.
#[derive(Debug, Drop)]
pub enum PolicyCommand {
    /// Adds a static policy with this id and effect.
    Static(PolicyID, Effect),
    /// Adds a template with this id and these slots.
    Template(PolicyID, TemplateSlots),
    /// Links the template with the first id to these bindings under the second id.
    Link(PolicyID, PolicyID, SlotEnv),
    /// Removes the link with this id.
    Unlink(PolicyID),
    /// Swaps the current set and the other set.
    Other,
    /// Merges the other set into the current one. If the value is true, ids in conflict are renamed.
    Merge(bool),
    /// Writes the ids of the current set.
    Ids,
}

// The buffers for reading links, which the next link reuses: the id of the template, the map of the bindings, and the
// eid of an earlier binding.
#[derive(Debug, Drop)]
pub(crate) struct LinkRoom {
    pub(crate) template: PolicyID,
    pub(crate) values: SlotEnv,
    eid: String,
}

impl LinkRoom {
    // Creates empty buffers. Does not allocate.
    pub(crate) fn new(alloc: Global) -> LinkRoom {
        LinkRoom {
            template: no_id(alloc),
            values: no_bindings(alloc),
            eid: String::new(alloc),
        }
    }

    // Stores the buffers of a link for the next one.
    pub(crate) fn keep(&mut self, template: PolicyID, values: SlotEnv) {
        self.template = template;
        self.values = values;
    }

    // Reads the fields after `link`, if they are a link's. Returns the id of the link. The id of the template and the
    // bindings are then in `self`.
    pub(crate) fn read(
        &mut self,
        alloc: Global,
        known: &mut KnownTypes,
        fields: &[&str],
    ) -> Result<Option<PolicyID>, AllocError>
        ensures { IfOk result (λ o. option_map (λ i. Link self.new.template i (env_of self.new.values)) o
            ≡ link_of (map (λ f. f.now) fields.now)) }
    {
        let Some((template, rest)) = fields.split_first() else {
            return Ok(None);
        };
        let Some((id, rest)) = rest.split_first() else {
            return Ok(None);
        };
        if !read_bindings(alloc, known, self, rest)? {
            return Ok(None);
        }
        set_id(alloc, &mut self.template, template)?;
        Ok(Some(PolicyID::from_string(alloc, id)?))
    }
}

// Returns the empty id. Does not allocate.
pub(crate) fn no_id(alloc: Global) -> PolicyID {
    PolicyID::from_smolstr(String::new(alloc))
}

// Sets an id to this text, and reuses its buffer. Many links after one another name the same template.
fn set_id(alloc: Global, id: &mut PolicyID, text: &str) -> Result<(), AllocError>
    ensures { OnOk result (id.new ≡ text.now) }
{
    if id.as_ref() == text {
        return Ok(());
    }
    let mut before = mem::replace(id, no_id(alloc)).into_smolstr();
    *id = PolicyID::from_smolstr(text_in(alloc, &mut before, text)?);
    Ok(())
}

// Returns the field, if there is exactly one.
fn only<'a>(fields: &[&'a str]) -> Option<&'a str>
    ensures { option_map (λ f. f.now) result ≡ only (map (λ f. f.now) fields.now) }
{
    let (first, rest) = fields.split_first()?;
    if rest.is_empty() {
        return Some(*first);
    }
    None
}

// Binds a slot to a uid. Stores the eid of the slot's former uid in `room`, so that its buffer can be reused.
fn bind(
    room: &mut String,
    values: &mut SlotEnv,
    slot: SlotId,
    uid: EntityUID,
) -> Result<(), AllocError>
    ensures { OnOk result (env_of values.new ≡ bound_more (env_of values.old) slot (uid_parts uid)) }
{
    match values.insert(slot, uid)? {
        None => (),
        Some(before) => {
            let (_ty, eid) = before.components();
            *room = eid.into_smolstr();
        }
    }
    Ok(())
}

// Unbinds a slot, unless it is named.
fn unbind_unless(values: &mut SlotEnv, slot: SlotId, is_named: bool)
    ensures { env_of values.new ≡ bound_if is_named slot (env_of values.old) }
{
    if !is_named {
        drop(values.remove(&slot));
    }
}

// Returns whether all bound slots are named.
fn has_all_flags(values: &SlotEnv, named: SlotFlags) -> bool
    ensures { result ≡ list_all (is_named named) (keys_of values.now.entries) }
{
    values.keys().all(|slot| named.has(*slot))
}

// Unbinds the slots that are not named. The check before avoids hashing, because mostly there are none.
fn unbind_unflagged(values: &mut SlotEnv, named: SlotFlags)
    ensures { env_of values.new ≡ named_alone named (env_of values.old) }
{
    if has_all_flags(values, named) {
        return;
    }
    unbind_unless(values, SlotId::Principal, named.has(SlotId::Principal));
    unbind_unless(values, SlotId::Action, named.has(SlotId::Action));
    unbind_unless(values, SlotId::Resource, named.has(SlotId::Resource));
}

// Reads the bindings of a link into the buffers, and returns whether the fields are bindings. Each bound slot has one
// field.
fn read_bindings(
    alloc: Global,
    known: &mut KnownTypes,
    room: &mut LinkRoom,
    fields: &[&str],
) -> Result<bool, AllocError>
    ensures { IfOk result (λ are. (if are then Some (env_of room.new.values) else None)
        ≡ bindings_of (map (λ f. f.now) fields.now)) }
{
    let mut named = SlotFlags::none();
    for field in fields {
        let Some((slot, uid)) = binding_of(alloc, known, &mut room.eid, field)? else {
            return Ok(false);
        };
        if named.has(slot) {
            return Ok(false);
        }
        bind(&mut room.eid, &mut room.values, slot, uid)?;
        named = named.with(slot);
    }
    unbind_unflagged(&mut room.values, named);
    Ok(true)
}

// Reads the id and the effect after `static`.
pub(crate) fn read_static(
    alloc: Global,
    fields: &[&str],
) -> Result<Option<(PolicyID, Effect)>, AllocError>
    ensures { IfOk result (λ o. option_map (λ r. Static r.0 r.1) o ≡ static_of (map (λ f. f.now) fields.now)) }
{
    let Some((id, rest)) = fields.split_first() else {
        return Ok(None);
    };
    let Some(word) = only(rest) else {
        return Ok(None);
    };
    let Some(effect) = effect_of(word) else {
        return Ok(None);
    };
    Ok(Some((PolicyID::from_string(alloc, id)?, effect)))
}

// Reads the command `static`.
fn static_of(alloc: Global, fields: &[&str]) -> Result<Option<PolicyCommand>, AllocError>
    ensures { IfOk result (λ o. option_map policy_command_of o ≡ static_of (map (λ f. f.now) fields.now)) }
{
    match read_static(alloc, fields)? {
        None => Ok(None),
        Some((id, effect)) => Ok(Some(PolicyCommand::Static(id, effect))),
    }
}

// Reads the id and the slots after `template`.
pub(crate) fn read_template(
    alloc: Global,
    fields: &[&str],
) -> Result<Option<(PolicyID, TemplateSlots)>, AllocError>
    ensures { IfOk result (λ o. option_map (λ r. Template r.0 r.1) o ≡ template_of (map (λ f. f.now) fields.now)) }
{
    let Some((id, rest)) = fields.split_first() else {
        return Ok(None);
    };
    let Some(word) = only(rest) else {
        return Ok(None);
    };
    let Some(slots) = slots_of(word) else {
        return Ok(None);
    };
    Ok(Some((PolicyID::from_string(alloc, id)?, slots)))
}

// Reads the command `template`.
fn template_of(alloc: Global, fields: &[&str]) -> Result<Option<PolicyCommand>, AllocError>
    ensures { IfOk result (λ o. option_map policy_command_of o ≡ template_of (map (λ f. f.now) fields.now)) }
{
    match read_template(alloc, fields)? {
        None => Ok(None),
        Some((id, slots)) => Ok(Some(PolicyCommand::Template(id, slots))),
    }
}

// Reads the command `link`.
fn link_of(
    alloc: Global,
    known: &mut KnownTypes,
    room: &mut LinkRoom,
    fields: &[&str],
) -> Result<Option<PolicyCommand>, AllocError>
    ensures { IfOk result (λ o. option_map policy_command_of o ≡ link_of (map (λ f. f.now) fields.now)) }
{
    let Some(id) = room.read(alloc, known, fields)? else {
        return Ok(None);
    };
    let template = mem::replace(&mut room.template, no_id(alloc));
    let values = mem::replace(&mut room.values, no_bindings(alloc));
    Ok(Some(PolicyCommand::Link(template, id, values)))
}

// Reads the fields after `unlink`, and sets `id` to the id. Returns whether they are a command.
pub(crate) fn read_unlink(
    alloc: Global,
    id: &mut PolicyID,
    fields: &[&str],
) -> Result<bool, AllocError>
    ensures { IfOk result (λ is_read. (if is_read then Some (Unlink id.new) else None)
        ≡ unlink_of (map (λ f. f.now) fields.now)) }
{
    let Some(text) = only(fields) else {
        return Ok(false);
    };
    set_id(alloc, id, text)?;
    Ok(true)
}

// Reads the command `unlink`.
fn unlink_of(alloc: Global, fields: &[&str]) -> Result<Option<PolicyCommand>, AllocError>
    ensures { IfOk result (λ o. option_map policy_command_of o ≡ unlink_of (map (λ f. f.now) fields.now)) }
{
    let Some(id) = only(fields) else {
        return Ok(None);
    };
    Ok(Some(PolicyCommand::Unlink(PolicyID::from_string(alloc, id)?)))
}

// Reads the command `merge`.
fn merge_of(fields: &[&str]) -> Option<PolicyCommand>
    ensures { option_map policy_command_of result ≡ merge_of (map (λ f. f.now) fields.now) }
{
    let word = only(fields)?;
    let rename = renaming_of(word)?;
    Some(PolicyCommand::Merge(rename))
}

// Reads the command `other`.
fn swap_command_of(fields: &[&str]) -> Option<PolicyCommand>
    ensures { option_map policy_command_of result ≡ bare_of Other (map (λ f. f.now) fields.now) }
{
    if fields.is_empty() {
        return Some(PolicyCommand::Other);
    }
    None
}

// Reads the command `ids`.
fn ids_of(fields: &[&str]) -> Option<PolicyCommand>
    ensures { option_map policy_command_of result ≡ bare_of Ids (map (λ f. f.now) fields.now) }
{
    if fields.is_empty() {
        return Some(PolicyCommand::Ids);
    }
    None
}

// Reads the command with this word and these fields after it.
fn command_by(
    alloc: Global,
    known: &mut KnownTypes,
    room: &mut LinkRoom,
    word: &str,
    fields: &[&str],
) -> Result<Option<PolicyCommand>, AllocError>
    ensures { IfOk result (λ o. option_map policy_command_of o ≡ command_by word.now (map (λ f. f.now) fields.now)) }
{
    if word == "static" {
        return static_of(alloc, fields);
    }
    if word == "template" {
        return template_of(alloc, fields);
    }
    if word == "link" {
        return link_of(alloc, known, room, fields);
    }
    if word == "unlink" {
        return unlink_of(alloc, fields);
    }
    if word == "other" {
        return Ok(swap_command_of(fields));
    }
    if word == "merge" {
        return Ok(merge_of(fields));
    }
    if word == "ids" {
        return Ok(ids_of(fields));
    }
    Ok(None)
}

/// Reads a command on policy sets from the fields of a line. Returns nothing if the fields are not such a command. The
/// first field is the word of the command.
///
/// An id can be any field, including the empty one. The entity types of bound uids are cached in `known` and shared
/// with later lines.
///
/// # Errors
///
/// Returns `AllocError` if an allocation fails.
///
/// # Complexity
///
/// O(n), where n is the total length of the fields. Allocates the ids, the bindings and new cache entries.
///
/// # Differences from cedar-policy-core
///
/// The original has no such function.
pub fn read_policy_command(
    alloc: Global,
    known: &mut KnownTypes,
    fields: &[&str],
) -> Result<Option<PolicyCommand>, AllocError>
    ensures { IfOk result (ReadsAs (λ c. IsPolicyCommand c (map (λ f. f.now) fields.now)) policy_command_of) }
{
    let mut room = LinkRoom::new(alloc);
    read_with(alloc, known, &mut room, fields)
}

// Reads a command as `read_policy_command` does, but reads a link into the buffers of an earlier one, which are moved
// into the command.
pub(crate) fn read_with(
    alloc: Global,
    known: &mut KnownTypes,
    room: &mut LinkRoom,
    fields: &[&str],
) -> Result<Option<PolicyCommand>, AllocError>
    ensures { IfOk result (ReadsAs (λ c. IsPolicyCommand c (map (λ f. f.now) fields.now)) policy_command_of) }
{
    let Some((word, rest)) = fields.split_first() else {
        return Ok(None);
    };
    command_by(alloc, known, room, word, rest)
}
