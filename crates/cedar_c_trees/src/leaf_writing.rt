//! Encoding nodes with a text, and literals.
ghost use Rattle.std.specs.Prelude.{◌≡◌, ◌∷◌, [], IfOk, OnOk, string_bytes};
ghost use Rattle.cedar_ids.specs.TextOf.{IsNameText};
ghost use Rattle.cedar_ids.specs.UidOf.{uid_parts};
ghost use Rattle.cedar_terms.specs.TypeViews.{entity_name};
ghost use Rattle.cedar_terms.specs.Views.{literal_tree};
ghost use Rattle.cedar_c_trees.specs.Drafts.{Adds};
ghost use Rattle.cedar_c_trees.specs.Items.{call_item, flat, is_item, text_item, uid_item};
ghost use Rattle.cedar_c_trees.specs.Plans.{IsTyped, literal_item, named_unknown};
ghost use Rattle.cedar_c_trees.specs.Reads.{truth_number};

use crate::draft::Draft;
use cedar_ids::entity::EntityUID;
use cedar_ids::name::Name;
use cedar_terms::{ExtensionValue, Literal, StaticType, Unknown};
use std::alloc::{AllocError, Global};

// Returns the text of a name.
fn name_text(alloc: Global, name: &Name) -> Result<String, AllocError>
    ensures { IfOk result (λ s. IsNameText name.now (string_bytes s)) }
{
    // No effect at run time: the contract of this call states that the components are ids.
    let _basename = name.basename();
    name.to_string(alloc)
}

// Returns the text of the name of a type.
fn type_text(alloc: Global, ty: &StaticType) -> Result<String, AllocError>
    ensures { IfOk result (λ s. IsNameText (entity_name ty.now) (string_bytes s)) }
{
    let StaticType::Entity { ty } = ty;
    name_text(alloc, ty.name())
}

/// Writes a text.
pub(crate) fn write_text(draft: &mut Draft, text: &str) -> Result<(), AllocError>
    ensures { OnOk result (Adds (text_item text.now ∷ []) draft.old draft.new) }
{
    draft.push_text(2, 0, text)
}

/// Writes a uid.
pub(crate) fn write_uid(alloc: Global, draft: &mut Draft, uid: &EntityUID) -> Result<(), AllocError>
    ensures { OnOk result (Adds (uid_item (uid_parts uid.now) ∷ []) draft.old draft.new) }
{
    // No effect at run time: the contract of this call states that the components of its type are ids.
    let _type = uid.entity_type();
    let text = uid.to_string(alloc)?;
    draft.push_text(3, 0, text.as_str())
}

/// Writes a call of a function with `len` arguments.
pub(crate) fn write_call(
    alloc: Global,
    draft: &mut Draft,
    func: &Name,
    len: usize,
) -> Result<(), AllocError>
    ensures { OnOk result (Adds (call_item func.now len ∷ []) draft.old draft.new) }
{
    let text = name_text(alloc, func)?;
    draft.push_text(6, len, text.as_str())
}

/// Writes a call of an extension function with a text as its argument.
pub(crate) fn write_extension(
    alloc: Global,
    draft: &mut Draft,
    extension: &ExtensionValue,
) -> Result<(), AllocError>
    ensures { OnOk result (Adds (text_item extension.now.arg ∷ call_item extension.now.func 1 ∷ [])
        draft.old draft.new) }
{
    write_call(alloc, draft, &extension.func, 1)?;
    write_text(draft, extension.arg.as_str())
}

/// Writes a test of an entity type.
pub(crate) fn write_is(alloc: Global, draft: &mut Draft, name: &Name) -> Result<(), AllocError>
    ensures { OnOk result (Adds (is_item name.now ∷ []) draft.old draft.new) }
{
    let text = name_text(alloc, name)?;
    draft.push_text(14, 0, text.as_str())
}

/// Writes an unknown, and before it the name of its type, if it has one.
pub(crate) fn write_unknown(
    alloc: Global,
    draft: &mut Draft,
    unknown: &Unknown,
) -> Result<(), AllocError>
    ensures adds { OnOk result (Adds (flat (named_unknown unknown.now.name unknown.now.annotation))
        draft.old draft.new) }
    ensures typed { OnOk result (IsTyped unknown.now.annotation) }
{
    match &unknown.type_annotation {
        None => draft.push_text(9, 0, unknown.name.as_str()),
        Some(ty) => {
            let text = type_text(alloc, ty)?;
            draft.push_text(9, 1, unknown.name.as_str())?;
            draft.push_text(2, 0, text.as_str())
        }
    }
}

// Returns the number of a Boolean.
fn number_of(b: bool) -> i64
    ensures { result ≡ truth_number b }
{
    if b { 1 } else { 0 }
}

/// Writes a literal.
pub(crate) fn write_literal(
    alloc: Global,
    draft: &mut Draft,
    literal: &Literal,
) -> Result<(), AllocError>
    ensures { OnOk result (Adds (literal_item (literal_tree literal.now) ∷ []) draft.old draft.new) }
{
    match literal {
        Literal::Bool(b) => draft.put(0, 0, number_of(*b)),
        Literal::Long(n) => draft.put(1, 0, *n),
        Literal::String(text) => write_text(draft, text.as_str()),
        Literal::EntityUID(uid) => write_uid(alloc, draft, uid),
    }
}
