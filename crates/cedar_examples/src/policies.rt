//! Policy sets: linking a template, and merging another set.
ghost use Rattle.std.specs.Prelude.{◌≡◌, ℕ, List, length, IfOk, IfErr, OnOk, OnErr};
ghost use Rattle.cedar_ids.specs.UidOf.{uid_parts};
ghost use Rattle.cedar_terms.specs.declared.slot.SlotId.TheVariants.{Principal};
ghost use Rattle.cedar_binding.specs.Bindings.{BindsExactly, no_env};
ghost use Rattle.cedar_body.specs.Bodies.{BodyParts, body_slots};
ghost use Rattle.cedar_policy_lines.specs.PolicyCommand.{bound_more};
ghost use Rattle.cedar_policy_maps.specs.PolicySets.{Template, Link, bound_at};
ghost use Rattle.cedar_policy_merge.specs.Merge.{IsRenaming, conflicts, merged, new_id};
ghost use Rattle.cedar_policy_set.specs.Refusals.{Steps, linking_error_of};
ghost use Rattle.cedar_policy_set.specs.Steps.{link_step};
ghost use Rattle.cedar_policy_set_errors.specs.declared.err.PolicySetError.TheVariants.{Memory};

use cedar_store::bindings::no_bindings;
use cedar_store::{EntityUID, LinkingError, PolicyID, PolicySet, PolicySetError, SlotId};
use std::alloc::Global;

/// Grants a user the permission of a template. Creates a link of the template with a new id, and binds its principal to
/// the user.
///
/// # Errors
///
/// The checks are made in this order. After an error the set is unchanged.
///
/// - `NoSuchTemplate`: there is no template with the first id.
/// - `ArityError`: the slots of the template are not exactly the principal's.
/// - `PolicyIdConflict`: the new id is already in use.
/// - `Memory`: an allocation failed.
pub fn grant(
    alloc: Global,
    policies: &mut PolicySet,
    template: PolicyID,
    id: PolicyID,
    user: EntityUID,
) -> Result<(), LinkingError>
    ensures step { Steps linking_error_of result policies.old policies.new
        (link_step policies.old template id (bound_more no_env Principal (uid_parts user))) }
    // If the result is `Ok`, the new id is the id of a link of that template. The link binds each slot of the template,
    // and no other.
    ensures bound { OnOk result ((t : BodyParts) × (bound_at policies.old template ≡ Some (Template t))
        × (bound_at policies.new id ≡ Some (Link id t (bound_more no_env Principal (uid_parts user))))
        × BindsExactly (body_slots t) (bound_more no_env Principal (uid_parts user))) }
{
    let mut values = no_bindings(alloc);
    values.insert(SlotId::Principal, user)?;
    let _link = policies.link(alloc, template, id, values)?;
    Ok(())
}

/// Merges another team's set into a set. If both teams use an id for different policies, the other set's policy gets a
/// new id. Returns the number of new ids. The other set does not change.
///
/// # Errors
///
/// Returns `Memory` if an allocation fails, and then leaves the set unchanged.
pub fn take_in(
    alloc: Global,
    policies: &mut PolicySet,
    other: &PolicySet,
) -> Result<usize, PolicySetError>
    // The set keeps its policies, and the policies of the other set are added. New ids are used in neither set.
    ensures merged { OnOk result ((r : List (List ℕ × List ℕ)) × IsRenaming policies.old other.now r
        × (policies.new ≡ merged policies.old other.now (new_id r))) }
    ensures renamed { IfOk result (λ n. n ≡ length (conflicts policies.old other.now)) }
    ensures err { IfErr result (λ e. (e ≡ Memory) × (policies.new ≡ policies.old)) }
{
    let renaming = policies.merge_policyset(alloc, other, true)?;
    Ok(renaming.len())
}
