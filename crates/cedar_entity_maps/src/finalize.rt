//! The finalization of an edit: the affected entities are repaired and the whole store is checked, as the edit rules of
//! the mode state.
ghost use Rattle.std.specs.Prelude.{◌≡◌, true, IfErr, OnOk};
ghost use Rattle.std.specs.Bool.{OnTrue};
ghost use Rattle.std.specs.HashSet.{contains};
ghost use Rattle.std.specs.Option.{is_some};
ghost use Rattle.cedar_ids.specs.UidOf.{same_uid};
ghost use Rattle.cedar_entity_maps.specs.Modes.{rules_of, IsSound, ReportsUnsound};
ghost use Rattle.cedar_entity_maps.specs.EditErrors.{MatchError};
ghost use Rattle.cedar_entity_maps.specs.laws.Ends.{repairing, Ends, EndsWhole};
ghost use Rattle.cedar_entity_maps.specs.laws.EntityMap.{entity_at, held_map, UidsMatch};

use crate::merging::{merge_rows, without};
use crate::modes::{EditRules, TCComputation, rules_of};
use cedar_entity::err::EntitiesError;
use cedar_entity::node::SharedEntity;
use cedar_graph::{close_dag, compute_tc, enforce_tc_and_dag, repair_dag, repair_tc};
use cedar_uid_sets::SharedUid;
use std::alloc::Global;
use std::collections::{HashMap, HashSet};
use std::hash::BuildHasher;

/// Checks that the ancestors of all entities are closed, and that no entity is its own ancestor.
///
/// # Errors
///
/// - `TransitiveClosureError`: the check fails. The error names the uids that show it.
/// - `Memory`: an allocation failed.
///
/// # Complexity
///
/// As in `enforce_tc_and_dag`.
pub fn check<S: BuildHasher + Clone>(
    alloc: Global,
    entities: &HashMap<SharedUid, SharedEntity, S>,
) -> Result<(), EntitiesError>
    requires { UidsMatch entities.now }
    ensures ok { OnOk result (IsSound (held_map entities.now)) }
    ensures err { IfErr result (λ e. MatchError e (λ _. ⊥) (ReportsUnsound (held_map entities.now))) }
{
    enforce_tc_and_dag(alloc, entities)?;
    Ok(())
}

// Checks the store, if `checks` is true.
fn check_if<S: BuildHasher + Clone>(
    alloc: Global,
    entities: &HashMap<SharedUid, SharedEntity, S>,
    checks: bool,
) -> Result<(), EntitiesError>
    requires { UidsMatch entities.now }
    ensures ok { OnOk result (OnTrue checks (IsSound (held_map entities.now))) }
    ensures err { IfErr result (λ e. MatchError e (λ _. ⊥) (λ t. (checks ≡ true)
        × ReportsUnsound (held_map entities.now) t)) }
{
    if checks {
        check(alloc, entities)
    } else {
        Ok(())
    }
}

// Adds to the affected entities the ancestors that they reach, by a closure. If `enforce_dag` is true, a cycle is
// reported before any ancestor is written.
fn close_affected<S: BuildHasher + Clone>(
    alloc: Global,
    entities: &mut HashMap<SharedUid, SharedEntity, S>,
    affected: &HashSet<SharedUid, S>,
    enforce_dag: bool,
) -> Result<(), EntitiesError>
    requires { UidsMatch entities.old }
    ensures keys { UidsMatch entities.new }
    ensures ends { Ends (repairing enforce_dag) (contains same_uid affected.now)
        (held_map entities.old) (held_map entities.new) result }
{
    if enforce_dag {
        repair_dag(alloc, affected, entities)?;
        return Ok(());
    }
    repair_tc(alloc, affected, entities, false)?;
    Ok(())
}

// Adds to the affected entities the ancestors that they reach. Entities without an affected ancestor are repaired first,
// without a closure. If `enforce_dag` is true, a cycle is reported.
fn repair_affected<S: BuildHasher + Clone>(
    alloc: Global,
    entities: &mut HashMap<SharedUid, SharedEntity, S>,
    affected: &HashSet<SharedUid, S>,
    enforce_dag: bool,
) -> Result<(), EntitiesError>
    requires { UidsMatch entities.old }
    ensures keys { OnOk result (UidsMatch entities.new) }
    ensures ends { Ends (repairing enforce_dag) (contains same_uid affected.now)
        (held_map entities.old) (held_map entities.new) result }
{
    let merged = merge_rows(alloc, entities, affected)?;
    if merged.is_empty() {
        return close_affected(alloc, entities, affected, enforce_dag);
    }
    let left = without(affected, &merged)?;
    close_affected(alloc, entities, &left, enforce_dag)
}

// Adds to all entities the ancestors that they reach. If `enforce_dag` is true, a cycle is reported before any ancestor
// is written. Use it if the map was empty before the edit; then every entity is affected.
fn repair_all<S: BuildHasher + Clone>(
    alloc: Global,
    entities: &mut HashMap<SharedUid, SharedEntity, S>,
    enforce_dag: bool,
) -> Result<(), EntitiesError>
    requires { UidsMatch entities.old }
    ensures keys { UidsMatch entities.new }
    ensures ends { EndsWhole (repairing enforce_dag) (λ q. is_some (entity_at entities.old q))
        (held_map entities.old) (held_map entities.new) result }
{
    if enforce_dag {
        close_dag(alloc, entities)?;
        return Ok(());
    }
    compute_tc(alloc, entities, false)?;
    Ok(())
}

/// Finalizes an edit: repairs the affected entities, and checks the whole store, as the edit rules state.
///
/// # Errors
///
/// - `TransitiveClosureError`: there is a cycle, or the check fails.
/// - `Memory`: an allocation failed.
///
/// After an error, some entities may be repaired.
///
/// # Complexity
///
/// As in the functions of `cedar_graph`. Allocates only if it repairs or checks.
pub fn finish<S: BuildHasher + Clone>(
    alloc: Global,
    entities: &mut HashMap<SharedUid, SharedEntity, S>,
    affected: &HashSet<SharedUid, S>,
    row: EditRules,
) -> Result<(), EntitiesError>
    requires { UidsMatch entities.old }
    ensures keys { OnOk result (UidsMatch entities.new) }
    ensures ends { Ends row (contains same_uid affected.now)
        (held_map entities.old) (held_map entities.new) result }
{
    if !row.repairs {
        return check_if(alloc, entities, row.checks);
    }
    repair_affected(alloc, entities, affected, row.refuses_cycles)?;
    check_if(alloc, entities, row.checks)
}

/// Finalizes the addition of entities, by the edit rules of the mode.
///
/// # Errors
///
/// The errors of [`finish`].
pub fn finalize_affected<S: BuildHasher + Clone>(
    alloc: Global,
    entities: &mut HashMap<SharedUid, SharedEntity, S>,
    affected: &HashSet<SharedUid, S>,
    tc_computation: TCComputation,
) -> Result<(), EntitiesError>
    requires { UidsMatch entities.old }
    ensures keys { OnOk result (UidsMatch entities.new) }
    ensures ends { Ends (rules_of tc_computation) (contains same_uid affected.now)
        (held_map entities.old) (held_map entities.new) result }
{
    finish(alloc, entities, affected, rules_of(tc_computation))
}

// Finalizes the addition of entities to an empty map: repairs and checks all entities, as the edit rules state.
fn finish_all<S: BuildHasher + Clone>(
    alloc: Global,
    entities: &mut HashMap<SharedUid, SharedEntity, S>,
    row: EditRules,
) -> Result<(), EntitiesError>
    requires { UidsMatch entities.old }
    ensures keys { UidsMatch entities.new }
    ensures ends { EndsWhole row (λ q. is_some (entity_at entities.old q))
        (held_map entities.old) (held_map entities.new) result }
{
    if !row.repairs {
        return check_if(alloc, entities, row.checks);
    }
    repair_all(alloc, entities, row.refuses_cycles)?;
    check_if(alloc, entities, row.checks)
}

/// Finalizes the addition of entities to an empty map, by the edit rules of the mode. All entities are affected.
///
/// # Errors
///
/// The errors of [`finish`].
pub fn finalize_all<S: BuildHasher + Clone>(
    alloc: Global,
    entities: &mut HashMap<SharedUid, SharedEntity, S>,
    tc_computation: TCComputation,
) -> Result<(), EntitiesError>
    requires { UidsMatch entities.old }
    ensures keys { UidsMatch entities.new }
    ensures ends { EndsWhole (rules_of tc_computation)
        (λ q. is_some (entity_at entities.old q)) (held_map entities.old) (held_map entities.new) result }
{
    finish_all(alloc, entities, rules_of(tc_computation))
}
