//! Calls on handles of policy sets that take bodies or read their parts.
ghost use Rattle.std.specs.Prelude.{◌≡◌};
ghost use Rattle.cedar_c_sets.specs.BodyCalls.{AddsStaticWith, AddsTemplateWith};
ghost use Rattle.cedar_c_sets.specs.Clauses.{AnswersClause, AnswersCondition};
ghost use Rattle.cedar_c_sets.specs.Scopes.{AnswersScope};
ghost use Rattle.cedar_c.specs.PolicyCalls.{Changes, CopiesNodes};
ghost use Rattle.cedar_c.specs.PolicyReads.{ChangesAndCounts, ChangesAndReports};

use crate::copying::copy_out;
use crate::handles::{CLOSED, on_open};
use crate::policies::{Policies, opened, take};
use cedar_c_bodies::{AnnotationAt, Body, BodyLists};
use cedar_c_lists::{Span, status_of, write_bool, write_result};
use cedar_c_trees::Node;
use std::alloc::Global;

/// Adds a static policy with these bytes as its id, and with the effect, annotations, constraints and clause in the
/// lists. Without nodes it has no clause.
///
/// # Status
///
/// - `Closed`: the handle is closed.
/// - The errors of `template_of` for the id and the lists.
/// - `NotStatic`: the body has a slot.
/// - `Occupied`: the id is already in use.
/// - `NoMemory`: an allocation failed.
///
/// After an error only the text of the last error can have changed.
#[unsafe(no_mangle)]
pub extern "C" fn cedar_policies_add_static_with(
    alloc: Global,
    handle: &mut Policies,
    id: &[u8],
    text: &[u8],
    body: &Body,
    annotations: &[AnnotationAt],
    uids: &[Span],
    nodes: &[Node],
) -> u32
    ensures { Changes (AddsStaticWith id.now (record {
      text = text.now;
      body = body.now;
      annotations = annotations.now;
      uids = uids.now;
      nodes = nodes.now;
    })) handle.old.held.value result handle.new.held.value }
{
    let lists = BodyLists {
        text,
        body: *body,
        annotations,
        uids,
        nodes,
    };
    on_open!(in alloc; handle, CLOSED, |state| status_of(state.add_static_with(alloc, id, lists)))
}

/// Adds a template with these bytes as its id, from the lists that `cedar_policies_add_static_with` takes. It may have
/// slots.
///
/// # Status
///
/// - `Closed`: the handle is closed.
/// - The errors of `template_of` for the id and the lists.
/// - `Occupied`: the id is already in use.
/// - `NoMemory`: an allocation failed.
///
/// After an error only the text of the last error can have changed.
#[unsafe(no_mangle)]
pub extern "C" fn cedar_policies_add_template_with(
    alloc: Global,
    handle: &mut Policies,
    id: &[u8],
    text: &[u8],
    body: &Body,
    annotations: &[AnnotationAt],
    uids: &[Span],
    nodes: &[Node],
) -> u32
    ensures { Changes (AddsTemplateWith id.now (record {
      text = text.now;
      body = body.now;
      annotations = annotations.now;
      uids = uids.now;
      nodes = nodes.now;
    })) handle.old.held.value result handle.new.held.value }
{
    let lists = BodyLists {
        text,
        body: *body,
        annotations,
        uids,
        nodes,
    };
    on_open!(in alloc; handle, CLOSED, |state| status_of(state.add_template_with(alloc, id, lists)))
}

/// Writes the kind of the principal constraint (`which` 0), the action constraint (1) or the resource constraint (2) of
/// the policy or template with an id to `kind`. Stores the text of its type, followed by the texts of its uids, as the
/// result.
///
/// # Status
///
/// - `Closed`: the handle is closed.
/// - `BadArgument`: the number `which` is invalid.
/// - `NotUtf8`: the id is not UTF-8.
/// - `NoBody`: the id is not in use.
/// - `NoMemory`: an allocation failed.
///
/// After an error nothing has changed.
#[unsafe(no_mangle)]
pub extern "C" fn cedar_policies_scope(
    alloc: Global,
    handle: &mut Policies,
    id: &[u8],
    which: u32,
    kind: &mut u32,
) -> u32
    ensures { ChangesAndCounts (AnswersScope which id.now)
        handle.old.held.value result handle.new.held.value kind.old kind.new }
{
    on_open!(in alloc; handle, CLOSED, |state| write_result(state.scope(alloc, id, which), kind))
}

/// Writes to `has` whether the policy or template with an id has a clause. If it has, stores the nodes of the clause,
/// and their text as the result.
///
/// # Status
///
/// - `Closed`: the handle is closed.
/// - `NotUtf8`: the id is not UTF-8.
/// - `NoBody`: the id is not in use.
/// - `NoMemory`: an allocation failed.
///
/// After an error nothing has changed.
#[unsafe(no_mangle)]
pub extern "C" fn cedar_policies_clause(
    alloc: Global,
    handle: &mut Policies,
    id: &[u8],
    has: &mut bool,
) -> u32
    ensures { ChangesAndReports (AnswersClause id.now)
        handle.old.held.value result handle.new.held.value has.old has.new }
{
    on_open!(in alloc; handle, CLOSED, |state| write_bool(state.clause(alloc, id), has))
}

/// Stores the nodes of the condition of the policy or template with an id, and their text as the result.
///
/// # Status
///
/// - `Closed`: the handle is closed.
/// - `NotUtf8`: the id is not UTF-8.
/// - `NoBody`: the id is not in use.
/// - `NoMemory`: an allocation failed.
///
/// After an error nothing has changed.
#[unsafe(no_mangle)]
pub extern "C" fn cedar_policies_condition(alloc: Global, handle: &mut Policies, id: &[u8]) -> u32
    ensures { Changes (AnswersCondition id.now) handle.old.held.value result handle.new.held.value }
{
    on_open!(in alloc; handle, CLOSED, |state| status_of(state.condition(alloc, id)))
}

/// Copies the nodes of the last expression, from position `from` on, as many as fit. Returns the number of all nodes,
/// which is 0 for a closed handle.
#[unsafe(no_mangle)]
pub extern "C" fn cedar_policies_result_nodes(
    alloc: Global,
    handle: &mut Policies,
    from: usize,
    out: &mut [Node],
) -> usize
    ensures same { handle.new.held.value ≡ handle.old.held.value }
    ensures copies { CopiesNodes handle.old.held.value from out.old result out.new }
{
    on_open!(in alloc; handle, 0, |state| copy_out(&state.nodes, from, out))
}
