//! The strongly connected components of a graph.
//!
//! The algorithm visits the finish order of a first search from its end. From each number without a component it
//! searches against the arcs.
ghost use Rattle.std.specs.Prelude.{◌≡◌, ◌+◌, ◌-◌, ◌<◌, length, slice_index, OnOk, IfOk};
ghost use Rattle.cedar_components.specs.laws.Arcs.{IsArc};
ghost use Rattle.cedar_components.specs.laws.Components.{
  AreComponents,
  Gathers,
  HasArcToPlace,
  HasComponent,
  IsGathered,
  IsGathering,
  IsSearched,
  Joins,
};

use crate::links::Arcs;
use std::alloc::{AllocError, Global};

// The arcs of a graph, with chains by target, and the order in which a search finished the numbers.
#[derive(Drop)]
pub(crate) struct Searched<'a> {
    pub(crate) arcs: Arcs<'a>,
    pub(crate) order: &'a [usize],
    pub(crate) numbers: usize,
}

#[derive(Drop)]
struct Components {
    component: Vec<usize>,
    queue: Vec<usize>,
}

// Assigns component `b` to a number, and appends the number to the queue.
fn join(s: &mut Components, v: usize, b: usize) -> Result<(), AllocError>
    requires { v < length s.old.component.items }
    ensures { OnOk result (Joins v b s.old s.new) }
{
    s.queue.push(v)?;
    s.component[v] = b;
    Ok(())
}

// Assigns component `b` to `v`, which has an arc to the number at index `i` of the queue, if `v` has no component.
fn meet(
    graph: &Searched,
    s: &mut Components,
    b: usize,
    i: usize,
    v: usize,
) -> Result<(), AllocError>
    requires state { IsGathering graph.now b i s.old }
    requires arc { HasArcToPlace graph.now s.old i v }
    ensures gathers { OnOk result (Gathers graph.now b i s.old s.new) }
    ensures same { OnOk result (slice_index s.new.queue.items i ≡ slice_index s.old.queue.items i) }
    ensures met { OnOk result (HasComponent s.new v) }
{
    if s.component[v] != 0 {
        return Ok(());
    }
    join(s, v, b)?;
    Ok(())
}

// Assigns component `b` to all numbers without a component that have an arc to the number at index `i` of the queue.
fn spread(graph: &Searched, s: &mut Components, b: usize, i: usize) -> Result<(), AllocError>
    requires state { IsGathering graph.now b i s.old }
    requires in_queue { i < length s.old.queue.items }
    ensures { OnOk result (Gathers graph.now b (i + 1) s.old s.new) }
{
    let head = graph.arcs.head;
    let link = graph.arcs.link;
    let from = graph.arcs.from;
    let x = s.queue[i];
    let mut p = head[x];
    while p > 0 {
        meet(graph, s, b, i, from[p - 1])?;
        p = link[p - 1];
    }
    Ok(())
}

// Assigns component `b` to its root and all other members.
fn gather(graph: &Searched, s: &mut Components, b: usize) -> Result<(), AllocError>
    requires state { IsGathered graph.now b s.old }
    requires some { 0 < b }
    requires fresh { slice_index s.old.component.items (slice_index graph.now.order.now (b - 1)) ≡ 0 }
    ensures { OnOk result (IsGathered graph.now (b - 1) s.new) }
{
    join(s, graph.order[b - 1], b)?;
    let mut i = 0;
    while i < s.queue.len() {
        spread(graph, s, b, i)?;
        i += 1;
    }
    s.queue.clear();
    Ok(())
}

// Returns the component of each number. The members of one component reach one another. No arc leads to a higher
// component.
pub(crate) fn make_components(alloc: Global, graph: &Searched) -> Result<Vec<usize>, AllocError>
    requires { IsSearched graph.now }
    ensures { IfOk result (λ component.
        AreComponents (IsArc graph.now.arcs) graph.now.numbers (length graph.now.order.now) component.items) }
{
    let mut s = Components {
        component: vec![in alloc; 0; graph.numbers]?,
        queue: Vec::new(alloc),
    };
    let mut b = graph.order.len();
    while b > 0 {
        if s.component[graph.order[b - 1]] == 0 {
            gather(graph, &mut s, b)?;
        }
        b -= 1;
    }
    let Components {
        component,
        queue: _,
    } = s;
    Ok(component)
}
