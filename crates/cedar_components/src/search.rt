//! The order in which a depth-first search finishes the numbers.
ghost use Rattle.std.specs.Prelude.{◌≡◌, ◌<◌, [], length, OnOk, IfOk};
ghost use Rattle.cedar_components.specs.laws.Arcs.{IsArc, AreForward};
ghost use Rattle.cedar_components.specs.laws.Search.{
  Finishes,
  GoesOn,
  IsFinishOrder,
  IsSeen,
  IsUnseen,
  Opens,
  Searches,
  work_left,
};

use crate::links::Arcs;
use std::alloc::{AllocError, Global};

#[derive(Drop)]
struct Search {
    start: Vec<usize>,
    next: Vec<usize>,
    path: Vec<usize>,
    out: Vec<usize>,
}

// Opens a number: pushes it onto the path, and records how many numbers are finished.
fn open(s: &mut Search, w: usize) -> Result<(), AllocError>
    requires { w < length s.old.start.items }
    ensures { OnOk result (Opens w s.old s.new) }
{
    s.path.push(w)?;
    s.start[w] = s.out.len() + 1;
    Ok(())
}

// Finishes the number at the end of the path.
fn finish(s: &mut Search) -> Result<(), AllocError>
    requires { 0 < length s.old.path.items }
    ensures { OnOk result (Finishes s.old s.new) }
{
    if let Some(v) = s.path.pop() {
        s.out.push(v)?;
    }
    Ok(())
}

// Reads the next arc of the number at the end of the path, or finishes the number if no arc is left.
fn step(arcs: &Arcs, s: &mut Search) -> Result<(), AllocError>
    requires path { 0 < length s.old.path.items }
    requires search { Searches arcs.now (length s.old.start.items) s.old }
    ensures search { OnOk result (GoesOn arcs.now s.old s.new) }
    ensures less { OnOk result (work_left s.new < work_left s.old) }
{
    let v = s.path[s.path.len() - 1];
    let m = s.next[v];
    if m > 0 {
        let w = arcs.to[m - 1];
        if s.start[w] == 0 {
            open(s, w)?;
        }
        s.next[v] = arcs.link[m - 1];
    } else {
        finish(s)?;
    }
    Ok(())
}

// Searches from a number until all that it reaches is finished.
fn search_from(arcs: &Arcs, s: &mut Search, root: usize) -> Result<(), AllocError>
    requires root { IsUnseen s.old root }
    requires no_path { s.old.path.items ≡ [] }
    requires search { Searches arcs.now (length s.old.start.items) s.old }
    ensures search { OnOk result (GoesOn arcs.now s.old s.new) }
    ensures no_path { OnOk result (s.new.path.items ≡ []) }
    ensures root { OnOk result (IsSeen s.new root) }
{
    open(s, root)?;
    while !s.path.is_empty() {
        step(arcs, s)?;
    }
    Ok(())
}

// Returns all numbers, in the order in which a depth-first search finishes them.
pub(crate) fn finish_order(alloc: Global, arcs: &Arcs, n: usize) -> Result<Vec<usize>, AllocError>
    requires { AreForward arcs.now n }
    ensures { IfOk result (λ out. IsFinishOrder (IsArc arcs.now) n out.items) }
{
    let mut s = Search {
        start: vec![in alloc; 0; n]?,
        next: Vec::from_slice(alloc, arcs.head)?,
        path: Vec::with_capacity(alloc, n)?,
        out: Vec::with_capacity(alloc, n)?,
    };
    for root in 0..n {
        if s.start[root] == 0 {
            search_from(arcs, &mut s, root)?;
        }
    }
    let Search {
        start: _,
        next: _,
        path: _,
        out,
    } = s;
    Ok(out)
}
