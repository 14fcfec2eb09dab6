//! Chains of the indices at which each value occurs in a list.
ghost use Rattle.std.specs.Prelude.{IfOk};
ghost use Rattle.cedar_components.specs.laws.Arcs.{AreLinks};
ghost use Rattle.cedar_components.specs.laws.Numbers.{AllBelow};

use std::alloc::{AllocError, Global};

// For a list of numbers: chains of the indices at which each number occurs. `head[v]` is one more than the last index
// of `v`. `link[k]` is one more than the index of the previous occurrence of the number at index `k`. 0 means that
// there is none.
#[derive(Drop)]
pub(crate) struct Links {
    pub(crate) head: Vec<usize>,
    pub(crate) link: Vec<usize>,
}

// The arcs of a graph, with the chains of the arcs that have the same `from`, or the same `to`.
#[derive(Drop)]
pub(crate) struct Arcs<'a> {
    pub(crate) from: &'a [usize],
    pub(crate) to: &'a [usize],
    pub(crate) head: &'a [usize],
    pub(crate) link: &'a [usize],
}

// Returns the chains of a list of numbers below `n`. Each chain goes from the last index of a value to the first.
pub(crate) fn make_links(alloc: Global, ends: &[usize], n: usize) -> Result<Links, AllocError>
    requires { AllBelow n ends.now }
    ensures { IfOk result (λ l. AreLinks ends.now l.head.items l.link.items n) }
{
    let mut head = vec![in alloc; 0; n]?;
    let mut link = Vec::with_capacity(alloc, ends.len())?;
    for k in 0..ends.len() {
        let a = ends[k];
        link.push(head[a])?;
        head[a] = k + 1;
    }
    Ok(Links { head, link })
}
