//! The number of levels of nodes, which is checked before anything is built from them.
ghost use Rattle.std.specs.Prelude.{◌≡◌, ◌≤◌, ◌^◌, MatchOption, MatchResult};
ghost use Rattle.cedar_c_trees.specs.laws.Levels.{below, HaveFew, HaveMany, most, IsNotRaised, IsRaised};

use crate::node::Node;
use cedar_c_lists::Reason;
use std::alloc::Global;

/// The greatest number of levels that a tree of nodes may have. A node without operands has one level, and any other
/// node has one more than the deepest of its operands. Dropping, comparing, hashing and printing a value or an
/// expression recurse once per level.
pub const CEDAR_LEVELS: usize = 1000;

// Returns the number of operands of a node, if it fits into `usize`.
fn below(node: &Node) -> Option<usize>
    ensures { MatchOption result (2 ^ 64 ≤ below node.now) (λ k. k ≡ below node.now) }
{
    match node.kind {
        4 | 6 | 9 => Some(node.len),
        5 => node.len.checked_add(node.len),
        10 | 14 => Some(1),
        11..=13 => Some(2),
        _ => Some(0),
    }
}

// Returns the greatest of the numbers, or 0 if there are none.
fn most_of(numbers: &[usize]) -> usize
    ensures { result ≡ most numbers.now }
{
    let mut most = 0;
    for number in numbers {
        if *number > most {
            most = *number;
        }
    }
    most
}

// Pops the levels of a node's operands off a stack, and returns the levels of the node.
fn raised(node: &Node, heights: &mut Vec<usize>) -> Result<usize, Reason>
    ensures { MatchResult result (IsRaised node.now heights.old.items heights.new.items)
        (IsNotRaised node.now heights.old.items) }
{
    let Some(count) = below(node) else {
        return Err(Reason::BadArgument);
    };
    if heights.len() < count {
        return Err(Reason::BadArgument);
    }
    let front = heights.len() - count;
    let most = most_of(&heights[front..]);
    if most >= CEDAR_LEVELS {
        return Err(Reason::TooDeep);
    }
    heights.truncate(front);
    Ok(most + 1)
}

/// Checks that the nodes have at most `CEDAR_LEVELS` levels.
pub(crate) fn check_levels(alloc: Global, nodes: &[Node]) -> Result<(), Reason>
    ensures { MatchResult result (λ _. HaveFew nodes.now) (HaveMany nodes.now) }
{
    let mut heights = Vec::new(alloc);
    for node in nodes {
        let height = raised(node, &mut heights)?;
        heights.push(height)?;
    }
    Ok(())
}
