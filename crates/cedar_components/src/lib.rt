//! Reachability in a graph of numbers.
//!
//! A graph is two lists of equal length. The arc `k` leads from `from[k]` to `to[k]`. The meaning of the numbers does
//! not matter here.
//!
//! [`reach`] does all the work, in these steps:
//!
//! - A depth-first search records the order in which it finishes the numbers.
//! - If no arc leads to a number that finishes later, each number is a strongly connected component of its own.
//! - Otherwise, searches against the arcs assign a component to each number. They start from the end of the finish
//!   order.
//! - Each component gets one list of the numbers that its members reach, lower components first.
//!
//! Each list is put in order when it is built, in one of these ways:
//!
//! - For one member with one arc: the target's list is copied, and the target is inserted at its place.
//! - For one member with more arcs, if all reached numbers are close together in the order: the list is built from
//!   bits, one for each place.
//! - For a list with many of the numbers: all numbers are scanned in order.
//! - For any other list: the list is sorted.
//!
//! The searches use explicit stacks, so none of them recurses.
#![tactic(auto)]

ghost use Rattle.std.specs.Prelude.{◌≡◌, ℕ, IfOk, length, true};
ghost use Rattle.std.specs.List.{range_with_len};
ghost use Rattle.std.specs.List.Sorted.{IsPermutation};
ghost use Rattle.cedar_components.specs.Reach.{AreArcs, AreInOrder, HasArc, IsRanking, IsReach};
ghost use Rattle.cedar_components.specs.laws.Components.{AreComponents};
ghost use Rattle.cedar_components.specs.laws.Search.{IsFinishOrder};

mod component_lists;
mod components;
mod links;
mod list_order;
mod place_bits;
mod search;
mod single;
mod window_lists;

use crate::component_lists::{Lists, make_lists};
use crate::components::{Searched, make_components};
use crate::links::{Arcs, make_links};
use crate::list_order::{Order, ranks};
use crate::search::finish_order;
use crate::single::single_components;
use std::alloc::{AllocError, Global};

/// The numbers that each number of a graph reaches: one list for each strongly connected component.
#[derive(Debug, Drop)]
pub struct Reached {
    /// The index of each number's component. Numbers that reach one another have the same component, which no contract
    /// states.
    pub component: Vec<usize>,
    /// For each component, the index in `lists` at which its list begins. The list ends at the next element of `start`,
    /// which has one more element than there are components.
    pub start: Vec<usize>,
    /// All lists, one after another.
    pub lists: Vec<usize>,
    /// The place of each number in the order of the lists.
    pub places: Vec<usize>,
    /// Whether each list is known to be in this order. [`reach`] puts each list in order and then returns `true`, which
    /// no contract states.
    pub ordered: bool,
}

// Returns the component of each number, from the order in which a search finished them.
fn components_of<'a>(
    alloc: Global,
    from: &'a [usize],
    to: &'a [usize],
    finished: &'a [usize],
    count: usize,
) -> Result<Vec<usize>, AllocError>
    requires arcs { AreArcs from.now to.now count }
    requires order { IsFinishOrder (HasArc from.now to.now) count finished.now }
    ensures { IfOk result (λ component.
        AreComponents (HasArc from.now to.now) count (length finished.now) component.items) }
{
    if let Some(component) = single_components(alloc, from, to, finished, count)? {
        return Ok(component);
    }
    let links_back = make_links(alloc, to, count)?;
    let backward = Searched {
        arcs: Arcs {
            from,
            to,
            head: &links_back.head,
            link: &links_back.link,
        },
        order: finished,
        numbers: count,
    };
    make_components(alloc, &backward)
}

/// Returns the numbers that each number below `count` reaches over one or more arcs. The arc `k` leads from `from[k]`
/// to `to[k]`. A number reaches itself only if it is on a cycle. Each list is in the order of `order` if the result says
/// that it is `ordered`.
///
/// The caller must ensure that `from` and `to` have equal lengths and contain only numbers below `count`. `order` must
/// contain each number below `count` once.
///
/// # Errors
///
/// Returns `AllocError` if an allocation fails.
///
/// # Complexity
///
/// Allocates O(n + m + r), where n is `count`, m is the number of arcs, and r is the total length of the lists.
///
/// Each arc is read a few times. The list of a component is read once or twice for each arc that leads to it from
/// another component. Each list is put in order once:
///
/// - One member with one arc, not on a cycle: one copy and one search for a place.
/// - One member, not on a cycle, with all its reached numbers within 192 places of its last arc's target in `order`:
///   linear in the length of the list.
/// - Other lists with more than 16 numbers that contain at least 1/16 of all numbers: one scan of `order`.
/// - All other lists: sorted, in O(l log l) for a list of length l.
///
/// The arcs of a number are processed from the last to the first. An arc to a number that is already reached costs one
/// lookup. So a caller should put the arcs to numbers that reach the other targets last.
///
/// Only sorting recurses, to a depth that is logarithmic in the length of the list.
pub fn reach(
    alloc: Global,
    from: &[usize],
    to: &[usize],
    count: usize,
    order: &[usize],
) -> Result<Reached, AllocError>
    requires arcs { AreArcs from.now to.now count }
    requires order { IsPermutation (range_with_len 0 count) order.now }
    ensures reach { IfOk result (λ r. IsReach (HasArc from.now to.now) count
        r.component.items r.start.items r.lists.items) }
    ensures places { IfOk result (λ r. IsRanking count order.now r.places.items) }
    ensures order { IfOk result (λ r. r.ordered ≡ true
        → AreInOrder r.places.items r.start.items r.lists.items) }
{
    let links = make_links(alloc, from, count)?;
    let forward = Arcs {
        from,
        to,
        head: &links.head,
        link: &links.link,
    };
    let finished = finish_order(alloc, &forward, count)?;
    let last = finished.len();
    let component = components_of(alloc, from, to, &finished, count)?;
    let places = ranks(alloc, order, count)?;
    let ranked = Order {
        numbers: order,
        places: &places,
    };
    let Lists {
        start,
        lists,
        ordered,
    } = make_lists(alloc, &forward, &component, &ranked, last, count)?;
    Ok(Reached {
        component,
        start,
        lists,
        places,
        ordered,
    })
}
