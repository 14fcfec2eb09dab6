//! The components of a graph without cycles: each number is a component of its own.
ghost use Rattle.std.specs.Prelude.{◌≡◌, ◌<◌, ℕ, IfOk, IfSome, IsTrue, length, slice_index};
ghost use Rattle.cedar_components.specs.Reach.{AreArcs, HasArc};
ghost use Rattle.cedar_components.specs.laws.Components.{AreComponents, AreSingle, NoneLeadsUp};
ghost use Rattle.cedar_components.specs.laws.Numbers.{AllBelow, IsIn};
ghost use Rattle.cedar_components.specs.laws.Search.{IsFinishOrder};

use std::alloc::{AllocError, Global};

// Returns one more than the index of each number in an order of all numbers.
fn places_after(alloc: Global, order: &[usize], n: usize) -> Result<Vec<usize>, AllocError>
    requires inside { AllBelow n order.now }
    requires all { (x : ℕ) → x < n → IsIn order.now x }
    ensures { IfOk result (λ v. AreSingle n order.now v.items) }
{
    let mut component = vec![in alloc; 0; n]?;
    for place in 0..order.len() {
        component[order[place]] = place + 1;
    }
    Ok(component)
}

// Returns whether no arc leads to a number with a higher component.
fn none_leads_up(from: &[usize], to: &[usize], component: &[usize]) -> bool
    requires { AreArcs from.now to.now (length component.now) }
    ensures { IsTrue result → NoneLeadsUp from.now to.now component.now }
{
    for k in 0..from.len() {
        if component[to[k]] > component[from[k]] {
            return false;
        }
    }
    true
}

// Returns the components in the order of a search, if no arc leads to a number that was finished later. Then each
// number is a component of its own. Else returns `None`.
pub(crate) fn single_components(
    alloc: Global,
    from: &[usize],
    to: &[usize],
    order: &[usize],
    n: usize,
) -> Result<Option<Vec<usize>>, AllocError>
    requires arcs { AreArcs from.now to.now n }
    requires order { IsFinishOrder (HasArc from.now to.now) n order.now }
    ensures { IfOk result (λ o. IfSome o (λ component.
        AreComponents (HasArc from.now to.now) n (length order.now) component.items)) }
{
    let component = places_after(alloc, order, n)?;
    if none_leads_up(from, to, &component) {
        return Ok(Some(component));
    }
    Ok(None)
}
