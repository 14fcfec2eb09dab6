//! The order in which the lists of a closure contain their numbers.
ghost use Rattle.std.specs.Prelude.{◌≡◌, ◌≤◌, ◌++◌, ◌∷◌, [], length, take, true, IfOk, OnOk};
ghost use Rattle.std.specs.List.{range_with_len};
ghost use Rattle.std.specs.List.Sorted.{IsPermutation};
ghost use Rattle.cedar_graph.specs.Ascending.{IsAscendingAt};
ghost use Rattle.cedar_graph.specs.laws.Ranks.{EndsBelow};
ghost use Rattle.cedar_graph.specs.laws.Writings.{AllBelow};

use crate::transitive_closure::TCNode;
use std::alloc::{AllocError, Global};

// Computes for each number whether an arc leads to it.
fn has_incoming(alloc: Global, to: &[usize], count: usize) -> Result<Vec<bool>, AllocError>
    ensures { IfOk result (λ v. length v.items ≡ count) }
{
    let mut led = vec![in alloc; false; count]?;
    for number in to {
        if let Some(is_led) = led.get_mut(*number) {
            *is_led = true;
        }
    }
    Ok(led)
}

// The numbers to which arcs lead, with copies of their keys, and the other numbers.
#[derive(Drop)]
struct Parts<K> {
    keys: Vec<K>,
    led: Vec<usize>,
    others: Vec<usize>,
}

// Appends a number to its part, with its key if an arc leads to it.
fn put<K: Clone>(
    parts: &mut Parts<K>,
    key: &K,
    number: usize,
    is_led: bool,
) -> Result<(), AllocError>
    requires { length parts.old.keys.items ≡ length parts.old.led.items }
    ensures keys { OnOk result (length parts.new.keys.items ≡ length parts.new.led.items) }
    ensures all { OnOk result (IsPermutation
        (parts.old.led.items ++ parts.old.others.items ++ number ∷ [])
        (parts.new.led.items ++ parts.new.others.items)) }
{
    if is_led {
        parts.keys.push(key.clone()?)?;
        parts.led.push(number)?;
    } else {
        parts.others.push(number)?;
    }
    Ok(())
}

// Splits the numbers of the keys into the two parts.
fn parts_of<K: Clone>(alloc: Global, keys: &[K], to: &[usize]) -> Result<Parts<K>, AllocError>
    ensures keys { IfOk result (λ p. length p.keys.items ≡ length p.led.items) }
    ensures all { IfOk result (λ p.
        IsPermutation (range_with_len 0 (length keys.now)) (p.led.items ++ p.others.items)) }
{
    let led = has_incoming(alloc, to, keys.len())?;
    let mut parts = Parts {
        keys: Vec::new(alloc),
        led: Vec::new(alloc),
        others: Vec::new(alloc),
    };
    for number in 0..keys.len() {
        put(&mut parts, &keys[number], number, led[number])?;
    }
    Ok(parts)
}

// Returns the numbers at the places, and then the others.
fn at_places(
    alloc: Global,
    numbers: &[usize],
    places: &[usize],
    others: &[usize],
) -> Result<Vec<usize>, AllocError>
    requires { IsPermutation (range_with_len 0 (length numbers.now)) places.now }
    ensures { IfOk result (λ v. IsPermutation (numbers.now ++ others.now) v.items) }
{
    let mut order = Vec::with_capacity(alloc, numbers.len().saturating_add(others.len()))?;
    for place in places {
        order.push(numbers[*place])?;
    }
    order.extend_from_slice(others)?;
    Ok(order)
}

// The numbers of the keys in order. The keys of the first `ascending` numbers ascend.
#[derive(Drop)]
pub(crate) struct Order {
    pub(crate) numbers: Vec<usize>,
    pub(crate) ascending: usize,
}

// Returns how many of the first numbers have ascending keys: all of them, or none.
fn count_ascending<K: Clone + Eq + Drop, V: TCNode<K>>(keys: &[K], first: &[usize]) -> usize
    requires { AllBelow (length keys.now) first.now }
    ensures most { result ≤ length first.now }
    ensures ascending { IsAscendingAt V.precedes keys.now (take result first.now) }
{
    if V::are_ascending(keys, first) {
        first.len()
    } else {
        0
    }
}

// Returns the numbers of the keys in order. Numbers to which arcs lead come first, in the order that the node type
// prefers for their keys. The others follow; no list contains them.
pub(crate) fn order_of<K: Clone + Eq + Drop, V: TCNode<K>>(
    alloc: Global,
    keys: &[K],
    to: &[usize],
) -> Result<Order, AllocError>
    ensures all { IfOk result (λ o. IsPermutation (range_with_len 0 (length keys.now)) o.numbers.items) }
    ensures most { IfOk result (λ o. o.ascending ≤ length o.numbers.items) }
    ensures ascending { IfOk result (λ o. IsAscendingAt V.precedes keys.now (take o.ascending o.numbers.items)) }
{
    let parts = parts_of(alloc, keys, to)?;
    let places = V::order(alloc, &parts.keys)?;
    let order = at_places(alloc, &parts.led, &places, &parts.others)?;
    let ascending = count_ascending::<K, V>(keys, &order[..parts.led.len()]);
    Ok(Order {
        numbers: order,
        ascending,
    })
}

// Checks whether the place of the last number of a list is below `limit`.
pub(crate) fn ends_below(list: &[usize], places: &[usize], limit: usize) -> bool
    requires { AllBelow (length places.now) list.now }
    ensures { result ≡ true → EndsBelow limit places.now list.now }
{
    if list.is_empty() {
        return true;
    }
    places[list[list.len() - 1]] < limit
}
