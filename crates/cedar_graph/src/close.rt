//! Closing and repairing: writing the reached numbers back as edges.
ghost use Rattle.std.specs.Prelude.{
  ◌≡◌,
  ℕ,
  ◌<◌,
  ◌≤◌,
  ◌+◌,
  [],
  true,
  false,
  length,
  slice_index,
  is_some,
  IfOk,
  OnOk,
};
ghost use Rattle.std.specs.List.{IsDistinct};
ghost use Rattle.std.specs.Set.{is_member, ClonesAreEqual};
ghost use Rattle.std.specs.HashMap.{get, hash_map_len};
ghost use Rattle.std.specs.HashSet.{contains, hash_set_len};
ghost use Rattle.indexmap.specs.IndexSet.{IsUnique};
ghost use Rattle.cedar_components.specs.Reach.{AreArcs, HasPath};
ghost use Rattle.cedar_graph.specs.Ascending.{IsAscending, IsAscendingAt};
ghost use Rattle.cedar_graph.specs.Graph.{graph_of, Grows, HasNoLoop, IsTrusted};
ghost use Rattle.cedar_graph.specs.Calls.{CoversEdged, HasAll, IsAtMostNeeded, KeepsAll, OnlyAdds};
ghost use Rattle.cedar_graph.specs.laws.Reaches.{HasReached};
ghost use Rattle.cedar_graph.specs.laws.Arcs.{Ascends, IsKeyAt, IsRowEdge};
ghost use Rattle.cedar_graph.specs.laws.Readings.{AreRead, IsArc};
ghost use Rattle.cedar_graph.specs.laws.Writings.{
  AllBelow,
  AreAtMost,
  AreNewTo,
  CountsFound,
  CountsWork,
  HasNodes,
  IsAt,
  IsEdgeTo,
  IsFixEdge,
  IsOnlyKnown,
  IsOrderedBy,
  IsReachOf,
  IsRowOf,
  IsRowTo,
  IsToFix,
  KeepsOrder,
  KnowsEdges,
  KnowsLast,
  KnowsTargets,
  NoneGoesBack,
  StartsAt,
  TakesInOrder,
  TakesKey,
  TakesRun,
  Writes,
  listed,
};

use crate::arcs::{FixReading, Reading, read_arcs, read_fix};
use crate::order::{ends_below, order_of};
use crate::transitive_closure::{TCNode, Work};
use cedar_components::{Reached, reach};
use std::alloc::{AllocError, Global};
use std::collections::{HashMap, HashSet};
use std::hash::{BuildHasher, Hash};

// Appends a copy of a key to a row, unless it is known.
fn pick_key<K: Clone + Eq + Hash>(row: &mut Vec<K>, key: &K, known: bool) -> Result<(), AllocError>
    requires { ClonesAreEqual K.eq K.is_clone }
    ensures taken { OnOk result (TakesKey K.eq key.now known row.old.items row.new.items) }
    ensures order { OnOk result (TakesInOrder K.eq key.now row.old.items row.new.items) }
{
    if known {
        return Ok(());
    }
    row.push(key.clone()?)?;
    Ok(())
}

// The numbers to whose keys a node already has an edge: the numbers with the mark `mark`. `count` arcs lead to them,
// the last one to the number `last`.
#[derive(Drop)]
pub(crate) struct Known {
    pub(crate) marks: Vec<usize>,
    pub(crate) mark: usize,
    pub(crate) count: usize,
    pub(crate) last: usize,
}

// Numbers are processed in runs if there are at least this many for each known number, and one by one otherwise.
const RUN: usize = 8;

// Appends copies of the keys of the numbers at the places from `start` up to `end`.
fn pick_run<K: Clone + Eq + Hash>(
    row: &mut Vec<K>,
    keys: &[K],
    numbers: &[usize],
    start: usize,
    end: usize,
) -> Result<(), AllocError>
    requires copies { ClonesAreEqual K.eq K.is_clone }
    requires numbers { AllBelow (length keys.now) numbers.now }
    requires ordered { start ≤ end }
    requires within { end ≤ length numbers.now }
    ensures taken { OnOk result (TakesRun K.eq keys.now numbers.now start end row.old.items row.new.items) }
    ensures order { OnOk result (KeepsOrder K.eq keys.now numbers.now start row.old.items
        → KeepsOrder K.eq keys.now numbers.now end row.new.items) }
{
    for place in start..end {
        pick_key(row, &keys[numbers[place]], false)?;
    }
    Ok(())
}

// Returns the place of the first known number from `start` on, or the end of the list.
fn next_known(numbers: &[usize], start: usize, known: &Known) -> usize
    requires start { start ≤ length numbers.now }
    requires marks { AllBelow (length known.now.marks.items) numbers.now }
    ensures least { start ≤ result }
    ensures most { result ≤ length numbers.now }
    ensures before { (n : ℕ) → start ≤ n → n < result
        → slice_index known.now.marks.items (slice_index numbers.now n) ≡ known.now.mark → ⊥ }
    ensures found { result < length numbers.now
        → slice_index known.now.marks.items (slice_index numbers.now result) ≡ known.now.mark }
{
    for place in start..numbers.len() {
        if known.marks[numbers[place]] == known.mark {
            return place;
        }
    }
    numbers.len()
}

// Appends to an empty row copies of the keys of the numbers, in order, without the only known one. Comparing with one
// number is faster than reading marks.
fn push_unknown_keys<K: Clone + Eq + Hash>(
    row: &mut Vec<K>,
    keys: &[K],
    numbers: &[usize],
    known: &Known,
) -> Result<(), AllocError>
    requires copies { ClonesAreEqual K.eq K.is_clone }
    requires numbers { AllBelow (length keys.now) numbers.now }
    requires marks { length known.now.marks.items ≡ length keys.now }
    requires unique { IsDistinct K.eq keys.now }
    requires one { IsOnlyKnown known.now known.now.last }
    requires row { row.old.items ≡ [] }
    ensures row { OnOk result (IsRowOf K.eq keys.now numbers.now known.now row.new.items) }
    ensures order { OnOk result (KeepsOrder K.eq keys.now numbers.now (length numbers.now) row.new.items) }
{
    for place in 0..numbers.len() {
        let y = numbers[place];
        pick_key(row, &keys[y], y == known.last)?;
    }
    Ok(())
}

// Appends to an empty row copies of the keys of the numbers, in order, without the known ones. It is not inlined,
// because its caller mostly handles few numbers.
#[inline(never)]
fn pick_runs<K: Clone + Eq + Hash>(
    row: &mut Vec<K>,
    keys: &[K],
    numbers: &[usize],
    known: &Known,
) -> Result<(), AllocError>
    requires copies { ClonesAreEqual K.eq K.is_clone }
    requires numbers { AllBelow (length keys.now) numbers.now }
    requires marks { length known.now.marks.items ≡ length keys.now }
    requires unique { IsDistinct K.eq keys.now }
    requires one { KnowsLast known.now }
    requires row { row.old.items ≡ [] }
    ensures row { OnOk result (IsRowOf K.eq keys.now numbers.now known.now row.new.items) }
    ensures order { OnOk result (KeepsOrder K.eq keys.now numbers.now (length numbers.now) row.new.items) }
{
    if known.count == 1 {
        return push_unknown_keys(row, keys, numbers, known);
    }
    let mut end = next_known(numbers, 0, known);
    pick_run(row, keys, numbers, 0, end)?;
    while end < numbers.len() {
        let start = end + 1;
        end = next_known(numbers, start, known);
        pick_run(row, keys, numbers, start, end)?;
    }
    Ok(())
}

// Appends a copy of a key to a row, unless it is known. Returns whether the row had capacity for it.
fn pick_if_room<K: Clone + Eq + Hash>(
    row: &mut Vec<K>,
    key: &K,
    known: bool,
) -> Result<bool, AllocError>
    requires { ClonesAreEqual K.eq K.is_clone }
    ensures taken { IfOk result (λ b. b ≡ true → TakesKey K.eq key.now known row.old.items row.new.items) }
    ensures order { IfOk result (λ b. b ≡ true → TakesInOrder K.eq key.now row.old.items row.new.items) }
    ensures full { IfOk result (λ b. b ≡ false → row.new.items ≡ row.old.items) }
{
    if known {
        return Ok(true);
    }
    let copy = key.clone()?;
    if row.len() >= row.capacity() {
        return Ok(false);
    }
    row.push_reserved(copy);
    Ok(true)
}

// Appends to an empty row copies of the keys of the numbers, in order, without the known ones, while the row has
// capacity. Returns the place at which it stopped. The row never grows.
fn pick_while_room<K: Clone + Eq + Hash>(
    row: &mut Vec<K>,
    keys: &[K],
    numbers: &[usize],
    known: &Known,
) -> Result<usize, AllocError>
    requires copies { ClonesAreEqual K.eq K.is_clone }
    requires numbers { AllBelow (length keys.now) numbers.now }
    requires marks { length known.now.marks.items ≡ length keys.now }
    requires unique { IsDistinct K.eq keys.now }
    requires row { row.old.items ≡ [] }
    ensures most { IfOk result (λ n. n ≤ length numbers.now) }
    ensures row { IfOk result (λ n. IsRowTo K.eq keys.now numbers.now n known.now row.new.items) }
    ensures order { IfOk result (λ n. KeepsOrder K.eq keys.now numbers.now n row.new.items) }
{
    for place in 0..numbers.len() {
        let y = numbers[place];
        let has_room = pick_if_room(row, &keys[y], known.marks[y] == known.mark)?;
        if !has_room {
            return Ok(place);
        }
    }
    Ok(numbers.len())
}

// Returns copies of the keys of the numbers, in order, without the known ones.
fn pick_row<K: Clone + Eq + Hash>(
    alloc: Global,
    keys: &[K],
    numbers: &[usize],
    known: &Known,
) -> Result<Vec<K>, AllocError>
    requires copies { ClonesAreEqual K.eq K.is_clone }
    requires numbers { AllBelow (length keys.now) numbers.now }
    requires marks { length known.now.marks.items ≡ length keys.now }
    requires unique { IsDistinct K.eq keys.now }
    requires one { KnowsLast known.now }
    ensures row { IfOk result (λ v. IsRowOf K.eq keys.now numbers.now known.now v.items) }
    ensures order { IfOk result (λ v. KeepsOrder K.eq keys.now numbers.now (length numbers.now) v.items) }
{
    let room = numbers.len().saturating_sub(known.count);
    let mut row = Vec::with_capacity(alloc, room)?;
    if known.count < numbers.len() / RUN {
        pick_runs(&mut row, keys, numbers, known)?;
        return Ok(row);
    }
    let start = pick_while_room(&mut row, keys, numbers, known)?;
    for place in start..numbers.len() {
        let y = numbers[place];
        pick_key(&mut row, &keys[y], known.marks[y] == known.mark)?;
    }
    Ok(row)
}

// Adds edges from a node to the keys of a row. The node must not have any of these edges yet. If `ascending` is true,
// the keys must ascend. Does not call the node for an empty row.
fn fill_node<K: Clone + Eq + Hash, V: TCNode<K>>(
    alloc: Global,
    node: &mut V,
    row: &mut Vec<K>,
    ascending: bool,
) -> Result<(), AllocError>
    requires new { AreNewTo K.eq (V.edges node.old) row.old.items }
    requires ascending { ascending ≡ true → IsAscending V.precedes row.old.items }
    ensures grows { Grows (V.edges node.old) (V.edges node.new) (is_member K.eq row.old.items) }
    ensures ok { OnOk result ((q : K) → is_member K.eq row.old.items q ≡ true → V.edges node.new q ≡ true) }
    ensures key { V.key node.new ≡ V.key node.old }
    ensures rest { V.rest node.new ≡ V.rest node.old }
    ensures kept { V.kept node.new ≡ V.kept node.old }
{
    if row.is_empty() {
        return Ok(());
    }
    if ascending {
        return node.add_ascending_edges_to(alloc, row);
    }
    node.add_new_edges_to(alloc, row)
}

// Adds edges from the node at a key to the keys of a row. The node must not have any of these edges yet. If `ascending`
// is true, the keys must ascend. Returns the number of nodes found: 0 or 1.
fn add_row<K: Clone + Eq + Hash, V: TCNode<K>, S: BuildHasher>(
    alloc: Global,
    nodes: &mut HashMap<K, V, S>,
    at: &K,
    row: &mut Vec<K>,
    ascending: bool,
) -> Result<usize, AllocError>
    requires new { AreNewTo K.eq (graph_of K.eq V.edges nodes.old at.now) row.old.items }
    requires ascending { ascending ≡ true → IsAscending V.precedes row.old.items }
    ensures keeps { KeepsAll K.eq V.key V.rest V.kept nodes.old nodes.new }
    ensures writes { Writes K.eq V.edges (IsAt K.eq at.now) (IsEdgeTo K.eq at.now row.old.items)
        nodes.old nodes.new result }
    ensures count { IfOk result (CountsFound 1 (is_some (get K.eq nodes.old at.now) ≡ true)) }
{
    let node = match nodes.get_mut(at) {
        Some(node) => node,
        None => return Ok(0),
    };
    fill_node(alloc, node, row, ascending)?;
    Ok(1)
}

// Returns the list of the numbers that number `x` reaches.
pub(crate) fn listed_for<'a, K: Clone + Eq + Hash, S: BuildHasher>(
    read: &Reading<K, S>,
    reached: &'a Reached,
    x: usize,
) -> &'a [usize]
    requires reach { IsReachOf read.now reached.now }
    requires within { x < length read.now.keys.keys }
    ensures listed { result.now ≡ listed reached.now x }
    ensures below { AllBelow (length read.now.keys.keys) result.now }
{
    let component = reached.component[x];
    &reached.lists[reached.start[component]..reached.start[component + 1]]
}

// The numbers that each number reaches. The keys at the first `limit` places of the order of the lists ascend.
#[derive(Drop)]
pub(crate) struct OrderedReach {
    pub(crate) numbers: Reached,
    pub(crate) limit: usize,
}

// Returns whether the keys of the numbers that number `x` reaches are known to ascend in the order of their list.
fn ascends<K: Clone + Eq + Hash, V: TCNode<K>, S: BuildHasher>(
    read: &Reading<K, S>,
    reached: &OrderedReach,
    x: usize,
) -> bool
    requires reach { IsReachOf read.now reached.now.numbers }
    requires order { IsOrderedBy V.precedes read.now.keys.keys reached.now }
    requires within { x < length read.now.keys.keys }
    ensures { result ≡ true → IsAscendingAt V.precedes read.now.keys.keys (listed reached.now.numbers x) }
{
    if !reached.numbers.ordered {
        return false;
    }
    let list = listed_for(read, &reached.numbers, x);
    ends_below(list, &reached.numbers.places, reached.limit)
}

// Adds edges from the node of number `x` to the keys of the numbers that `x` reaches. Its existing edges must be the
// edges to known numbers. Returns the number of nodes found: 0 or 1.
fn write_number<K: Clone + Eq + Hash, V: TCNode<K>, S: BuildHasher>(
    alloc: Global,
    nodes: &mut HashMap<K, V, S>,
    read: &Reading<K, S>,
    reached: &OrderedReach,
    x: usize,
    known: &Known,
) -> Result<usize, AllocError>
    requires copies { ClonesAreEqual K.eq K.is_clone }
    requires reach { IsReachOf read.now reached.now.numbers }
    requires order { IsOrderedBy V.precedes read.now.keys.keys reached.now }
    requires within { x < length read.now.keys.keys }
    requires unique { IsUnique K.eq read.now.keys }
    requires known { KnowsEdges K.eq (graph_of K.eq V.edges nodes.old) read.now.keys.keys x known.now }
    requires one { KnowsLast known.now }
    ensures keeps { KeepsAll K.eq V.key V.rest V.kept nodes.old nodes.new }
    ensures writes { Writes K.eq V.edges (IsKeyAt K.eq read.now.keys.keys x)
        (IsRowEdge K.eq read.now.keys.keys (IsArc read.now) x) nodes.old nodes.new result }
    ensures count { IfOk result (CountsFound 1
        (HasNodes K.eq nodes.old (IsKeyAt K.eq read.now.keys.keys x))) }
{
    let keys = read.keys.as_slice();
    let numbers = listed_for(read, &reached.numbers, x);
    let mut row = pick_row(alloc, keys, numbers, known)?;
    let ascending = ascends::<K, V, S>(read, reached, x);
    add_row(alloc, nodes, &keys[x], &mut row, ascending)
}

// Marks the targets of number `x` as known. Its arcs begin at place `e`. Returns the place after them.
pub(crate) fn mark_targets(
    from: &[usize],
    to: &[usize],
    known: &mut Known,
    x: usize,
    e: usize,
) -> usize
    requires arcs { AreArcs from.now to.now (length known.old.marks.items) }
    requires ascending { Ascends from.now }
    requires starts { StartsAt from.now x e }
    requires before { AreAtMost x known.old.marks.items }
    requires place { e ≤ length from.now }
    requires fits { x < length known.old.marks.items }
    ensures len { length known.new.marks.items ≡ length known.old.marks.items }
    ensures below { AreAtMost (x + 1) known.new.marks.items }
    ensures known { KnowsTargets from.now to.now x known.new }
    ensures mark { known.new.mark ≡ x + 1 }
    ensures one { KnowsLast known.new }
    ensures grows { (y : ℕ) → slice_index known.old.marks.items y ≤ slice_index known.new.marks.items y }
    ensures starts { StartsAt from.now (x + 1) result }
    ensures place { result ≤ length from.now }
{
    let mut k = e;
    while k < from.len() && from[k] == x {
        known.last = to[k];
        known.marks[known.last] = x + 1;
        k += 1;
    }
    known.mark = x + 1;
    known.count = k.saturating_sub(e);
    k
}

// Checks whether number `x` reaches itself.
pub(crate) fn reaches_itself<K: Clone + Eq + Hash, S: BuildHasher>(
    read: &Reading<K, S>,
    reached: &Reached,
    x: usize,
) -> bool
    requires reach { IsReachOf read.now reached.now }
    requires within { x < length read.now.keys.keys }
    ensures none { result ≡ false → HasPath (IsArc read.now) x x → ⊥ }
    ensures some { result ≡ true → HasPath (IsArc read.now) x x }
{
    listed_for(read, reached, x).contains(&x)
}

// The work done, and whether a number to fix may reach itself. It is also `true` if this was not checked.
#[derive(Drop)]
pub(crate) struct Closed {
    pub(crate) work: Work,
    pub(crate) has_loop: bool,
}

// Adds edges from the node of each number to fix to the keys of the numbers that it reaches, and counts the nodes. If
// `asks` is true, it also checks whether one of the numbers reaches itself. It checks only numbers that are already
// marked when their turn comes, because every cycle contains such a number.
pub(crate) fn write_rows<K: Clone + Eq + Hash, V: TCNode<K>, S: BuildHasher>(
    alloc: Global,
    nodes: &mut HashMap<K, V, S>,
    read: &FixReading<K, S>,
    reached: &OrderedReach,
    asks: bool,
) -> Result<Closed, AllocError>
    requires copies { ClonesAreEqual K.eq K.is_clone }
    requires read { AreRead K.eq (graph_of K.eq V.edges nodes.old) read.now }
    requires reach { IsReachOf read.now.reading reached.now.numbers }
    requires order { IsOrderedBy V.precedes read.now.reading.keys.keys reached.now }
    ensures keeps { KeepsAll K.eq V.key V.rest V.kept nodes.old nodes.new }
    ensures writes { Writes K.eq V.edges (IsToFix K.eq read.now) (IsFixEdge K.eq read.now)
        nodes.old nodes.new result }
    ensures work { IfOk result (λ c. CountsWork K.eq read.now nodes.old c.work) }
    ensures loops { IfOk result (λ c.
        c.has_loop ≡ false → NoneGoesBack (IsArc read.now.reading) read.now.fixed) }
{
    let arcs = &read.reading;
    let mut known = Known {
        marks: vec![in alloc; 0; arcs.keys.len()]?,
        mark: 0,
        count: 0,
        last: 0,
    };
    let mut place = 0;
    let mut closings = 0;
    let mut has_loop = !asks;
    for x in 0..read.fixed {
        place = mark_targets(&arcs.from, &arcs.to, &mut known, x, place);
        closings += write_number(alloc, nodes, arcs, reached, x, &known)?;
        has_loop = has_loop || known.marks[x] != 0 && reaches_itself(arcs, &reached.numbers, x);
    }
    let work = Work {
        reads: arcs.reads,
        closings,
    };
    Ok(Closed { work, has_loop })
}

// Computes the numbers that each number reaches.
pub(crate) fn reach_of<K: Clone + Eq + Hash, V: TCNode<K>, S: BuildHasher>(
    alloc: Global,
    read: &Reading<K, S>,
) -> Result<OrderedReach, AllocError>
    requires { AreArcs read.now.from.items read.now.to.items (length read.now.keys.keys) }
    ensures reach { IfOk result (λ r. IsReachOf read.now r.numbers) }
    ensures order { IfOk result (IsOrderedBy V.precedes read.now.keys.keys) }
{
    let keys = read.keys.as_slice();
    let order = order_of::<K, V>(alloc, keys, &read.to)?;
    let numbers = reach(alloc, &read.from, &read.to, keys.len(), &order.numbers)?;
    Ok(OrderedReach {
        numbers,
        limit: order.ascending,
    })
}

// Adds the edges that follow from the arcs to the nodes of the numbers to fix. Reports whether one of these numbers may
// reach itself, which is `true` if `asks` is false.
fn close_read<K: Clone + Eq + Hash, V: TCNode<K>, S: BuildHasher>(
    alloc: Global,
    nodes: &mut HashMap<K, V, S>,
    read: &FixReading<K, S>,
    asks: bool,
) -> Result<Closed, AllocError>
    requires copies { ClonesAreEqual K.eq K.is_clone }
    requires read { AreRead K.eq (graph_of K.eq V.edges nodes.old) read.now }
    ensures keeps { KeepsAll K.eq V.key V.rest V.kept nodes.old nodes.new }
    ensures writes { Writes K.eq V.edges (IsToFix K.eq read.now) (IsFixEdge K.eq read.now)
        nodes.old nodes.new result }
    ensures work { IfOk result (λ c. CountsWork K.eq read.now nodes.old c.work) }
    ensures loops { IfOk result (λ c.
        c.has_loop ≡ false → NoneGoesBack (IsArc read.now.reading) read.now.fixed) }
{
    let reached = reach_of::<K, V, S>(alloc, &read.reading)?;
    write_rows(alloc, nodes, read, &reached, asks)
}

// Adds edges to all reached keys. Reports whether a key may then have an edge to itself, which is `true` if `asks` is
// false.
pub(crate) fn close<K: Clone + Eq + Hash, V: TCNode<K>, S: BuildHasher + Clone>(
    alloc: Global,
    nodes: &mut HashMap<K, V, S>,
    asks: bool,
) -> Result<Closed, AllocError>
    requires { ClonesAreEqual K.eq K.is_clone }
    ensures keeps { KeepsAll K.eq V.key V.rest V.kept nodes.old nodes.new }
    ensures adds { OnlyAdds (graph_of K.eq V.edges nodes.old) (graph_of K.eq V.edges nodes.new) }
    ensures ok { OnOk result (
        HasReached (graph_of K.eq V.edges nodes.old) (graph_of K.eq V.edges nodes.new)) }
    ensures loops { IfOk result (λ c.
        c.has_loop ≡ false → HasNoLoop (graph_of K.eq V.edges nodes.new)) }
    ensures reads { IfOk result (λ c. c.work.reads ≤ hash_map_len nodes.old) }
    ensures closings { IfOk result (λ c. c.work.closings ≤ hash_map_len nodes.old) }
    ensures lists { IfOk result (λ c.
        CoversEdged K.eq (graph_of K.eq V.edges nodes.old) c.work.reads) }
    ensures visits { IfOk result (λ c.
        CoversEdged K.eq (graph_of K.eq V.edges nodes.old) c.work.closings) }
{
    let read = read_arcs(alloc, nodes)?;
    close_read(alloc, nodes, &read, asks)
}

// Adds edges from the nodes to fix to all reached keys.
pub(crate) fn repair<K: Clone + Eq + Hash, V: TCNode<K>, S: BuildHasher + Clone, F: BuildHasher>(
    alloc: Global,
    fix: &HashSet<K, F>,
    nodes: &mut HashMap<K, V, S>,
) -> Result<Work, AllocError>
    requires { ClonesAreEqual K.eq K.is_clone }
    ensures keeps { KeepsAll K.eq V.key V.rest V.kept nodes.old nodes.new }
    ensures alone { (q : K) →
        contains K.eq fix.now q ≡ false → get K.eq nodes.new q ≡ get K.eq nodes.old q }
    ensures adds { OnlyAdds (graph_of K.eq V.edges nodes.old) (graph_of K.eq V.edges nodes.new) }
    ensures ok { OnOk result (
        IsTrusted (contains K.eq fix.now) (graph_of K.eq V.edges nodes.old)
        → HasReached (graph_of K.eq V.edges nodes.old) (graph_of K.eq V.edges nodes.new)) }
    ensures reads { IfOk result (λ w. IsAtMostNeeded K.eq (contains K.eq fix.now)
        (graph_of K.eq V.edges nodes.old) w.reads) }
    ensures closings { IfOk result (λ w. w.closings ≤ hash_set_len fix.now) }
    ensures visits { IfOk result (λ w. HasAll K.eq fix.now nodes.old
        → hash_set_len fix.now ≤ w.closings) }
{
    let read = read_fix(alloc, fix, nodes)?;
    let closed = close_read(alloc, nodes, &read, false)?;
    Ok(closed.work)
}
