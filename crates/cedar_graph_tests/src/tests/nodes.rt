// A node type with numbers as keys, and graphs of such nodes.
ghost use Rattle.std.specs.Prelude.{◌≡◌, map, nat_eq, IfOk, List};
ghost use Rattle.std.specs.HashSet.{contains};
ghost use Rattle.std.specs.Set.{is_member};
ghost use Rattle.cedar_graph.specs.Graph.{KeysMatch};

use super::{Fixed, fixed};
use cedar_graph::TCNode;
use std::alloc::{AllocError, Global};
use std::cell::Cell;
use std::collections::{HashMap, HashSet};
use std::hash::BuildHasher;

/// A node that stores its direct edges and its other edges separately, and counts the calls that list its edges. No
/// contract mentions the count.
#[derive(Drop)]
pub struct Node {
    pub number: u64,
    pub own: HashSet<u64>,
    pub further: HashSet<u64>,
    pub listed: Cell<usize>,
}

impl TCNode<u64> for Node {
    ghost use Rattle.std.specs.Prelude.{◌||◌, ℕ, false};
    ghost use Rattle.std.proofs.Common.{refl};
    ghost use Rattle.std.specs.Cmp.{nat_eq_equiv};
    ghost use Rattle.cedar_graph.specs.laws.Nodes.{either_contains_both_or_none, first_of_either};

    ghost Rest = { Unit {0} };

    ghost Kept = { List ℕ };

    ghost key = { λ n. n.number };

    ghost edges = { λ n q. contains nat_eq n.own q || contains nat_eq n.further q };

    ghost direct = { λ n. contains nat_eq n.own };

    ghost rest = { λ n. tt };

    ghost kept = { λ n. n.own.keys };

    ghost precedes = { λ x y. false };

    fn get_key(&self, _alloc: Global) -> Result<u64, AllocError> {
        Ok(self.number)
    }

    fn add_edge_to(&mut self, _alloc: Global, k: u64) -> Result<(), AllocError> {
        if !self.own.contains(&k) {
            self.further.insert(k)?;
        }
        Ok(())
    }

    fn out_edges(&self, alloc: Global) -> Result<Vec<&u64>, AllocError> {
        self.listed.set(self.listed.get().saturating_add(1));
        self.own.iter().chain(self.further.iter()).collect(alloc)
    }

    fn has_edge_to(&self, k: &u64) -> bool {
        self.own.contains(k) || self.further.contains(k)
    }

    fn reset_edges(&mut self, _alloc: Global) -> Result<(), AllocError> {
        self.further.clear();
        Ok(())
    }

    fn direct_edges(&self, alloc: Global) -> Result<Vec<&u64>, AllocError>
        ensures exact { IfOk result (λ v. (q : _) →
            is_member nat_eq (map (λ x. x.now) v.items) q ≡ contains nat_eq self.now.own q) }
    {
        self.own.iter().collect(alloc)
    }

    ghost respects_eq = { λ n x y h. either_contains_both_or_none nat_eq_equiv x y h n.own n.further };

    ghost direct_are_edges = { λ n q h.
        first_of_either (contains nat_eq n.own q) (contains nat_eq n.further q) h };

    ghost precedes_respects_eq = { λ x y u v h g. refl };
}

/// A graph with numbers as keys, in a map with the hasher builder `S`.
pub type Graph<S> = HashMap<u64, Node, S>;

// Returns the number of a digit.
fn digit(byte: u8) -> u64 {
    u64::from(byte.wrapping_sub(b'0'))
}

// Returns the numbers of the digits.
fn digits(alloc: Global, text: &[u8]) -> Result<HashSet<u64>, AllocError> {
    let mut all = HashSet::new(alloc);
    for byte in text {
        all.insert(digit(*byte))?;
    }
    Ok(all)
}

// Inserts a node with these edges.
fn put<S: BuildHasher + Copy>(
    alloc: Global,
    nodes: &mut Graph<S>,
    number: u64,
    own: HashSet<u64>,
) -> Result<(), AllocError>
    requires { KeysMatch nat_eq (λ n. n.number) nodes.old }
    ensures { KeysMatch nat_eq (λ n. n.number) nodes.new }
{
    let node = Node {
        number,
        own,
        further: HashSet::new(alloc),
        listed: Cell::new(0),
    };
    drop(nodes.insert(number, node)?);
    Ok(())
}

/// Creates the graph of a text. Each word is a node: the first digit is its key, and the other digits are the keys to
/// which it has edges.
///
/// # Errors
///
/// Returns `AllocError` if an allocation fails.
pub fn graph<S: BuildHasher + Copy>(
    alloc: Global,
    hasher: S,
    text: &str,
) -> Result<Graph<S>, AllocError>
    ensures { IfOk result (λ m. KeysMatch nat_eq (λ n. n.number) m) }
{
    let mut nodes = HashMap::with_hasher(alloc, hasher);
    for word in text.split_whitespace() {
        if let Some((first, targets)) = word.as_bytes().split_first() {
            put(alloc, &mut nodes, digit(*first), digits(alloc, targets)?)?;
        }
    }
    Ok(nodes)
}

/// Creates the set of the keys of the digits, with the hasher builder `hasher`.
///
/// # Errors
///
/// Returns `AllocError` if an allocation fails.
pub fn keys<S: BuildHasher + Copy>(
    alloc: Global,
    hasher: S,
    text: &str,
) -> Result<HashSet<u64, S>, AllocError> {
    let mut all = HashSet::with_hasher(alloc, hasher);
    for byte in text.as_bytes() {
        all.insert(digit(*byte))?;
    }
    Ok(all)
}

/// Creates the chain of the keys from `first` up to `end`, without `end`. Each has an edge to the next one.
///
/// # Errors
///
/// Returns `AllocError` if an allocation fails.
pub fn chain(alloc: Global, first: u64, end: u64) -> Result<Graph<Fixed>, AllocError>
    ensures { IfOk result (λ m. KeysMatch nat_eq (λ n. n.number) m) }
{
    let mut nodes = HashMap::with_hasher(alloc, fixed());
    for number in first..end {
        let mut own = HashSet::new(alloc);
        own.insert(number + 1)?;
        put(alloc, &mut nodes, number, own)?;
    }
    Ok(nodes)
}

/// Returns the total number of listings of edges, and the greatest number for one node.
pub fn listed<S: BuildHasher>(nodes: &Graph<S>) -> (usize, usize) {
    let mut all: usize = 0;
    let mut most: usize = 0;
    for node in nodes.values() {
        let times = node.listed.get();
        all = all.saturating_add(times);
        most = most.max(times);
    }
    (all, most)
}

/// Returns the total number of edges.
pub fn edge_count<S: BuildHasher>(nodes: &Graph<S>) -> usize {
    let mut all: usize = 0;
    for node in nodes.values() {
        all = all
            .saturating_add(node.own.len())
            .saturating_add(node.further.len());
    }
    all
}
