//! The checks that no node has an edge to itself.
ghost use Rattle.std.specs.Prelude.{◌≡◌, true, false, IfErr, OnOk};
ghost use Rattle.std.specs.Set.{ClonesAreEqual};
ghost use Rattle.std.specs.HashMap.{get};
ghost use Rattle.std.specs.HashSet.{contains};
ghost use Rattle.cedar_graph.specs.Graph.{graph_of, HasNoLoop};
ghost use Rattle.cedar_graph.specs.Faults.{MatchFault};

use crate::copies::members_of;
use crate::err::{HasCycle, Result, TcError};
use crate::transitive_closure::TCNode;
use std::alloc::Global;
use std::collections::{HashMap, HashSet};
use std::fmt::{Debug, Display};
use std::hash::{BuildHasher, Hash};

// Checks that no node has an edge to itself.
pub(crate) fn enforce_no_loop<K: Clone + Eq + Hash + Debug + Display, V: TCNode<K>, S: BuildHasher>(
    nodes: &HashMap<K, V, S>,
) -> Result<(), K>
    requires { ClonesAreEqual K.eq K.is_clone }
    ensures ok { OnOk result (HasNoLoop (graph_of K.eq V.edges nodes.now)) }
    ensures err { IfErr result (λ e. MatchFault e
        (λ _ _ _. ⊥)
        (λ v. graph_of K.eq V.edges nodes.now v v ≡ true)) }
{
    for (key, node) in nodes {
        if node.has_edge_to(key) {
            return Err(TcError::HasCycle(HasCycle {
                vertex: key.clone()?,
            }));
        }
    }
    Ok(())
}

// Checks that no node to fix has an edge to itself.
pub(crate) fn enforce_no_loop_for<
    K: Clone + Eq + Hash + Debug + Display,
    V: TCNode<K>,
    S: BuildHasher,
    F: BuildHasher,
>(alloc: Global, fix: &HashSet<K, F>, nodes: &HashMap<K, V, S>) -> Result<(), K>
    requires { ClonesAreEqual K.eq K.is_clone }
    ensures ok { OnOk result ((a : K) →
        contains K.eq fix.now a ≡ true → graph_of K.eq V.edges nodes.now a a ≡ false) }
    ensures err { IfErr result (λ e. MatchFault e
        (λ _ _ _. ⊥)
        (λ v. (contains K.eq fix.now v ≡ true) × (graph_of K.eq V.edges nodes.now v v ≡ true))) }
{
    let rows = members_of(alloc, fix)?;
    for key in &rows {
        check_loop(nodes, *key)?;
    }
    Ok(())
}

// Checks that the node at a key has no edge to itself.
fn check_loop<K: Clone + Eq + Hash + Debug + Display, V: TCNode<K>, S: BuildHasher>(
    nodes: &HashMap<K, V, S>,
    key: &K,
) -> Result<(), K>
    requires { ClonesAreEqual K.eq K.is_clone }
    ensures ok { OnOk result (graph_of K.eq V.edges nodes.now key.now key.now ≡ false) }
    ensures err { IfErr result (λ e. MatchFault e
        (λ _ _ _. ⊥)
        (λ v. (K.eq key.now v ≡ true)
        × (graph_of K.eq V.edges nodes.now key.now key.now ≡ true))) }
{
    if let Some(node) = nodes.get(key) {
        if node.has_edge_to(key) {
            return Err(TcError::HasCycle(HasCycle {
                vertex: key.clone()?,
            }));
        }
    }
    Ok(())
}
