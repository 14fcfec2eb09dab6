//! Transitive closure of a graph whose nodes are the values of a map.
//!
//! The keys and nodes are generic: any node type that implements [`TCNode`] can be used.
//!
//! - [`compute_tc`] closes a graph.
//! - [`repair_tc`] closes the nodes that changed.
//! - [`close_dag`] and [`repair_dag`] do the same for graphs without cycles, and report a cycle before they write.
//! - [`enforce_tc_and_dag`] checks that a graph is closed and has no cycle.
//! - [`compute_tc_counted`] and [`repair_tc_counted`] also count their [`Work`].
//!
//! Each function numbers the keys with edges and reads the edges as arcs between numbers. `cedar_components` computes
//! the numbers that each number reaches. The result is written back as edges.
//!
//! A node type defines by ghost members what its methods mean in contracts. An example is a node with a number as its
//! key and a set of target keys:
//!
//! ```text
//! impl TCNode<u64> for Plain {
//!     ghost Rest = { Unit {0} };
//!     ghost Kept = { Unit {0} };
//!     ghost key = { λ n. n.number };
//!     ghost edges = { λ n. contains nat_eq n.targets };
//!     ghost direct = { λ n. contains nat_eq n.targets };
//!     ghost rest = { λ n. tt };
//!     ghost kept = { λ n. tt };
//!
//!     fn get_key(&self, _alloc: Global) -> Result<u64, AllocError> { Ok(self.number) }
//!     fn add_edge_to(&mut self, _alloc: Global, k: u64) -> Result<(), AllocError> {
//!         self.targets.insert(k)?;
//!         Ok(())
//!     }
//!     fn out_edges(&self, alloc: Global) -> Result<Vec<&u64>, AllocError> {
//!         self.targets.iter().collect(alloc)
//!     }
//!     fn has_edge_to(&self, k: &u64) -> bool { self.targets.contains(k) }
//!     fn reset_edges(&mut self, _alloc: Global) -> Result<(), AllocError> { Ok(()) }
//!
//!     ghost respects_eq = { λ n x y h. contains_both_or_none nat_eq_equiv x y h n.targets };
//!     ghost direct_are_edges = { λ n q h. h };
//! }
//! ```
//!
//! `contains_both_or_none` is a law of this crate's `specs/laws/Nodes`. A caller of the functions must ensure two
//! conditions: each map key is its node's key, and a copy of a key equals it.
#![tactic(auto)]

mod arcs;
mod checks;
mod close;
mod closed;
mod copies;
mod dag;
pub mod err;
mod numbering;
mod order;
pub mod transitive_closure;

pub use dag::{close_dag, repair_dag};
pub use err::{HasCycle, MissingTcEdge, Result, TcError};
pub use transitive_closure::{
    TCNode, Work, compute_tc, compute_tc_counted, enforce_tc_and_dag, repair_tc, repair_tc_counted,
};
