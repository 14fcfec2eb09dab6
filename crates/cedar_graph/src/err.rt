//! The errors of the closure functions.
ghost use Rattle.std.specs.Prelude.{◌≡◌};
ghost use Rattle.cedar_graph.specs.declared.err.TcError.TheVariants.{Memory};
ghost use Rattle.cedar_graph.specs.Faults.{vertex_of};

use std::alloc::{AllocError, AllocFailed};
use std::fmt::{Debug, Display};
use thiserror::Error;

/// Three keys that show that a graph is not closed. `child` has an edge to `parent` and `parent` has an edge to
/// `grandparent`, but `child` has no edge to `grandparent`.
#[derive(Debug, Drop, PartialEq, Eq)]
pub struct MissingTcEdge<K> {
    /// The key whose node has no edge to `grandparent`.
    pub child: K,
    /// A key to which `child` has an edge.
    pub parent: K,
    /// A key to which `parent` has an edge and `child` has none.
    pub grandparent: K,
}

/// A key that lies on a cycle. In a closed graph it has an edge to itself.
#[derive(Debug, Drop, PartialEq, Eq)]
pub struct HasCycle<K> {
    pub(crate) vertex: K,
}

impl<K> HasCycle<K> {
    /// Creates the error for a key. Does not allocate.
    ///
    /// # Differences from cedar-policy-core
    ///
    /// The original creates this error only in its closure.
    pub fn new(vertex: K) -> HasCycle<K>
        ensures { vertex_of result ≡ vertex }
    {
        HasCycle { vertex }
    }

    /// Returns the key that lies on a cycle, and consumes the error. Does not allocate.
    pub fn into_vertex(self) -> K
        ensures { result ≡ vertex_of self }
    {
        self.vertex
    }

    /// Returns the key that lies on a cycle. Does not allocate.
    pub fn vertex_with_loop(&self) -> &K
        ensures { result.now ≡ vertex_of self.now }
    {
        &self.vertex
    }
}

/// The error of a closure function.
///
/// # Differences from cedar-policy-core
///
/// The variant `Memory` reports a failed allocation. The original has no such variant.
#[derive(Debug, Drop, PartialEq, Eq, Error)]
pub enum TcError<K: Debug + Display> {
    /// The graph is not closed: it has a path of two edges without the direct edge.
    #[error("expected all transitive edges to exist, but `{}` -> `{}` and `{}` -> `{}` exists, while `{}` -> `{}` does not", .0.child, .0.parent, .0.parent, .0.grandparent, .0.child, .0.grandparent)]
    MissingTcEdge(MissingTcEdge<K>),
    /// The graph has a cycle.
    #[error("input graph has a cycle containing vertex `{}`", .0.vertex)]
    HasCycle(HasCycle<K>),
    /// An allocation failed.
    #[error("out of memory")]
    Memory,
}

/// The result of a closure function.
pub type Result<T, K> = std::result::Result<T, TcError<K>>;

impl<K: Debug + Display> From<AllocError> for TcError<K> {
    ghost from_gives = { λ _ e. e ≡ Memory };

    fn from(_e: AllocError) -> TcError<K> {
        TcError::Memory
    }
}

impl<T: Drop, K: Debug + Display> From<AllocFailed<T>> for TcError<K> {
    ghost from_gives = { λ _ e. e ≡ Memory };

    fn from(_e: AllocFailed<T>) -> TcError<K> {
        TcError::Memory
    }
}
