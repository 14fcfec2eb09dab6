//! Encoded nodes and their texts.
ghost use Rattle.std.specs.Prelude.{◌≡◌, ◌++◌, ◌∷◌, [], IfOk, pos};
ghost use Rattle.cedar_c_trees.specs.Writes.{nowhere};

use crate::node::Node;
use cedar_c_lists::Span;
use std::alloc::AllocError;
use std::marker::Model;

/// Nodes, and the bytes of their texts. In contracts it is both lists.
#[derive(Drop)]
pub struct Written {
    bytes: Vec<u8>,
    nodes: Vec<Node>,
}

impl Model for Written {
    ghost use Rattle.cedar_c_trees.specs.Writes.{WrittenParts};

    ghost Value = { WrittenParts };

    ghost view = { λ w. record { bytes = w.bytes.items; nodes = w.nodes.items } };
}

impl Written {
    /// Creates a `Written` from the bytes and the nodes. Does not allocate.
    pub(crate) fn new(bytes: Vec<u8>, nodes: Vec<Node>) -> Written
        ensures { result ≡ record { bytes = bytes.items; nodes = nodes.items } }
    {
        Written { bytes, nodes }
    }

    /// Appends the mark of a residual to the nodes of an expression.
    pub(crate) fn marked(self) -> Result<Written, AllocError>
        ensures { IfOk result (λ w. w ≡ record {
          bytes = self.bytes;
          nodes = self.nodes
              ++ record { kind = 15; len = 1; at = nowhere; number = pos 0 } ∷ [];
        }) }
    {
        let Written { bytes, mut nodes } = self;
        let at = Span { start: 0, end: 0 };
        nodes.push(Node {
            kind: 15,
            len: 1,
            at,
            number: 0,
        })?;
        Ok(Written { bytes, nodes })
    }

    /// Returns the bytes of all texts. Does not allocate.
    pub fn bytes(&self) -> &[u8]
        ensures { result.now ≡ self.now.bytes }
    {
        self.bytes.as_slice()
    }

    /// Returns the nodes, each after its operands. Does not allocate.
    pub fn nodes(&self) -> &[Node]
        ensures { result.now ≡ self.now.nodes }
    {
        self.nodes.as_slice()
    }

    /// Returns the nodes, each after its operands, and drops the bytes. Does not allocate.
    pub fn into_nodes(self) -> Vec<Node>
        ensures { result.items ≡ self.nodes }
    {
        let Written { nodes, .. } = self;
        nodes
    }
}
