//! A draft of nodes, written from the last node to the first, and the bytes of their texts.
ghost use Rattle.std.specs.Prelude.{◌≡◌, [], OnOk, length};
ghost use Rattle.cedar_c_trees.specs.Drafts.{HasNode, HasText};
ghost use Rattle.cedar_c_trees.specs.Writes.{nowhere};

use crate::node::Node;
use crate::written::Written;
use cedar_c_lists::Span;
use std::alloc::{AllocError, Global};
use std::marker::Model;

/// Nodes that are written from the last to the first. In contracts they are listed from the first to the last.
#[derive(Drop)]
pub(crate) struct Draft {
    bytes: Vec<u8>,
    nodes: Vec<Node>,
}

impl Model for Draft {
    ghost use Rattle.std.specs.Prelude.{reverse};
    ghost use Rattle.cedar_c_trees.specs.Writes.{WrittenParts};

    ghost Value = { WrittenParts };

    ghost view = { λ d. record { bytes = d.bytes.items; nodes = reverse d.nodes.items } };
}

// Returns the position after the last byte.
fn end_of(bytes: &Vec<u8>) -> usize
    ensures { result ≡ length bytes.now.items }
{
    bytes.as_slice().len()
}

impl Draft {
    /// Creates a draft without nodes. Does not allocate.
    pub(crate) fn new(alloc: Global) -> Draft
        ensures { result ≡ record { bytes = []; nodes = [] } }
    {
        Draft {
            bytes: Vec::new(alloc),
            nodes: Vec::new(alloc),
        }
    }

    /// Writes a node before the others.
    pub(crate) fn put(&mut self, kind: u32, len: usize, number: i64) -> Result<(), AllocError>
        ensures { OnOk result (HasNode (record { kind = kind; len = len; at = nowhere; number = number })
            self.old self.new) }
    {
        let at = Span { start: 0, end: 0 };
        self.nodes.push(Node {
            kind,
            len,
            at,
            number,
        })?;
        Ok(())
    }

    /// Writes a node with a text before the others.
    pub(crate) fn push_text(&mut self, kind: u32, len: usize, text: &str) -> Result<(), AllocError>
        ensures { OnOk result (HasText kind len text.now self.old self.new) }
    {
        let start = end_of(&self.bytes);
        self.bytes.extend_from_slice(text.as_bytes())?;
        let end = end_of(&self.bytes);
        let at = Span { start, end };
        self.nodes.push(Node {
            kind,
            len,
            at,
            number: 0,
        })?;
        Ok(())
    }

    /// Returns the written nodes, from the first to the last. Does not allocate.
    pub(crate) fn finished(self) -> Written
        ensures { result ≡ self }
    {
        let Draft { bytes, mut nodes } = self;
        nodes.reverse();
        Written::new(bytes, nodes)
    }
}
