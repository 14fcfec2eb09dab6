//! The encoding of lists: one text, the spans of the items in it, and pairs of positions.

/// A part of a text: the bytes from `start` up to `end`.
#[repr(C)]
#[derive(Clone, Copy, Debug)]
pub struct Span {
    /// The position of its first byte.
    pub start: usize,
    /// The position after its last byte.
    pub end: usize,
}

/// An edge: the item at `from` has the item at `to` as a parent.
#[repr(C)]
#[derive(Clone, Copy, Debug)]
pub struct Edge {
    /// The position of the child in the list.
    pub from: usize,
    /// The position of the parent in the list.
    pub to: usize,
}
