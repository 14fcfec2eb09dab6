//! The content of entities as a caller passes it: indirect ancestors, attributes and tags.
use cedar_c_lists::{Edge, Span};
use cedar_c_trees::Node;

/// An attribute or tag of an entity. The nodes from `from` up to `to` encode its value.
#[repr(C)]
#[derive(Clone, Copy, Debug)]
pub struct Term {
    /// The position of the entity in the list.
    pub of: usize,
    /// Whether it is an attribute (0) or a tag (1).
    pub part: u32,
    /// The part of the text that is the key.
    pub key: Span,
    /// The position of the first node.
    pub from: usize,
    /// The position after the last node.
    pub to: usize,
}

/// The content of the entities of some `EntityLists`. Keys and nodes refer to the text of the lists.
#[derive(Clone, Copy)]
pub struct Content<'a> {
    /// The edges from entities to indirect ancestors, by the positions of both among the uids. An edge to a parent of
    /// the entity is ignored.
    pub above: &'a [Edge],
    /// The attributes and tags. If several terms have the same entity, kind and key, the last one counts.
    pub terms: &'a [Term],
    /// The nodes of the values, in postorder.
    pub nodes: &'a [Node],
}
