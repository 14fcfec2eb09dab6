//! The encoding of a body: a text with the spans of its parts, numbers, and lists.
use cedar_c_lists::Span;
use cedar_c_trees::Node;

/// The constraint of the principal, the action or the resource.
#[repr(C)]
#[derive(Clone, Copy, Debug)]
pub struct Scope {
    /// The kind of the constraint:
    ///
    /// - 0: anything
    /// - 1: equal to the uid
    /// - 2: equal to the uid bound to the slot
    /// - 3: in the uid
    /// - 4: in the uid bound to the slot
    /// - 5: of the type
    /// - 6: of the type and in the uid
    /// - 7: of the type and in the uid bound to the slot
    ///
    /// An action has no kind above 4, and 3 means that it is in one of the uids of the separate list.
    pub kind: u32,
    /// The span of the uid. Not read if the kind has no uid.
    pub uid: Span,
    /// The span of the name of the type. Not read if the kind has no type.
    pub ty: Span,
}

/// An annotation.
#[repr(C)]
#[derive(Clone, Copy, Debug)]
pub struct AnnotationAt {
    /// The span of its key.
    pub key: Span,
    /// The span of its value.
    pub value: Span,
}

/// A body, without its id, its annotations, the uids of its action and its clause.
#[repr(C)]
#[derive(Clone, Copy, Debug)]
pub struct Body {
    /// The effect: 0 is permit, 1 is forbid.
    pub effect: u32,
    /// The constraint of the principal.
    pub principal: Scope,
    /// The constraint of the action.
    pub action: Scope,
    /// The constraint of the resource.
    pub resource: Scope,
}

/// A body as a caller passes it, with its lists.
#[derive(Clone, Copy)]
pub struct BodyLists<'a> {
    /// The text that contains all spans.
    pub text: &'a [u8],
    /// The effect and the constraints.
    pub body: Body,
    /// The annotations. For a repeated key the last one is used.
    pub annotations: &'a [AnnotationAt],
    /// The uids of the action constraint of kind 3.
    pub uids: &'a [Span],
    /// The nodes of the clause, each after its operands. Empty if there is no clause.
    pub nodes: &'a [Node],
}
