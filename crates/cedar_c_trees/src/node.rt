//! A node of a value or of an expression.
use cedar_c_lists::Span;

/// A node of a value or of an expression. Its operands come before it.
#[repr(C)]
#[derive(Clone, Copy, Debug)]
pub struct Node {
    /// The kind of the node:
    ///
    /// - 0: a Boolean
    /// - 1: a number
    /// - 2: a text
    /// - 3: a uid
    /// - 4: a set
    /// - 5: a record
    /// - 6: a call of a function
    /// - 7: a variable
    /// - 8: a slot
    /// - 9: an unknown
    /// - 10: a negation
    /// - 11 to 13: a binary expression with `&&`, `==` or `in`
    /// - 14: a test of an entity type
    /// - 15: after all other nodes, the mark of a residual: the nodes before it are an expression
    pub kind: u32,
    /// The length:
    ///
    /// - set: the number of elements
    /// - call: the number of arguments
    /// - record: the number of pairs of a key, which is a text, and its value
    /// - unknown: 1 if its operand is the name of its type as a text, and otherwise 0
    /// - mark of a residual: 1
    pub len: usize,
    /// The span of the text, the uid, or the name of the function, of the unknown or of the type.
    pub at: Span,
    /// The number. For a Boolean it is 0 or 1, and for a variable or a slot its index.
    pub number: i64,
}
