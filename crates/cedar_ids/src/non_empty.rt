//! Lists with at least one element.
/// A list with at least one element: the first element, and the other elements in order.
///
/// Both fields are public and serve as constructor and accessors.
#[derive(Debug, Drop)]
pub struct NonEmpty<T> {
    /// The first element.
    pub head: T,
    /// The other elements.
    pub tail: Vec<T>,
}
