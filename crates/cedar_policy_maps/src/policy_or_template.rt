//! The result of looking up an id.

use cedar_policy::{Policy, Template};
use std::rc::Rc;

/// The policy or template with an id, as a borrow. Nothing is copied.
#[derive(Debug, Drop)]
pub enum PolicyOrTemplate<'a> {
    /// A static policy or a link.
    Policy(&'a Policy),
    /// A template.
    Template(&'a Rc<Template>),
}
