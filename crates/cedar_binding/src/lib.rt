//! Bindings of a template's slots, and the check that they fit the slots.
//!
//! The order in which a map iterates has no effect, and locations are ignored. Contracts see bindings as an optional
//! uid for each of the three slots: principal, action and resource.
//!
//! - `specs/Bindings.antt` specifies bindings, when they fit some slots, and which slots and ids do not fit.
//! - `specs/Checks.antt` specifies the results of the check.
//! - `specs/BindingTexts.antt` specifies how bindings and errors are printed.
#![tactic(auto)]

pub mod check;
pub mod err;
pub mod slot_env;

pub use check::check_bindings;
pub use err::LinkingError;
pub use slot_env::{
    BindingPairs, SlotEnv, bound_to, copy_of_bindings, fitted_bindings, no_bindings, same_bindings,
};
