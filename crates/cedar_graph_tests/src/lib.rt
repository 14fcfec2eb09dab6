//! The tests of `cedar_graph`: the work of its counted functions.
#![tactic(auto)]

#[cfg(test)]
mod tests;
