//! Tests of `cedar_terms` through its public names, for behavior that no contract states.
#![tactic(auto)]

#[cfg(test)]
mod tests;
