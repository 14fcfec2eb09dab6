//! Tests of the layers from ids to the entity store, with its slices and dry runs: worked examples of results, and
//! injected allocation failures.
#![tactic(auto)]

#[cfg(test)]
mod tests;
