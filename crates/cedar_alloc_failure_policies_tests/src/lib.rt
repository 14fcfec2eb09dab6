//! Tests of the layers from annotations to policy sets: worked examples of results, and injected allocation failures.
#![tactic(auto)]

#[cfg(test)]
mod tests;
