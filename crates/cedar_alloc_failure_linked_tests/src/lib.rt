//! Tests of the linked map and the linked set: removals, and the calls that allocate, with each allocation made to fail.
#![tactic(auto)]

#[cfg(test)]
mod tests;
