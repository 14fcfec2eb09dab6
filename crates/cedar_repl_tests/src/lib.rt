//! The tests of `cedar_repl`: conversations over readers and writers that fail at each of their calls.
#![tactic(auto)]

#[cfg(test)]
mod tests;
