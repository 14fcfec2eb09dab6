//! Tests of the program's functions and of lists of calls on stores: worked examples of the lists, and injected
//! allocation failures.
#![tactic(auto)]

#[cfg(test)]
mod tests;
