//! The tests of `cedar_examples`: the result of each of the five uses, in test cases written as text.
#![tactic(auto, using(cedar_ids::specs::laws::UidOfLaws::same_uid_decides))]

#[cfg(test)]
mod tests;
