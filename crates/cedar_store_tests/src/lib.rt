//! The tests of `cedar_store`: the program on worked inputs, and on readers and writers that fail.
#![tactic(auto, using(cedar_ids::specs::laws::UidOfLaws::same_uid_decides))]

#[cfg(test)]
mod tests;
