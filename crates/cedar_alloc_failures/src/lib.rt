//! Tests with injected allocation failures, one failure after another.
//!
//! A test controls a failure injector in front of the C library's heap, if there is one: `tools/fail_alloc.c`, which
//! `tools/alloc-failures` loads. A request for a block of an impossible size is a command to the injector. Without an
//! injector such requests just fail, so each call runs once, with enough memory. The injector counts the allocated
//! blocks. After each run of a call the count must be the same as before.
//!
//! Test cases are lines with three parts, separated by ` | `: the call, its arguments, and its result with enough
//! memory.
//!
//! - An expected error follows `! `.
//! - A case that begins with `- ` is a call that does not allocate.
//! - A case that begins with `~ ` is a call that keeps some of its allocations.
//!
//! Worked examples are cases that run once, with enough memory. They document the result of a call.
#![tactic(auto)]

mod answers;
mod injector;
mod rows;
mod values;

pub use answers::{
    Answer, CallOutcome, ample_if, are_worded, changed, copied, copied_with_text, has_words,
    is_worded, judged, made, memory_if, on, same_copied, unmade, with,
};
pub use injector::{count, has_injector, is_as_counted, refuse, stop_failing};
pub use rows::{Calls, InTurn, Row, check_failures, in_turn, row_of, worked_rows};
pub use values::{both, counted, joined, owned, with_last, with_word};
