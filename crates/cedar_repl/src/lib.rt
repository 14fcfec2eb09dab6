//! A conversation over the program's input lines. The output for each line is written before more input is read.
//!
//! [`talk`] accepts the lines of [`run`](cedar_store::run), from any reader and to any writer.
//!
//! A read can fail. The contract of `talk` states the output in that case: the outputs for all completed lines. Any
//! read can fail, so these outputs were written before each read. The contract does not mention a flush. Internally,
//! the conversation calls its reader and writer through a trait that records the calls. Proved of the recorded calls:
//! before each read, the outputs for all completed lines are written and flushed (`specs/Order.antt`).
#![tactic(auto)]

mod conversation;
mod error_mode;
mod help;
mod streams;
mod talking;

pub use error_mode::ErrorMode;
pub use help::{FIELD_HELP, POLICY_HELP, STORE_HELP, help_texts};
pub use talking::{TalkError, talk};
