//! The program that processes standard input line by line, with the output for each line at once. With `--strict` the
//! first line that is not a command ends the program, as it ends a run. With `--help` the program writes the help text.
#![tactic(auto)]

use cedar_keyed_hash::KeyedState;
use cedar_repl::{ErrorMode, help_texts, talk};
use std::env::{Env, FillError};
use std::io;
use std::process::ExitCode;

// The action that the arguments of the program ask for.
#[derive(Clone, Copy)]
enum Action {
    Talk(ErrorMode),
    Help,
    Unknown,
}

// Returns the action of an argument. Any argument other than `--strict` and `--help`, also one that is not UTF-8, is
// `Unknown`.
fn named(argument: &[u8]) -> Action {
    if argument == b"--strict".as_slice() {
        Action::Talk(ErrorMode::Strict)
    } else if argument == b"--help".as_slice() {
        Action::Help
    } else {
        Action::Unknown
    }
}

// Returns the action of the argument at a position, if there is one. An argument of more than 16 bytes is unknown.
fn argument(rt: &HostRuntime, place: usize) -> Option<Action> {
    let mut room = [0u8; 16];
    match rt.arg(place, &mut room) {
        Ok(length) => Some(named(&room[..length])),
        Err(FillError::TooLong) => Some(Action::Unknown),
        Err(FillError::NotPresent) => None,
    }
}

// Returns the action of the arguments. At most one argument is allowed after the name of the program. Does not
// allocate.
fn read_arguments(rt: &HostRuntime) -> Action {
    match (argument(rt, 1), argument(rt, 2)) {
        (None, _) => Action::Talk(ErrorMode::Lenient),
        (Some(asked), None) => asked,
        (Some(_), Some(_)) => Action::Unknown,
    }
}

// Reports that an error ended the program.
fn fault(rt: &HostRuntime, text: &str) -> ExitCode {
    let _ = eprintln!(rt; "{text}");
    ExitCode::FAILURE
}

// Holds a conversation over the standard streams.
fn held(rt: &HostRuntime, manner: ErrorMode) -> ExitCode {
    let hasher = match KeyedState::new(rt) {
        Ok(hasher) => hasher,
        Err(_) => return fault(rt, "no random key"),
    };
    match talk(
        rt.alloc(),
        hasher,
        manner,
        &mut rt.reader(),
        &mut io::writer(rt),
    ) {
        Ok(status) => ExitCode::from(status),
        Err(error) => {
            let _ = eprintln!(rt; "{error}");
            ExitCode::FAILURE
        }
    }
}

// Writes a text, and returns whether that succeeded.
fn is_written(rt: &HostRuntime, text: &str) -> bool {
    print!(rt; "{}", text).is_ok()
}

// Writes the help text.
fn helped(rt: &HostRuntime) -> ExitCode {
    let (store, policies, fields) = help_texts();
    if is_written(rt, store) && is_written(rt, policies) && is_written(rt, fields) {
        ExitCode::SUCCESS
    } else {
        fault(rt, "write fault")
    }
}

fn main(rt: HostRuntime) -> ExitCode {
    match read_arguments(&rt) {
        Action::Talk(manner) => held(&rt, manner),
        Action::Help => helped(&rt),
        Action::Unknown => {
            let _ = eprintln!(rt; "usage: repl [--strict | --help]");
            ExitCode::from(2)
        }
    }
}
