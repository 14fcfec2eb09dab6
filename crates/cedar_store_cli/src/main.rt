//! The program: it reads lines from standard input and writes the outputs for them to standard output.
#![tactic(auto)]

use cedar_keyed_hash::KeyedState;
use cedar_store::run_and_leave_with;
use std::io;
use std::process::ExitCode;

fn main(rt: HostRuntime) -> ExitCode {
    let hasher = match KeyedState::new(&rt) {
        Ok(hasher) => hasher,
        Err(_) => {
            let _ = eprintln!(rt; "no random key");
            return ExitCode::FAILURE;
        }
    };
    match run_and_leave_with(rt.alloc(), hasher, &mut rt.reader(), &mut io::writer(&rt)) {
        Ok(status) => ExitCode::from(status),
        Err(error) => {
            let _ = eprintln!(rt; "{error}");
            ExitCode::FAILURE
        }
    }
}
