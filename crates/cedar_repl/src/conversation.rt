//! A conversation: it receives the bytes of an input and returns the outputs for the lines that they complete.
ghost use Rattle.std.specs.Prelude.{◌≡◌, ◌++◌, ◌+◌, ◌^◌, ◌<◌, ◌≤◌, ◌∷◌, [], List, ℕ, IfOk, OnOk, length};
ghost use Rattle.cedar_store.specs.Output.{State};
ghost use Rattle.cedar_store.specs.Sessions.{IsInState};
ghost use Rattle.cedar_repl.specs.Conversation.{Responds};
ghost use Rattle.cedar_repl.specs.Help.{full_help};
ghost use Rattle.cedar_repl.specs.laws.Hearing.{IsRefused, IsAnswered, Has, Hears, Closes};

use crate::error_mode::ErrorMode;
use crate::help::{help_on, help_texts};
use cedar_store::{Session, push_not_command};
use std::alloc::{AllocError, Global};
use std::hash::BuildHasher;

// The state of a conversation: the session that ran the completed lines, their number, and the bytes of the incomplete
// line.
#[derive(Drop)]
pub(crate) struct Conversation<S: BuildHasher> {
    session: Session<S>,
    manner: ErrorMode,
    part: Vec<u8>,
    ended: usize,
}

// Appends the whole help text.
fn push_help(out: &mut Vec<u8>) -> Result<(), AllocError>
    ensures { OnOk result (out.new.items ≡ out.old.items ++ full_help) }
{
    let (store, policies, fields) = help_texts();
    out.extend_from_slice(store.as_bytes())?;
    out.extend_from_slice(policies.as_bytes())?;
    out.extend_from_slice(fields.as_bytes())?;
    Ok(())
}

// Appends the output for a line that is not a command, if the conversation continues.
fn write_response(
    alloc: Global,
    number: usize,
    line: &[u8],
    out: &mut Vec<u8>,
) -> Result<(), AllocError>
    ensures { OnOk result ((said : List ℕ) × Responds number line.now said × (out.new.items ≡ out.old.items ++ said)) }
{
    if line == b"help".as_slice() {
        return push_help(out);
    }
    match help_on(line) {
        Some(text) => out.extend_from_slice(text.as_bytes()),
        None => push_not_command(alloc, out, number),
    }
}

// Appends the output for a line that is not a command. Returns whether the conversation continues.
fn refuse(
    alloc: Global,
    manner: ErrorMode,
    number: usize,
    line: &[u8],
    out: &mut Vec<u8>,
) -> Result<bool, AllocError>
    ensures { IfOk result (λ on. IsRefused on manner number line.now out.old.items out.new.items) }
{
    match manner {
        ErrorMode::Lenient => {
            write_response(alloc, number, line, out)?;
            Ok(true)
        }
        ErrorMode::Strict => {
            push_not_command(alloc, out, number)?;
            Ok(false)
        }
    }
}

// Appends the output for a line. Returns whether the conversation continues.
fn answer<S: BuildHasher + Copy>(
    alloc: Global,
    session: &mut Session<S>,
    manner: ErrorMode,
    number: usize,
    line: &[u8],
    out: &mut Vec<u8>,
) -> Result<bool, AllocError>
    ensures { IfOk result (λ on. (s : State) → IsInState session.old s →
        IsAnswered on manner number s line.now session.new out.old.items out.new.items) }
{
    if session.apply_line(alloc, line, out)? {
        return Ok(true);
    }
    refuse(alloc, manner, number, line, out)
}

impl<S: BuildHasher + Copy> Conversation<S> {
    // Creates a conversation that has not received anything.
    pub(crate) fn new(alloc: Global, hasher: S, manner: ErrorMode) -> Conversation<S>
        ensures manner { result.manner ≡ manner }
        ensures count { result.ended ≡ 0 }
        ensures has { Has result [] [] }
    {
        Conversation {
            session: Session::with_hasher(alloc, hasher),
            manner,
            part: Vec::new(alloc),
            ended: 0,
        }
    }

    // Receives a byte. If it completes a line, appends the output for the line. Returns whether the conversation
    // continues.
    fn hear(&mut self, alloc: Global, byte: u8, out: &mut Vec<u8>) -> Result<bool, AllocError>
        requires { self.old.ended + 1 < 2 ^ 64 }
        ensures count { OnOk result (self.new.ended ≤ self.old.ended + 1) }
        ensures hears { IfOk result (λ on. Hears on self.old (byte ∷ []) self.new out.old.items out.new.items) }
    {
        if byte != b'\n' {
            self.part.push(byte)?;
            return Ok(true);
        }
        self.ended += 1;
        let on = answer(
            alloc,
            &mut self.session,
            self.manner,
            self.ended,
            &self.part,
            out,
        )?;
        self.part.clear();
        Ok(on)
    }

    // Receives bytes. Returns the outputs for the lines that they complete, and whether the conversation continues.
    pub(crate) fn hear_all(
        &mut self,
        alloc: Global,
        bytes: &[u8],
    ) -> Result<(Vec<u8>, bool), AllocError>
        requires { self.old.ended + length bytes.now < 2 ^ 64 }
        ensures count { OnOk result (self.new.ended ≤ self.old.ended + length bytes.now) }
        ensures hears { IfOk result (λ r. Hears r.1 self.old bytes.now self.new [] r.0.items) }
    {
        let mut out = Vec::new(alloc);
        for byte in bytes {
            if !self.hear(alloc, *byte, &mut out)? {
                return Ok((out, false));
            }
        }
        Ok((out, true))
    }

    // Receives the end of the input. Returns the output for an incomplete last line that is not empty, and whether it
    // is a command.
    pub(crate) fn close(&mut self, alloc: Global) -> Result<(Vec<u8>, bool), AllocError>
        requires { self.old.ended + 1 < 2 ^ 64 }
        ensures { IfOk result (λ r. Closes r.1 self.old r.0.items) }
    {
        let mut out = Vec::new(alloc);
        if self.part.is_empty() {
            return Ok((out, true));
        }
        let number = self.ended + 1;
        let on = answer(
            alloc,
            &mut self.session,
            self.manner,
            number,
            &self.part,
            &mut out,
        )?;
        Ok((out, on))
    }
}
