// The tests of a conversation, and the notation of their test cases.
mod cut;
mod told;
mod turns;

use cedar_keyed_hash::KeyedState;
use cedar_repl::help_texts;
use std::alloc::{AllocError, Global};
use std::hash::{BuildHasherDefault, FoldHasher};

// Returns the default hasher builder of a run.
fn fixed() -> BuildHasherDefault<FoldHasher> {
    BuildHasherDefault::new()
}

// Returns two hasher builders with keys.
fn keys() -> (KeyedState, KeyedState) {
    (
        KeyedState::with_keys(1, 2),
        KeyedState::with_keys(u64::MAX, 3),
    )
}

// A test case has a line and, after an arrow, the expected output. `;` stands for the end of a line, `>` for a tab, and
// `~` for a carriage return. `HELP` is the whole help text, and `STORE`, `POLICIES` and `FIELDS` are its three parts.

// Returns the byte for a byte of a test case.
fn byte_of(byte: u8) -> u8 {
    match byte {
        b';' => b'\n',
        b'>' => b'\t',
        b'~' => b'\r',
        _ => byte,
    }
}

// Appends the bytes for a text of a test case.
fn push_bytes(bytes: &mut Vec<u8>, text: &str) -> Result<(), AllocError> {
    for byte in text.as_bytes() {
        bytes.push(byte_of(*byte))?;
    }
    Ok(())
}

// Appends the expected output for a line.
fn push_due(bytes: &mut Vec<u8>, due: &str) -> Result<(), AllocError> {
    let (store, policies, fields) = help_texts();
    match due {
        "HELP" => {
            bytes.extend_from_slice(store.as_bytes())?;
            bytes.extend_from_slice(policies.as_bytes())?;
            bytes.extend_from_slice(fields.as_bytes())
        }
        "STORE" => bytes.extend_from_slice(store.as_bytes()),
        "POLICIES" => bytes.extend_from_slice(policies.as_bytes()),
        "FIELDS" => bytes.extend_from_slice(fields.as_bytes()),
        _ => push_bytes(bytes, due),
    }
}

// Returns the line of a test case, and its expected output.
fn parts_of(row: &str) -> (&str, &str) {
    let (line, due) = row.split_once("=>").unwrap_or((row, ""));
    (line.trim(), due.trim())
}

// Appends the lines of all test cases, each with its line feed.
fn push_lines(bytes: &mut Vec<u8>, rows: &str) -> Result<(), AllocError> {
    for row in rows.lines() {
        push_bytes(bytes, parts_of(row).0)?;
        bytes.push(b'\n')?;
    }
    Ok(())
}

// Appends the expected outputs for all lines that are completed in the first `count` bytes. Returns the number of bytes
// of these lines.
fn push_all_due(bytes: &mut Vec<u8>, rows: &str, count: usize) -> Result<usize, AllocError> {
    let mut at = 0usize;
    for row in rows.lines() {
        let (line, due) = parts_of(row);
        let end = at.saturating_add(line.len()).saturating_add(1);
        if end > count {
            return Ok(at);
        }
        push_due(bytes, due)?;
        at = end;
    }
    Ok(at)
}

// Returns the lines of all test cases, or nothing if an allocation fails.
fn lines_of(alloc: Global, rows: &str) -> Vec<u8> {
    let mut bytes = Vec::new(alloc);
    if push_lines(&mut bytes, rows).is_err() {
        bytes.clear();
    }
    bytes
}

// Returns the expected outputs for all lines that are completed in the first `count` bytes, or nothing if an allocation
// fails.
fn due_of(alloc: Global, rows: &str, count: usize) -> Vec<u8> {
    let mut bytes = Vec::new(alloc);
    if push_all_due(&mut bytes, rows, count).is_err() {
        bytes.clear();
    }
    bytes
}
