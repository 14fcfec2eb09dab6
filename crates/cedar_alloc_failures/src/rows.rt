//! Test cases whose calls run repeatedly, while a different allocation is forced to fail each time.
use crate::answers::{Answer, CallOutcome};
use crate::injector::{count, has_injector, is_as_counted};
use std::alloc::Global;

/// A test case: the call, its arguments, its result with enough memory, whether it allocates, and whether it keeps some
/// of its allocations.
#[derive(Clone, Copy)]
pub struct Row<'a> {
    pub call: &'a str,
    pub given: &'a str,
    pub want: &'a str,
    pub allocates: bool,
    pub leaves: bool,
}

/// Parses a test case from a line. Returns `None` for an empty line.
pub fn row_of(line: &str) -> Option<Row<'_>> {
    let line = line.trim();
    if line.is_empty() {
        return None;
    }
    let (allocates, line) = match line.strip_prefix("- ") {
        Some(rest) => (false, rest),
        None => (true, line),
    };
    let (leaves, line) = match line.strip_prefix("~ ") {
        Some(rest) => (true, rest),
        None => (false, line),
    };
    let (call, rest) = line.split_once(" | ").unwrap_or((line, ""));
    let (given, want) = rest.split_once(" | ").unwrap_or((rest, ""));
    Some(Row {
        call: call.trim(),
        given: given.trim(),
        want: want.trim(),
        allocates,
        leaves,
    })
}

/// The calls by their names in test cases.
pub trait Calls {
    /// Runs the call of a case, while the allocation with this number is forced to fail.
    fn tried(&self, alloc: Global, number: usize, row: Row<'_>) -> CallOutcome;
}

/// The outcome of a call after each of its allocations was forced to fail.
#[derive(Clone, Copy, Debug, Drop, PartialEq, Eq)]
pub enum InTurn {
    /// The call made this many allocations, and each result was right.
    Well(usize),
    /// The result was wrong when the allocation with this number was forced to fail, or 0 if none was.
    Wrong(usize),
    /// The call leaked an allocation in the run with this number.
    Kept(usize),
}

// Returns whether an outcome is right. An allocation error is right only if an allocation was forced to fail.
fn is_right(tried: CallOutcome) -> bool {
    match tried.answer {
        Answer::Ample => true,
        Answer::Memory => tried.refused,
        Answer::Wrong => false,
    }
}

// Returns whether a call must free all its allocations: it keeps none, or it failed.
fn must_free(row: Row<'_>, tried: CallOutcome) -> bool {
    !row.leaves || tried.answer != Answer::Ample
}

/// Runs the call of a case repeatedly. The first allocation is forced to fail, then the second, and so on, until none
/// is reached. After each run the call must have freed its allocations, except those that a successful call keeps.
pub fn in_turn<C: Calls>(alloc: Global, calls: &C, row: Row<'_>) -> InTurn {
    let there = has_injector(alloc);
    for number in 1..100_000 {
        count(alloc);
        let tried = calls.tried(alloc, number, row);
        if there && must_free(row, tried) && !is_as_counted(alloc) {
            return InTurn::Kept(number);
        }
        if !is_right(tried) {
            return InTurn::Wrong(if tried.refused { number } else { 0 });
        }
        if !tried.refused {
            return InTurn::Well(number - 1);
        }
    }
    InTurn::Wrong(100_000)
}

// The number of an allocation that no call reaches.
const NEVER: usize = 1 << 32;

/// Runs the calls of all cases of a text once, with enough memory, and returns whether all results are right. A line
/// that begins with `#` is a heading. Wrong cases are printed.
pub fn worked_rows<C: Calls>(rt: HostRuntime, calls: &C, rows: &str) -> bool {
    let alloc = rt.alloc();
    let mut well = true;
    for line in rows.lines() {
        if let Some(row) = row_of(line)
            && !line.starts_with('#')
            && calls.tried(alloc, NEVER, row).answer != Answer::Ample
        {
            let call = row.call;
            let given = row.given;
            let _ = println!(rt; "wrong: {call} | {given}");
            well = false;
        }
    }
    well
}

/// Runs the calls of all cases of a text with injected failures, and returns whether all results are right. With an
/// injector each case is printed with its outcome, and must allocate as it states. Without an injector only wrong cases
/// are printed.
pub fn check_failures<C: Calls>(rt: HostRuntime, calls: &C, rows: &str) -> bool {
    let alloc = rt.alloc();
    let there = has_injector(alloc);
    let mut well = true;
    for line in rows.lines() {
        if let Some(row) = row_of(line) {
            let told = in_turn(alloc, calls, row);
            let right = match told {
                InTurn::Well(n) => !there || (n > 0) == row.allocates,
                InTurn::Wrong(_) | InTurn::Kept(_) => false,
            };
            let call = row.call;
            let given = row.given;
            if there || !right {
                let _ = println!(rt; "refused in turn: {call} | {given}: {told:?}");
            }
            well = well && right;
        }
    }
    well
}
