//! The outcome of a call while one allocation is forced to fail.
use crate::injector::{refuse, stop_failing};
use crate::values::with_word;
use std::alloc::{AllocError, Global};
use std::fmt::Display;

/// The outcome of a call.
#[derive(Clone, Copy, Drop, PartialEq, Eq)]
pub enum Answer {
    /// The call returned the result that it returns with enough memory, and left the expected state.
    Ample,
    /// The call returned an allocation error, and left the expected state.
    Memory,
    /// The call returned another result, or left another state.
    Wrong,
}

/// The outcome of a call, and whether an allocation was forced to fail.
#[derive(Clone, Copy, Drop, PartialEq, Eq)]
pub struct CallOutcome {
    pub answer: Answer,
    pub refused: bool,
}

/// Returns the outcome if an argument of the call could not be created. This is impossible with enough memory.
pub fn unmade() -> CallOutcome {
    CallOutcome {
        answer: Answer::Wrong,
        refused: false,
    }
}

/// Returns `Ample` if the condition is true, else `Wrong`.
pub fn ample_if(is_wanted: bool) -> Answer {
    if is_wanted {
        Answer::Ample
    } else {
        Answer::Wrong
    }
}

/// Returns `Memory` if the condition is true, else `Wrong`.
pub fn memory_if(stands: bool) -> Answer {
    if stands {
        Answer::Memory
    } else {
        Answer::Wrong
    }
}

/// Returns whether a text has the expected words. `_` stands for any word.
pub fn has_words(text: &str, want: &str) -> bool {
    let mut due = want.split_whitespace();
    for word in text.split_whitespace() {
        match due.next() {
            Some(want) if want == word || want == "_" => {}
            _ => return false,
        }
    }
    due.next().is_none()
}

/// Returns whether a value is printed as this text. All white space counts as equal.
pub fn is_worded<T: Display>(alloc: Global, thing: &T, want: &str) -> bool {
    match thing.to_string(alloc) {
        Ok(text) => {
            let told = has_words(text.as_str(), want);
            drop(text);
            told
        }
        Err(_) => false,
    }
}

// Returns the printed texts of values, with a semicolon after each.
fn written<T: Display>(alloc: Global, things: &[T]) -> Option<String> {
    let mut all = Some(String::new(alloc));
    for thing in things {
        match thing.to_string(alloc) {
            Ok(text) => {
                all = with_word(with_word(all, text.as_str()), ";");
                drop(text);
            }
            Err(_) => {
                drop(all);
                return None;
            }
        }
    }
    all
}

/// Returns whether values are printed as this text, with ` ;` after each. All white space counts as equal.
pub fn are_worded<T: Display>(alloc: Global, things: &[T], want: &str) -> bool {
    match written(alloc, things) {
        Some(text) => {
            let told = has_words(text.as_str(), want);
            drop(text);
            told
        }
        None => false,
    }
}

// Returns the outcome for an error: an allocation error, or the expected error, which follows `! `.
fn refusal<E: Display + Drop>(alloc: Global, error: E, want: &str) -> Answer {
    let is_memory = is_worded(alloc, &error, "out of memory")
        || is_worded(alloc, &error, "memory allocation failed");
    let is_wanted = match want.strip_prefix("! ") {
        Some(text) => is_worded(alloc, &error, text),
        None => false,
    };
    drop(error);
    if is_memory {
        Answer::Memory
    } else {
        ample_if(is_wanted)
    }
}

/// Returns the outcome of a call that returns a value or an error. `is_right` checks the value.
pub fn judged<T: Drop, E: Display + Drop, F: FnOnce(&T) -> bool>(
    alloc: Global,
    answer: Result<T, E>,
    want: &str,
    is_right: F,
) -> CallOutcome
    requires { F.IsAlwaysCallable is_right }
{
    let refused = stop_failing(alloc);
    let answer = match answer {
        Ok(thing) => {
            let told = is_right(&thing);
            drop(thing);
            ample_if(told)
        }
        Err(error) => refusal(alloc, error, want),
    };
    CallOutcome { answer, refused }
}

/// Returns the outcome of a call that returns a value or an error, where `want` is the expected text of either.
pub fn made<T: Display + Drop, E: Display + Drop>(
    alloc: Global,
    answer: Result<T, E>,
    want: &str,
) -> CallOutcome {
    let refused = stop_failing(alloc);
    let answer = match answer {
        Ok(thing) => {
            let told = is_worded(alloc, &thing, want);
            drop(thing);
            ample_if(told)
        }
        Err(error) => refusal(alloc, error, want),
    };
    CallOutcome { answer, refused }
}

/// Runs a call that consumes a value, while the allocation with this number is forced to fail.
pub fn with<A: Drop, F: FnOnce(A) -> CallOutcome>(
    alloc: Global,
    number: usize,
    thing: Option<A>,
    call: F,
) -> CallOutcome
    requires { F.IsAlwaysCallable call }
{
    match thing {
        Some(thing) => {
            refuse(alloc, number);
            call(thing)
        }
        None => unmade(),
    }
}

/// Runs a call that borrows a value, while the allocation with this number is forced to fail.
pub fn on<A: Drop, F: FnOnce(&A) -> CallOutcome>(
    alloc: Global,
    number: usize,
    thing: Option<A>,
    call: F,
) -> CallOutcome
    requires { F.IsAlwaysCallable call }
{
    match thing {
        Some(thing) => {
            refuse(alloc, number);
            let tried = call(&thing);
            drop(thing);
            tried
        }
        None => unmade(),
    }
}

/// Runs `clone` on a value. The copy must be printed as this text.
pub fn copied<T: Clone + Display + Drop>(
    alloc: Global,
    number: usize,
    thing: Option<T>,
    want: &str,
) -> CallOutcome {
    match thing {
        Some(thing) => {
            refuse(alloc, number);
            let copy: Result<T, AllocError> = thing.clone();
            let tried = made(alloc, copy, want);
            drop(thing);
            tried
        }
        None => unmade(),
    }
}

/// Runs `clone` on a value. The copy must equal the value.
pub fn same_copied<T: Clone + PartialEq + Drop>(
    alloc: Global,
    number: usize,
    thing: Option<T>,
) -> CallOutcome {
    match thing {
        Some(thing) => {
            refuse(alloc, number);
            let copy: Result<T, AllocError> = thing.clone();
            let refused = stop_failing(alloc);
            let answer = match copy {
                Ok(copy) => {
                    let same = copy == thing;
                    drop(copy);
                    ample_if(same)
                }
                Err(_) => Answer::Memory,
            };
            drop(thing);
            CallOutcome { answer, refused }
        }
        None => unmade(),
    }
}

// Returns whether `show` returns this text for a value.
fn has_text<T, S: Fn(Global, &T) -> Option<String>>(
    alloc: Global,
    thing: &T,
    want: &str,
    show: S,
) -> bool
    requires { S.IsAlwaysCallable show }
{
    match show(alloc, thing) {
        Some(text) => {
            let told = has_words(text.as_str(), want);
            drop(text);
            told
        }
        None => false,
    }
}

/// Runs `clone` on a value. `show` must return this text for the copy.
pub fn copied_with_text<T: Clone + Drop, S: Fn(Global, &T) -> Option<String>>(
    alloc: Global,
    number: usize,
    thing: Option<T>,
    want: &str,
    show: S,
) -> CallOutcome
    requires { S.IsAlwaysCallable show }
{
    match thing {
        Some(thing) => {
            refuse(alloc, number);
            let copy: Result<T, AllocError> = thing.clone();
            let refused = stop_failing(alloc);
            let answer = match copy {
                Ok(copy) => {
                    let told = has_text(alloc, &copy, want, show);
                    drop(copy);
                    ample_if(told)
                }
                Err(_) => Answer::Memory,
            };
            drop(thing);
            CallOutcome { answer, refused }
        }
        None => unmade(),
    }
}

// Runs a call that changes a value, and compares the texts that `show` returns before and after.
fn change<
    T: Drop,
    E: Display + Drop,
    S: Fn(Global, &T) -> Option<String>,
    F: FnOnce(&mut T) -> Result<(), E>,
>(alloc: Global, number: usize, mut thing: T, want: &str, show: S, call: F) -> CallOutcome
    requires show { S.IsAlwaysCallable show }
    requires call { F.IsAlwaysCallable call }
{
    let before = show(alloc, &thing).unwrap_or(String::new(alloc));
    refuse(alloc, number);
    let answer = call(&mut thing);
    let refused = stop_failing(alloc);
    let after = show(alloc, &thing).unwrap_or(String::new(alloc));
    drop(thing);
    let answer = match answer {
        Ok(()) => ample_if(has_words(after.as_str(), want)),
        Err(error) => {
            let told = refusal(alloc, error, want);
            if after.as_str() == before.as_str() {
                told
            } else {
                Answer::Wrong
            }
        }
    };
    drop(before);
    drop(after);
    CallOutcome { answer, refused }
}

/// Runs a call that changes a value. `show` returns a text of all that calls may change. After an error the text must
/// be the same as before.
pub fn changed<
    T: Drop,
    E: Display + Drop,
    S: Fn(Global, &T) -> Option<String>,
    F: FnOnce(&mut T) -> Result<(), E>,
>(alloc: Global, number: usize, thing: Option<T>, want: &str, show: S, call: F) -> CallOutcome
    requires show { S.IsAlwaysCallable show }
    requires call { F.IsAlwaysCallable call }
{
    match thing {
        Some(thing) => change(alloc, number, thing, want, show, call),
        None => unmade(),
    }
}
