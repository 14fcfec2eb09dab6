//! Values that may or may not have been created. A test passes them on, and the tested call drops them.
use std::alloc::{AllocError, Global};
use std::collections::HashSet;
use std::hash::Hash;
use std::rc::Rc;

/// Returns a pair if both values exist.
pub fn both<A: Drop, B: Drop>(first: Option<A>, second: Option<B>) -> Option<(A, B)> {
    match first {
        Some(a) => match second {
            Some(b) => Some((a, b)),
            None => {
                drop(a);
                None
            }
        },
        None => {
            drop(second);
            None
        }
    }
}

/// Appends a value to a list.
pub fn with_last<T: Drop>(all: Option<Vec<T>>, x: Option<T>) -> Option<Vec<T>> {
    match both(all, x) {
        Some((mut all, x)) => match all.push(x) {
            Ok(()) => Some(all),
            Err(error) => {
                drop(error);
                drop(all);
                None
            }
        },
        None => None,
    }
}

/// Inserts a value into a set.
pub fn joined<T: Eq + Hash + Drop>(all: Option<HashSet<T>>, x: Option<T>) -> Option<HashSet<T>> {
    match both(all, x) {
        Some((mut all, x)) => match all.insert(x) {
            Ok(_) => Some(all),
            Err(error) => {
                drop(error);
                drop(all);
                None
            }
        },
        None => None,
    }
}

/// Moves a value into an `Rc`.
pub fn counted<T: Drop>(alloc: Global, made: Option<T>) -> Option<Rc<T>> {
    match made {
        Some(x) => Rc::new(alloc, x).ok(),
        None => None,
    }
}

// Appends a word and a space to a text.
fn push_text_word(text: &mut String, word: &str) -> Result<(), AllocError> {
    text.push_str(word)?;
    text.push(' ')
}

/// Appends a word and a space to a text.
pub fn with_word(text: Option<String>, word: &str) -> Option<String> {
    match text {
        Some(mut text) => match push_text_word(&mut text, word) {
            Ok(()) => Some(text),
            Err(_) => {
                drop(text);
                None
            }
        },
        None => None,
    }
}

/// Returns an owned copy of a text.
pub fn owned(alloc: Global, text: &str) -> Option<String> {
    String::from_str(alloc, text).ok()
}
