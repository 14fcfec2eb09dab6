//! Values that a test creates and passes as `Result<_, Fail>`.

use std::alloc::Global;
use std::fmt::Display;
use std::test::Fail;

/// Returns a pair if the second value is `Ok`. Drops the first value otherwise.
///
/// # Errors
///
/// Fails with the error of the second value.
pub fn beside<A: Drop, B>(one: A, other: Result<B, Fail>) -> Result<(A, B), Fail> {
    match other {
        Ok(other) => Ok((one, other)),
        Err(fail) => {
            drop(one);
            Err(fail)
        }
    }
}

/// Returns a value if another result is `Ok`. Drops the value otherwise.
///
/// # Errors
///
/// Fails with the error of the other result.
pub fn kept<A: Drop, B: Drop>(one: A, done: Result<B, Fail>) -> Result<A, Fail> {
    match done {
        Ok(_) => Ok(one),
        Err(fail) => {
            drop(one);
            Err(fail)
        }
    }
}

/// Appends an item to a list.
///
/// # Errors
///
/// Fails if the item is an error or an allocation fails. The list is then dropped.
pub fn pushed<T: Drop>(list: Vec<T>, item: Result<T, Fail>) -> Result<Vec<T>, Fail> {
    let mut list = list;
    list.push(item?)?;
    Ok(list)
}

/// Returns an owned copy of a text.
///
/// # Errors
///
/// Fails if an allocation fails.
pub fn owned(alloc: Global, text: &str) -> Result<String, Fail> {
    Ok(String::from_str(alloc, text)?)
}

/// Returns the printed text of a value, and drops the value.
///
/// # Errors
///
/// Fails if an allocation fails.
pub fn written<D: Display + Drop>(alloc: Global, thing: D) -> Result<String, Fail> {
    Ok(thing.to_string(alloc)?)
}

/// Appends a word to a text.
///
/// # Errors
///
/// Fails if an allocation fails.
pub fn push_text_word(text: &mut String, word: &str) -> Result<(), Fail> {
    text.push_str(word)?;
    Ok(())
}
