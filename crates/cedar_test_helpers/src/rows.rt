//! Test cases in one text, one on each line: the input, an arrow ` => `, and the expected output. A line that begins
//! with `#` is a heading. `¶` stands for the end of a line.

use std::alloc::Global;
use std::test::Fail;

/// Returns whether a text is the expected one, in which `¶` stands for the end of a line.
pub fn is_spelled(told: &str, want: &str) -> bool {
    told.split('\n').eq(want.split('¶'))
}

/// Returns a text with each `¶` replaced by the end of a line.
///
/// # Errors
///
/// Fails if an allocation fails.
pub fn meant(alloc: Global, text: &str) -> Result<String, Fail> {
    let mut all = String::new(alloc);
    for sign in text.chars() {
        all.push(if sign == '¶' { '\n' } else { sign })?;
    }
    Ok(all)
}

/// Checks the output of a case. Drops the output.
///
/// # Errors
///
/// Fails with the case and its output if the output is not the expected one.
pub fn holds(row: &str, told: Result<String, Fail>, want: &str) -> Result<(), Fail> {
    let told = told?;
    if is_spelled(told.as_str(), want) {
        return Ok(());
    }
    Err(Fail::new(format_args!("{row}: {told}")))
}

/// Runs all cases of a text. `tell` returns the output for an input.
///
/// # Errors
///
/// Fails with the first case whose output is not the expected one, or with the first line that is neither a case nor a
/// heading.
pub fn all_hold<F: FnMut(Global, &str) -> Result<String, Fail>>(
    alloc: Global,
    rows: &str,
    mut tell: F,
) -> Result<(), Fail>
    requires { F.IsAlwaysCallable tell }
{
    for row in rows.lines() {
        match row.split_once(" => ") {
            Some((what, want)) => holds(row, tell(alloc, what), want)?,
            None if row.starts_with('#') => {}
            None => return Err(Fail::new(format_args!("no row: {row}"))),
        }
    }
    Ok(())
}
