//! The text form of entities.

use crate::entity::Entity;
use crate::iters::Pairs;
use std::fmt;

impl fmt::Display for Entity {
    /// Writes three lines, without a newline at the end:
    ///
    /// - the uid and `:`
    /// - `  attrs:` and the attributes as `key: value`, separated by `; `
    /// - `  ancestors:` and the ancestors in ascending order of uid, each once, separated by `, `
    ///
    /// Keys are written without escapes. Tags are not written. Iterates over the ancestors once. Does not allocate.
    ///
    /// # Differences from cedar-policy-core
    ///
    /// The original writes the ancestors in no specific order, and writes a uid twice that is both a parent and an
    /// indirect ancestor.
    fn fmt<W: fmt::Write>(&self, f: &mut fmt::Formatter<W>) -> fmt::Result {
        let uid = self.uid();
        write!(f, "{uid}:\n  attrs:")?;
        write_pairs(self.attrs(), f)?;
        f.write_str("\n  ancestors:")?;
        write_ancestors(self, f)
    }
}

// Writes pairs, separated by a semicolon and a blank.
fn write_pairs<W: fmt::Write>(pairs: Pairs<'_>, f: &mut fmt::Formatter<W>) -> fmt::Result {
    let mut is_first = true;
    for (key, value) in pairs {
        if !is_first {
            f.write_str("; ")?;
        }
        write!(f, "{key}: {value}")?;
        is_first = false;
    }
    Ok(())
}

// Writes the ancestors in order, separated by a comma and a blank.
fn write_ancestors<W: fmt::Write>(entity: &Entity, f: &mut fmt::Formatter<W>) -> fmt::Result {
    let mut is_first = true;
    for uid in entity.ancestors_in_order() {
        if !is_first {
            f.write_str(", ")?;
        }
        write!(f, "{uid}")?;
        is_first = false;
    }
    Ok(())
}
