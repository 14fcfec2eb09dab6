//! Lists of texts that a caller receives: the bytes of all texts, one after another, and the span of each.
ghost use Rattle.std.specs.Prelude.{◌≡◌, [], ◌∷◌, ◌++◌, IfOk, length};
ghost use Rattle.std.specs.List.{concat};
ghost use Rattle.cedar_c_lists.specs.Answers.{spans_from};

use crate::layout::Span;
use std::alloc::{AllocError, Global};
use std::marker::Model;

/// A list of texts. In contracts it is the list.
#[derive(Drop)]
pub struct Answer {
    bytes: Vec<u8>,
    spans: Vec<Span>,
}

impl Model for Answer {
    ghost use Rattle.std.specs.Prelude.{List, ℕ};
    ghost use Rattle.cedar_c_lists.specs.Answers.{texts_in, AreConcatenated};

    ghost Value = { List (List ℕ) };

    ghost view = { λ a. texts_in a.bytes.items a.spans.items };

    ghost invariant = { λ a. AreConcatenated a.bytes.items a.spans.items (texts_in a.bytes.items a.spans.items) };
}

// Returns the position after the last byte.
fn end_of(bytes: &Vec<u8>) -> usize
    ensures { result ≡ length bytes.now.items }
{
    bytes.as_slice().len()
}

impl Answer {
    /// Creates an empty list. Does not allocate.
    pub fn new(alloc: Global) -> Answer
        ensures { result ≡ [] }
    {
        Answer {
            bytes: Vec::new(alloc),
            spans: Vec::new(alloc),
        }
    }

    /// Appends a text and returns the list.
    ///
    /// # Errors
    ///
    /// Returns `AllocError` if an allocation fails, and then drops the list.
    pub fn with(self, text: &[u8]) -> Result<Answer, AllocError>
        ensures { IfOk result (λ a. a ≡ self ++ text.now ∷ []) }
    {
        let Answer {
            mut bytes,
            mut spans,
        } = self;
        let start = end_of(&bytes);
        bytes.extend_from_slice(text)?;
        let end = end_of(&bytes);
        spans.push(Span { start, end })?;
        Ok(Answer { bytes, spans })
    }

    /// Returns the bytes of all texts, one after another. Does not allocate.
    pub fn bytes(&self) -> &[u8]
        ensures { result.now ≡ concat self.now }
    {
        self.bytes.as_slice()
    }

    /// Returns the span of each text in the bytes. Does not allocate.
    pub fn spans(&self) -> &[Span]
        ensures { result.now ≡ spans_from 0 self.now }
    {
        self.spans.as_slice()
    }
}
