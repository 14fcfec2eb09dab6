//! The calls that read an attribute or a tag of an entity.
ghost use Rattle.std.specs.Prelude.{IfOk};
ghost use Rattle.std.specs.Option.{option_map};
ghost use Rattle.cedar_c_stores.specs.Reads.{attrs_of, tags_of};
ghost use Rattle.cedar_c_stores.specs.Values.{GetsAt, IsEncodedValue};
ghost use Rattle.cedar_c_stores.specs.laws.EncodedNodes.{IsShownIf, KeepsShown};

use crate::keys::key_of;
use crate::store_state::StoreState;
use cedar_c_lists::{Answer, Reason};
use cedar_c_trees::{Node, write_partial};
use cedar_terms::PartialValue;
use std::alloc::{AllocError, Global};
use std::hash::BuildHasher;

// The nodes of a value, and the text to which they refer, as an answer.
#[derive(Drop)]
struct EncodedNodes {
    answer: Answer,
    nodes: Vec<Node>,
}

// Encodes a partial value as nodes over a text.
fn encode_value(alloc: Global, value: &PartialValue) -> Result<EncodedNodes, AllocError>
    ensures { IfOk result (λ s. IsEncodedValue value.now s.answer s.nodes.items) }
{
    let written = write_partial(alloc, value)?;
    let answer = Answer::new(alloc).with(written.bytes())?;
    let nodes = written.into_nodes();
    Ok(EncodedNodes { answer, nodes })
}

// Encodes a partial value, if there is one.
fn encode_if_some(
    alloc: Global,
    value: Option<&PartialValue>,
) -> Result<Option<EncodedNodes>, AllocError>
    ensures { IfOk result (IsShownIf (option_map (λ v. v.now) value.entry)) }
{
    match value {
        None => Ok(None),
        Some(value) => {
            let one = encode_value(alloc, value)?;
            Ok(Some(one))
        }
    }
}

impl<S: BuildHasher + Copy> StoreState<S> {
    // Stores an encoded value, if there is one, and returns whether there is one. Does not allocate.
    fn store_encoded(&mut self, shown: Option<EncodedNodes>) -> bool
        ensures { KeepsShown shown result self.old self.new }
    {
        match shown {
            None => false,
            Some(one) => {
                let EncodedNodes { answer, nodes } = one;
                self.answer = answer;
                self.nodes = nodes;
                true
            }
        }
    }

    /// Returns whether the entity with the uid in a text has an attribute at a key. If it has, stores the nodes of its
    /// partial value in `nodes`, and their text as the only text in `answer`. Otherwise nothing changes.
    ///
    /// # Errors
    ///
    /// - `NotAUid`: the text is not the text of a uid.
    /// - `NoEntity`: the store has no entity with the uid.
    /// - `NotUtf8`: the key is not UTF-8.
    /// - `NoMemory`: an allocation failed.
    ///
    /// After an error nothing has changed.
    pub fn get(&mut self, alloc: Global, text: &[u8], key: &[u8]) -> Result<bool, Reason>
        ensures { GetsAt attrs_of text.now key.now result self.old self.new }
    {
        let uid = self.known.uid_of(alloc, text)?;
        let key = key_of(key)?;
        let found = match self.store.stored(&uid) {
            None => return Err(Reason::NoEntity),
            Some(entity) => encode_if_some(alloc, entity.get(key))?,
        };
        Ok(self.store_encoded(found))
    }

    /// Returns whether the entity with the uid in a text has a tag at a key. Stores the nodes and their text as `get`
    /// does.
    ///
    /// # Errors
    ///
    /// The errors of `get`. After an error nothing has changed.
    pub fn get_tag(&mut self, alloc: Global, text: &[u8], key: &[u8]) -> Result<bool, Reason>
        ensures { GetsAt tags_of text.now key.now result self.old self.new }
    {
        let uid = self.known.uid_of(alloc, text)?;
        let key = key_of(key)?;
        let found = match self.store.stored(&uid) {
            None => return Err(Reason::NoEntity),
            Some(entity) => encode_if_some(alloc, entity.get_tag(key))?,
        };
        Ok(self.store_encoded(found))
    }
}
