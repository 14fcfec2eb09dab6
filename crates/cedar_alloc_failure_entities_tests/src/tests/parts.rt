// Entities as short texts. A text has four parts, separated by slashes: the name with the parents, the indirect
// ancestors, the attributes, and the tags.
//
// `a b c / d / k=1 / t=2` is the entity `A::"a"` with parents `A::"b"` and `A::"c"`, indirect ancestor `A::"d"`,
// attribute `k` and tag `t`. The number `!` stands for a record with the key `__extn`.
use super::values::{long, value};
use super::{eids, hashed, uid_of};
use cedar_alloc_failures::{both, owned, with_last, with_word};
use cedar_entity::entity::Entity;
use cedar_entity::iters::Pairs;
use cedar_terms::PartialValue;
use cedar_terms::value::Value;
use std::alloc::Global;

type Fields = Vec<(String, PartialValue)>;

fn number(alloc: Global, text: &str) -> Option<Value> {
    if text == "!" {
        return value(alloc, "record __extn=1");
    }
    match text.parse::<i64>() {
        Ok(n) => Some(long(n)),
        Err(_) => None,
    }
}

fn field(alloc: Global, text: &str) -> Option<(String, PartialValue)> {
    let (key, rest) = text.split_once('=').unwrap_or((text, ""));
    match both(owned(alloc, key), number(alloc, rest)) {
        Some((key, value)) => Some((key, PartialValue::Value(value))),
        None => None,
    }
}

fn fields(alloc: Global, texts: &str) -> Option<Fields> {
    let mut all = Some(Vec::new(alloc));
    for text in texts.split_whitespace() {
        all = with_last(all, field(alloc, text));
    }
    all
}

// Returns a part of an entity's text, or an empty text if it is missing.
fn part(text: &str, place: usize) -> &str {
    text.split('/').nth(place).unwrap_or("").trim()
}

// The arguments of `new_with_attr_partial_value`: the uid, the parents and the indirect ancestors, the attributes and
// the tags.
pub(super) type Parts = (
    cedar_ids::EntityUID,
    (
        (
            std::collections::HashSet<cedar_ids::EntityUID>,
            std::collections::HashSet<cedar_ids::EntityUID>,
        ),
        (Fields, Fields),
    ),
);

pub(super) fn parts(alloc: Global, text: &str) -> Option<Parts> {
    let whole = part(text, 0);
    let (name, parents) = whole.split_once(' ').unwrap_or((whole, ""));
    let edges = both(hashed(alloc, parents), hashed(alloc, part(text, 1)));
    let fields = both(fields(alloc, part(text, 2)), fields(alloc, part(text, 3)));
    both(uid_of(alloc, name), both(edges, fields))
}

// Returns the entity with this text.
pub(super) fn entity(alloc: Global, text: &str) -> Option<Entity> {
    match parts(alloc, text) {
        Some((uid, ((parents, indirect), (attrs, tags)))) => {
            Entity::new_with_attr_partial_value(alloc, uid, attrs, indirect, parents, tags).ok()
        }
        None => None,
    }
}

fn with_text(text: Option<String>, rest: Option<String>) -> Option<String> {
    match both(text, rest) {
        Some((text, rest)) => {
            let whole = with_word(with_word(Some(text), "/"), rest.as_str());
            drop(rest);
            whole
        }
        None => None,
    }
}

fn pairs_text(alloc: Global, pairs: Pairs<'_>) -> Option<String> {
    let mut text = Some(String::new(alloc));
    for (key, value) in pairs {
        match format!(in alloc; "{key}={value}") {
            Ok(pair) => {
                text = with_word(text, pair.as_str());
                drop(pair);
            }
            Err(_) => {
                drop(text);
                return None;
            }
        }
    }
    text
}

// Returns the text of an entity, with all its parts.
pub(super) fn text_of(alloc: Global, entity: &Entity) -> Option<String> {
    let name = with_word(Some(String::new(alloc)), entity.uid().eid().as_ref());
    let parents = match both(name, eids(alloc, entity.parents())) {
        Some((name, parents)) => {
            let text = with_word(Some(name), parents.as_str());
            drop(parents);
            text
        }
        None => None,
    };
    let near = with_text(parents, eids(alloc, entity.indirect_ancestors()));
    let known = with_text(near, pairs_text(alloc, entity.attrs()));
    with_text(known, pairs_text(alloc, entity.tags()))
}
