//! Values that a test creates and passes as `Option`. `None` means that the value could not be created. Helpers that
//! inspect a value drop it, and return `false` for `None`.

use cedar_ids::entity::{Eid, EntityType, EntityUID};
use cedar_ids::loc::Loc;
use cedar_ids::name::Name;
use std::alloc::{AllocError, Global};
use std::fmt::Display;
use std::hash::{DefaultHasher, Hash, Hasher};
use std::rc::Rc;

/// Returns a pair if both values exist. Drops them otherwise.
pub fn both<A: Drop, B: Drop>(first: Option<A>, second: Option<B>) -> Option<(A, B)> {
    match first {
        Some(a) => match second {
            Some(b) => Some((a, b)),
            None => {
                drop(a);
                None
            }
        },
        None => {
            drop(second);
            None
        }
    }
}

/// Appends a value to a list. Returns `None` if one of them is missing or an allocation fails.
pub fn with_last<T: Drop>(all: Option<Vec<T>>, x: Option<T>) -> Option<Vec<T>> {
    match both(all, x) {
        Some((mut all, x)) => match all.push(x) {
            Ok(()) => Some(all),
            Err(error) => {
                drop(error);
                drop(all);
                None
            }
        },
        None => None,
    }
}

/// Moves a value into an `Rc`. Returns `None` if it is missing or an allocation fails.
pub fn counted<T: Drop>(alloc: Global, made: Option<T>) -> Option<Rc<T>> {
    match made {
        Some(x) => Rc::new(alloc, x).ok(),
        None => None,
    }
}

/// Returns an owned copy of a text. Returns `None` if an allocation fails.
pub fn owned(alloc: Global, text: &str) -> Option<String> {
    String::from_str(alloc, text).ok()
}

/// Returns the name with this text, if it is valid.
pub fn named(alloc: Global, text: &str) -> Option<Name> {
    Name::from_normalized_str(alloc, text).ok()
}

/// Returns the entity type with this name and without a location, if the name is valid.
pub fn typed(alloc: Global, text: &str) -> Option<EntityType> {
    match named(alloc, text) {
        Some(name) => Some(EntityType::EntityType(name)),
        None => None,
    }
}

/// Returns the uid with this type and this eid, without a location.
pub fn uid(alloc: Global, ty: &str, eid: &str) -> Option<EntityUID> {
    match both(owned(alloc, eid), typed(alloc, ty)) {
        Some((eid, ty)) => Some(EntityUID::from_components(ty, Eid::new(eid), None)),
        None => None,
    }
}

/// Returns the start of a location, if there is one.
pub fn start_of(loc: Option<&Loc>) -> Option<usize> {
    loc.map(|loc| loc.start)
}

/// Returns the hash of a value.
pub fn hash_of<T: Hash>(x: &T) -> u64 {
    let mut state = DefaultHasher::new();
    x.hash(&mut state);
    state.finish()
}

/// Returns whether a value exists and has this printed text.
pub fn shows<T: Display + Drop>(alloc: Global, made: Option<T>, want: &str) -> bool {
    match made {
        Some(x) => {
            let told = is_written(alloc, &x, want);
            drop(x);
            told
        }
        None => false,
    }
}

/// Returns whether a value has this printed text.
pub fn is_written<T: Display>(alloc: Global, x: &T, want: &str) -> bool {
    match x.to_string(alloc) {
        Ok(text) => text.as_str() == want,
        Err(_) => false,
    }
}

/// Returns a copy of a value, and drops the value.
pub fn copy_of<T: Clone + Drop>(made: Option<T>) -> Option<T> {
    match made {
        Some(x) => {
            let copy: Result<T, AllocError> = x.clone();
            drop(x);
            copy.ok()
        }
        None => None,
    }
}

/// Returns whether a copy of a value is equal to it and has the same hash.
pub fn is_copied<T: Clone + Hash + Drop>(x: &T) -> bool {
    let copy: Result<T, AllocError> = x.clone();
    match copy {
        Ok(copy) => {
            let told = copy == *x && hash_of(&copy) == hash_of(x);
            drop(copy);
            told
        }
        Err(_) => false,
    }
}

/// Returns whether a value exists, and a copy is equal to it and has the same hash.
pub fn copies<T: Clone + Hash + Drop>(made: Option<T>) -> bool {
    match made {
        Some(x) => {
            let told = is_copied(&x);
            drop(x);
            told
        }
        None => false,
    }
}

/// Returns whether two values exist and differ.
pub fn differ<T: PartialEq + Drop>(x: Option<T>, y: Option<T>) -> bool {
    match both(x, y) {
        Some((x, y)) => {
            let told = x != y;
            drop(x);
            drop(y);
            told
        }
        None => false,
    }
}
