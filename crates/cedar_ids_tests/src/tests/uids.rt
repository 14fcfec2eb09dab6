// Tests that do not fit into a case: values in several forms, values in sets, and long texts.
use super::{is_equal, is_other};
use cedar_ids::entity::{Eid, EntityType, EntityUID, EntityUIDImpl};
use cedar_ids::err::ParseErrors;
use cedar_ids::name::Name;
use cedar_ids::non_empty::NonEmpty;
use cedar_test_helpers::creation::both;
use std::alloc::{AllocError, Global};
use std::collections::HashSet;
use std::hash::Hash;
use std::test::Fail;

// Returns whether the list of 1, 2 and 3 can be printed, and has the right head and tail.
fn has_head_and_tail(alloc: Global) -> bool {
    match vec![in alloc; 2, 3] {
        Ok(tail) => {
            let list = NonEmpty { head: 1, tail };
            let written = match format!(in alloc; "{list:?}") {
                Ok(text) => !text.as_str().is_empty(),
                Err(_) => false,
            };
            let NonEmpty { head, tail } = list;
            let told = written && head == 1 && tail.as_slice() == [2, 3].as_slice();
            drop(tail);
            told
        }
        Err(_) => false,
    }
}

#[test]
fn a_list_that_is_not_empty_has_a_head_and_a_tail(rt: HostRuntime) {
    assert!(rt; has_head_and_tail(rt.alloc()));
}

// Returns whether a name that ends in `B` is unchanged as a type, and also when borrowed as a name.
fn keeps_as_a_type(ty: &EntityType) -> bool {
    let lent: &Name = ty.as_ref();
    ty.name().basename().as_ref() == "B" && lent.basename().as_ref() == "B"
}

// Returns whether `A::B` is unchanged when converted to a type and back to a name.
fn goes_and_comes(alloc: Global) -> bool {
    match Name::from_normalized_str(alloc, "A::B") {
        Ok(name) => {
            let ty = EntityType::from(name);
            let kept = keeps_as_a_type(&ty);
            let name = Name::from(ty);
            let back = name.basename().as_ref() == "B";
            let name = EntityType::EntityType(name).into_name();
            let told = matches!(name.to_string(alloc), Ok(text) if text.as_str() == "A::B");
            drop(name);
            kept && back && told
        }
        Err(_) => false,
    }
}

#[test]
fn a_type_and_its_name_become_each_other(rt: HostRuntime) {
    assert!(rt; goes_and_comes(rt.alloc()));
}

// Creates the uid with this type and eid, without a location.
fn made(alloc: Global, ty: &str, eid: &str) -> Result<EntityUID, ParseErrors> {
    let eid = Eid::new(String::from_str(alloc, eid)?);
    match EntityType::from_normalized_str(alloc, ty) {
        Ok(ty) => Ok(EntityUID::from_components(ty, eid, None)),
        Err(error) => {
            drop(eid);
            Err(error)
        }
    }
}

// Returns whether a uid equals itself and a uid with the same parts, and differs from uids with another type or eid.
fn is_told_by_its_parts(alloc: Global, first: EntityUID) -> bool {
    let told = first == first
        && is_equal(made(alloc, "test_entity_type", "foo"), &first)
        && is_equal(first.clone(), &first)
        && is_other(made(alloc, "Unspecified", "foo"), &first)
        && is_other(made(alloc, "test_entity_type", "Foo"), &first);
    drop(first);
    told
}

// Returns whether that is true of a uid, if it is `Ok`.
fn is_told<E: Drop>(alloc: Global, first: Result<EntityUID, E>) -> bool {
    match first {
        Ok(first) => is_told_by_its_parts(alloc, first),
        Err(error) => {
            drop(error);
            false
        }
    }
}

#[test]
fn equal_uids_have_equal_parts(rt: HostRuntime) {
    let alloc = rt.alloc();
    assert!(rt;
        is_told(
            alloc,
            EntityUID::with_eid_and_type(alloc, "test_entity_type", "foo")
        ) && is_told(alloc, made(alloc, "test_entity_type", "foo"))
    );
}

// Returns whether two values are equal in each comparison, and a set accepts only the first of them.
fn set_takes_one<T: Ord + Hash + Drop>(alloc: Global, first: T, second: T) -> bool {
    let same = first == second && first.cmp(&second).is_eq();
    let mut set = HashSet::new(alloc);
    let taken = matches!(set.insert(first), Ok(true));
    let again = matches!(set.insert(second), Ok(false));
    let told = taken && again && set.len() == 1;
    drop(set);
    same && told
}

// Returns whether all comparisons and sets ignore the location of `A::"a"` as it is parsed.
fn locations_are_ignored(alloc: Global) -> bool {
    let placed = EntityUID::from_normalized_str(alloc, "A::\"a\"");
    match both(placed.ok(), made(alloc, "A", "a").ok()) {
        Some((placed, bare)) => {
            let told = placed.loc().is_some() && bare.loc().is_none();
            set_takes_one(alloc, placed, bare) && told
        }
        None => false,
    }
}

#[test]
fn equality_order_and_hash_ignore_the_location(rt: HostRuntime) {
    assert!(rt; locations_are_ignored(rt.alloc()));
}

// Returns whether a copy of a uid's content is equal in each comparison, and has the same location.
fn is_copied(inner: EntityUIDImpl) -> bool {
    let told = match inner.clone() {
        Ok(copy) => {
            let told = copy == inner && copy.cmp(&inner).is_eq() && copy.loc() == inner.loc();
            drop(copy);
            told
        }
        Err(_) => false,
    };
    drop(inner);
    told
}

#[test]
fn what_a_uid_holds_is_copied(rt: HostRuntime) -> Result<(), Fail> {
    let EntityUID::EntityUID(inner) = EntityUID::from_normalized_str(rt.alloc(), "A::\"x\"")?;
    assert!(rt; is_copied(inner));
    Ok(())
}

// Returns the text of a uid with a thousand names and a thousand escapes.
fn long_text(alloc: Global) -> Result<String, AllocError> {
    let mut text = String::new(alloc);
    for _ in 0..1000 {
        text.push_str("A::")?;
    }
    text.push_str("B::\"")?;
    for _ in 0..1000 {
        text.push_str("\\u{1f}x")?;
    }
    text.push_str("\"")?;
    Ok(text)
}

// Returns whether the uid with this text has an eid of this length in bytes, and is printed as the text.
fn reads_with_length(alloc: Global, text: &str, length: usize) -> bool {
    match EntityUID::from_normalized_str(alloc, text) {
        Ok(uid) => {
            let told = uid.eid().as_ref().len() == length
                && matches!(uid.to_string(alloc), Ok(written) if written.as_str() == text);
            drop(uid);
            told
        }
        Err(_) => false,
    }
}

#[test]
fn a_long_uid_is_read(rt: HostRuntime) -> Result<(), Fail> {
    let alloc = rt.alloc();
    let text = long_text(alloc)?;
    assert!(rt; reads_with_length(alloc, text.as_str(), 2000));
    Ok(())
}
