// Tests of locations. Each case names values. The expected text has the start, the end and the source text of each
// location.
use super::{is_equal, is_other};
use cedar_ids::entity::{Eid, EntityType, EntityUID, EntityUIDImpl};
use cedar_ids::err::ParseErrors;
use cedar_ids::loc::Loc;
use cedar_ids::name::Name;
use cedar_test_helpers::creation::both;
use cedar_test_helpers::results::{beside, owned, written};
use cedar_test_helpers::rows::all_hold;
use std::alloc::{AllocError, Global};
use std::fmt::Write;
use std::rc::RcStr;
use std::test::Fail;

// Writes some locations, one after another.
fn places(alloc: Global, all: &[Option<&Loc>]) -> Result<String, Fail> {
    let mut text = String::new(alloc);
    for one in all {
        match one {
            Some(loc) => write!(text, "{}..{} of {};", loc.start, loc.end, loc.src.as_str())?,
            None => text.push_str("nowhere;")?,
        }
    }
    Ok(text)
}

// Appends a further text, if it is `Ok`.
fn with(text: String, more: Result<String, Fail>) -> Result<String, Fail> {
    let mut text = text;
    text.push_str(more?.as_str())?;
    Ok(text)
}

// Returns a copy of a value, if it is `Ok`.
fn copied<T: Clone + Drop>(made: Result<T, ParseErrors>) -> Result<T, ParseErrors> {
    match made {
        Ok(x) => {
            let copy: Result<T, AllocError> = x.clone();
            drop(x);
            Ok(copy?)
        }
        Err(error) => Err(error),
    }
}

// Writes the location of a name.
fn of_name(alloc: Global, made: Result<Name, ParseErrors>) -> Result<String, Fail> {
    match made {
        Ok(name) => {
            let told = places(alloc, &[name.loc()]);
            drop(name);
            told
        }
        Err(error) => written(alloc, error),
    }
}

// Writes the locations of a type and of its name, twice: borrowed and moved out.
fn of_type(alloc: Global, made: Result<EntityType, ParseErrors>) -> Result<String, Fail> {
    match made {
        Ok(ty) => {
            let told = places(alloc, &[ty.loc(), ty.name().loc()]);
            let name = ty.into_name();
            let (name, told) = beside(name, told)?;
            with(told, of_name(alloc, Ok(name)))
        }
        Err(error) => written(alloc, error),
    }
}

// Writes the locations of a uid, of its type and of its content.
fn of_uid(alloc: Global, made: Result<EntityUID, ParseErrors>) -> Result<String, Fail> {
    match made {
        Ok(uid) => {
            let ty = uid.entity_type();
            let told = places(alloc, &[uid.loc(), ty.loc(), ty.name().loc()]);
            let EntityUID::EntityUID(inner) = uid;
            let (inner, told) = beside(inner, told)?;
            with(told, of_inner(alloc, inner))
        }
        Err(error) => written(alloc, error),
    }
}

// Writes the locations of a uid's content and of a copy of it.
fn of_inner(alloc: Global, inner: EntityUIDImpl) -> Result<String, Fail> {
    let copy: Result<EntityUIDImpl, AllocError> = inner.clone();
    let told = match copy {
        Ok(copy) => {
            let told = places(alloc, &[inner.loc(), copy.loc()]);
            drop(copy);
            told
        }
        Err(error) => Err(error.into()),
    };
    drop(inner);
    told
}

fn located(alloc: Global, start: usize, end: usize, src: &str) -> Result<Loc, AllocError> {
    let src = RcStr::from_str(alloc, src)?;
    Ok(Loc::new(start, end, src))
}

// Creates the uid `A::"a"` with a location inside a text, and with a type that has a location of its own.
fn told_place(alloc: Global) -> Result<EntityUID, ParseErrors> {
    let eid = Eid::new(String::from_str(alloc, "a")?);
    let ty = EntityType::from_normalized_str(alloc, "A");
    match both(ty.ok(), located(alloc, 3, 9, "xx A::\"a\" yy").ok()) {
        Some((ty, loc)) => Ok(EntityUID::from_components(ty, eid, Some(loc))),
        None => {
            drop(eid);
            Err(ParseErrors::Memory)
        }
    }
}

// Creates the same uid without a location, from its parts.
fn bare(alloc: Global) -> Result<EntityUID, ParseErrors> {
    let (ty, eid) = told_place(alloc)?.components();
    Ok(EntityUID::from_components(ty, eid, None))
}

// Writes the locations of a type, of the type with another location, and of the type without one, if all are equal.
fn of_moved(alloc: Global, ty: &EntityType, loc: &Loc) -> Result<String, Fail> {
    match both(ty.with_loc(Some(loc)).ok(), ty.with_loc(None).ok()) {
        Some((moved, bare)) => {
            let told = if moved == *ty && bare == *ty {
                places(alloc, &[ty.loc(), moved.loc(), bare.loc()])
            } else {
                owned(alloc, "other types")
            };
            drop(moved);
            drop(bare);
            told
        }
        None => owned(alloc, "no memory"),
    }
}

// Writes the locations of a type, before and after its location is changed.
fn moved(alloc: Global, text: &str) -> Result<String, Fail> {
    let loc = located(alloc, 1, 5, " A::B")?;
    match EntityType::from_normalized_str(alloc, text) {
        Ok(ty) => {
            let told = of_moved(alloc, &ty, &loc);
            drop(ty);
            drop(loc);
            told
        }
        Err(error) => {
            drop(loc);
            Err(error.into())
        }
    }
}

// Returns the name with this text, inside an optional namespace.
fn qualified(alloc: Global, namespace: &str, text: &str) -> Result<Name, ParseErrors> {
    let name = Name::from_normalized_str(alloc, text)?;
    let namespace = Name::from_normalized_str(alloc, namespace).ok();
    let made = name.qualify_with_name(alloc, namespace.as_ref());
    drop(namespace);
    drop(name);
    Ok(made?)
}

// Returns the type with this text, inside an optional namespace.
fn qualified_type(alloc: Global, namespace: &str, text: &str) -> Result<EntityType, ParseErrors> {
    let ty: EntityType = Name::from_normalized_str(alloc, text)?.into();
    let namespace = Name::from_normalized_str(alloc, namespace).ok();
    let made = ty.qualify_with(alloc, namespace.as_ref());
    drop(namespace);
    drop(ty);
    Ok(made?)
}

fn row(alloc: Global, asked: &str) -> Result<String, Fail> {
    let (word, text) = asked.split_once('|').unwrap_or((asked, ""));
    let (one, other) = text.split_once('|').unwrap_or((text, ""));
    match word {
        "name" => of_name(alloc, Name::from_normalized_str(alloc, text)),
        "copy of a name" => of_name(alloc, copied(Name::from_normalized_str(alloc, text))),
        "unqualified" => of_name(alloc, Name::parse_unqualified_name(alloc, text)),
        "type" => of_type(alloc, EntityType::from_normalized_str(alloc, text)),
        "copy of a type" => of_type(alloc, copied(EntityType::from_normalized_str(alloc, text))),
        "uid" => of_uid(alloc, EntityUID::from_normalized_str(alloc, text)),
        "copy of a uid" => of_uid(alloc, copied(EntityUID::from_normalized_str(alloc, text))),
        "typename" => of_uid(alloc, EntityUID::with_eid_and_type(alloc, text, "a")),
        "told" => of_uid(alloc, told_place(alloc)),
        "bare" => of_uid(alloc, bare(alloc)),
        "moved" => moved(alloc, text),
        "within" => of_name(alloc, qualified(alloc, one, other)),
        "type within" => of_type(alloc, qualified_type(alloc, one, other)),
        _ => owned(alloc, "what is this word?"),
    }
}

const ROWS: &str = "# what is read lies at the whole text, and so does its copy\n\
name|A::B => 0..4 of A::B;\n\
copy of a name|A::B => 0..4 of A::B;\n\
type|C::D::E => 0..7 of C::D::E;0..7 of C::D::E;0..7 of C::D::E;\n\
copy of a type|C::D::E => 0..7 of C::D::E;0..7 of C::D::E;0..7 of C::D::E;\n\
# a uid, its type, that one's name, what the uid holds and a copy of that\n\
uid|A::B::\"it\\'s\" => 0..13 of A::B::\"it\\'s\";0..4 of A::B::\"it\\'s\";0..4 of A::B::\"it\\'s\";0..13 of A::B::\"it\\'s\";0..13 of A::B::\"it\\'s\";\n\
copy of a uid|A::B::\"it\\'s\" => 0..13 of A::B::\"it\\'s\";0..4 of A::B::\"it\\'s\";0..4 of A::B::\"it\\'s\";0..13 of A::B::\"it\\'s\";0..13 of A::B::\"it\\'s\";\n\
# a uid that is made lies where it is told, and its type keeps its own place; of its parts alone it has none\n\
told => 3..9 of xx A::\"a\" yy;0..1 of A;0..1 of A;3..9 of xx A::\"a\" yy;3..9 of xx A::\"a\" yy;\n\
bare => nowhere;0..1 of A;0..1 of A;nowhere;nowhere;\n\
typename|A => nowhere;nowhere;nowhere;nowhere;nowhere;\n\
unqualified|A => nowhere;\n\
# a type takes another place, or none, and stays where it is itself\n\
moved|A::B => 0..4 of A::B;1..5 of  A::B;nowhere;\n\
# what goes into a namespace, or into none, lies where it lay at first\n\
within|N::M|B => 0..1 of B;\n\
within||B => 0..1 of B;\n\
within|B|N::M => 0..4 of N::M;\n\
type within|N::M|B => 0..1 of B;0..1 of B;0..1 of B;";

#[test]
fn things_lie_where_they_are_read_or_told(rt: HostRuntime) -> Result<(), Fail> {
    all_hold(rt.alloc(), ROWS, row)
}

// Returns whether a location equals its copy, and differs from locations with one other field.
fn holds_its_parts(alloc: Global) -> bool {
    match located(alloc, 2, 5, "ab A") {
        Ok(loc) => {
            let told = (loc.start, loc.end, loc.src.as_str()) == (2, 5, "ab A")
                && is_equal(loc.clone(), &loc)
                && is_other(located(alloc, 1, 5, "ab A"), &loc)
                && is_other(located(alloc, 2, 4, "ab A"), &loc)
                && is_other(located(alloc, 2, 5, "ab B"), &loc);
            drop(loc);
            told
        }
        Err(_) => false,
    }
}

#[test]
fn a_location_holds_its_parts_and_compares_them(rt: HostRuntime) {
    assert!(rt; holds_its_parts(rt.alloc()));
}
