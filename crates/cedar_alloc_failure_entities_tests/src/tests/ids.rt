// Tests of identifiers, names and types.
use super::{named, place, typed};
use cedar_alloc_failures::{
    CallOutcome, Calls, Row, both, check_failures, copied, made, on, refuse, unmade,
};
use cedar_ids::entity::EntityType;
use cedar_ids::id::{AnyId, Id};
use cedar_ids::name::Name;
use std::alloc::Global;

struct OnIds;

const IDS: &str = "
    Id::from_normalized_str | ab | ab
    - Id::from_normalized_str | a b | ! not a valid name
    - Id::from_normalized_str | if | ! not a valid name
    AnyId::from_normalized_str | if | if
    - AnyId::from_normalized_str | a b | ! not a valid name
    - Id::clone | ab | ab
    - AnyId::clone | if | if
";

impl Calls for OnIds {
    fn tried(&self, alloc: Global, number: usize, row: Row<'_>) -> CallOutcome {
        match row.call {
            "Id::from_normalized_str" => {
                refuse(alloc, number);
                made(alloc, Id::from_normalized_str(alloc, row.given), row.want)
            }
            "AnyId::from_normalized_str" => {
                refuse(alloc, number);
                made(
                    alloc,
                    AnyId::from_normalized_str(alloc, row.given),
                    row.want,
                )
            }
            "Id::clone" => copied(
                alloc,
                number,
                Id::from_normalized_str(alloc, row.given).ok(),
                row.want,
            ),
            "AnyId::clone" => copied(
                alloc,
                number,
                AnyId::from_normalized_str(alloc, row.given).ok(),
                row.want,
            ),
            _ => unmade(),
        }
    }
}

#[test]
fn each_call_on_identifiers(rt: HostRuntime) {
    assert!(rt; check_failures(rt, &OnIds, IDS));
}

struct OnNames;

const NAMES: &str = "
    Name::parse_unqualified_name | A | A
    - Name::parse_unqualified_name | A::B | ! not a valid name
    Name::from_normalized_str | A | A
    Name::from_normalized_str | A::B::C | A::B::C
    Name::from_normalized_str | A::B::__cedar | ! not a valid name
    Name::qualify_with_name | A::B C | A::B::C
    - Name::qualify_with_name | A::B C::D | C::D
    - Name::clone | A::B | A::B
";

// Qualifies a name with a namespace, which is the text before the space.
fn qualified(alloc: Global, number: usize, row: Row<'_>) -> CallOutcome {
    let (space, name) = row.given.split_once(' ').unwrap_or(("A", row.given));
    on(
        alloc,
        number,
        both(named(alloc, space), named(alloc, name)),
        |(space, name)| made(alloc, name.qualify_with_name(alloc, Some(space)), row.want),
    )
}

impl Calls for OnNames {
    fn tried(&self, alloc: Global, number: usize, row: Row<'_>) -> CallOutcome {
        match row.call {
            "Name::parse_unqualified_name" => {
                refuse(alloc, number);
                made(
                    alloc,
                    Name::parse_unqualified_name(alloc, row.given),
                    row.want,
                )
            }
            "Name::from_normalized_str" => {
                refuse(alloc, number);
                made(alloc, Name::from_normalized_str(alloc, row.given), row.want)
            }
            "Name::qualify_with_name" => qualified(alloc, number, row),
            "Name::clone" => copied(alloc, number, named(alloc, row.given), row.want),
            _ => unmade(),
        }
    }
}

#[test]
fn each_call_on_names(rt: HostRuntime) {
    assert!(rt; check_failures(rt, &OnNames, NAMES));
}

struct OnTypes;

const TYPES: &str = "
    EntityType::from_normalized_str | A::B | A::B
    EntityType::from_normalized_str | a b | ! not a valid name
    EntityType::qualify_with | A::B C | A::B::C
    - EntityType::with_loc | A::C | A::C
    - EntityType::clone | A::B | A::B
";

// Qualifies a type with a namespace, which is the text before the space.
fn qualified_type(alloc: Global, number: usize, row: Row<'_>) -> CallOutcome {
    let (space, ty) = row.given.split_once(' ').unwrap_or(("A", row.given));
    on(
        alloc,
        number,
        both(named(alloc, space), typed(alloc, ty)),
        |(space, ty)| made(alloc, ty.qualify_with(alloc, Some(space)), row.want),
    )
}

fn placed_type(alloc: Global, number: usize, row: Row<'_>) -> CallOutcome {
    on(
        alloc,
        number,
        both(place(alloc), typed(alloc, row.given)),
        |(place, ty)| made(alloc, ty.with_loc(Some(place)), row.want),
    )
}

impl Calls for OnTypes {
    fn tried(&self, alloc: Global, number: usize, row: Row<'_>) -> CallOutcome {
        match row.call {
            "EntityType::from_normalized_str" => {
                refuse(alloc, number);
                made(
                    alloc,
                    EntityType::from_normalized_str(alloc, row.given),
                    row.want,
                )
            }
            "EntityType::qualify_with" => qualified_type(alloc, number, row),
            "EntityType::with_loc" => placed_type(alloc, number, row),
            "EntityType::clone" => copied(alloc, number, typed(alloc, row.given), row.want),
            _ => unmade(),
        }
    }
}

#[test]
fn each_call_on_types(rt: HostRuntime) {
    assert!(rt; check_failures(rt, &OnTypes, TYPES));
}
