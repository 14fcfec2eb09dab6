// Tests of entities: construction, copying, changes and checks.
use super::parts::{entity, parts, text_of};
use super::terms::is_type;
use super::{has_eids, pointers, set_of, shared, uid_of};
use cedar_alloc_failures::{
    CallOutcome, Calls, Row, both, changed, check_failures, copied_with_text, has_words, judged,
    on, refuse, same_copied, stop_failing, unmade, with,
};
use cedar_entity::entity::Entity;
use cedar_entity::err::EntitiesError;
use cedar_entity::node::SharedEntity;
use cedar_graph::{HasCycle, TcError};
use cedar_ids::entity::EntityUID;
use cedar_terms::StaticallyTyped;
use cedar_uid_sets::SharedUid;
use std::alloc::{AllocError, Global};
use std::rc::Rc;

pub(super) struct OnMaking;

const MAKING: &str = "
    Entity::new_with_attr_partial_value | a c b / d / k=2 k=1 / t=1 | a b c / d / k=1 / t=1
    - Entity::new_with_attr_partial_value | a | a / / /
    - Entity::with_shared_parents | a, b c | a b c / / /
    - Entity::with_shared_parents | a, c b | a b c / / /
    Entity::with_shared_parents | a, c b c | a b c / / /
    Entity::clone | a b / c / k=1 / | a b / c / k=1 /
    Entity::clone | a | a / / /
    - SharedEntity::clone | a
    - Entity::type_of | B.a | B
";

pub(super) fn is_entity(alloc: Global, entity: &Entity, want: &str) -> bool {
    match text_of(alloc, entity) {
        Some(text) => {
            let told = has_words(text.as_str(), want);
            drop(text);
            told
        }
        None => false,
    }
}

fn new(alloc: Global, number: usize, row: Row<'_>) -> CallOutcome {
    let want = row.want;
    with(
        alloc,
        number,
        parts(alloc, row.given),
        |(uid, ((parents, indirect), (attrs, tags)))| {
            judged(
                alloc,
                Entity::new_with_attr_partial_value(alloc, uid, attrs, indirect, parents, tags),
                want,
                |entity| is_entity(alloc, entity, want),
            )
        },
    )
}

fn with_parents(alloc: Global, number: usize, row: Row<'_>) -> CallOutcome {
    let want = row.want;
    let (name, parents) = row.given.split_once(',').unwrap_or((row.given, ""));
    with(
        alloc,
        number,
        both(uid_of(alloc, name), pointers(alloc, parents)),
        |(uid, parents)| {
            judged(
                alloc,
                Entity::with_shared_parents(alloc, uid, parents),
                want,
                |entity| is_entity(alloc, entity, want),
            )
        },
    )
}

// Returns a shared entity.
pub(super) fn counted(alloc: Global, text: &str) -> Option<SharedEntity> {
    match cedar_alloc_failures::counted(alloc, entity(alloc, text)) {
        Some(entity) => Some(SharedEntity(entity)),
        None => None,
    }
}

pub(super) fn counted_text(alloc: Global, entity: &SharedEntity) -> Option<String> {
    text_of(alloc, &entity.0)
}

impl Calls for OnMaking {
    fn tried(&self, alloc: Global, number: usize, row: Row<'_>) -> CallOutcome {
        let want = row.want;
        match row.call {
            "Entity::new_with_attr_partial_value" => new(alloc, number, row),
            "Entity::with_shared_parents" => with_parents(alloc, number, row),
            "Entity::clone" => copied_with_text(
                alloc,
                number,
                entity(alloc, row.given),
                want,
                text_of,
            ),
            "SharedEntity::clone" => {
                copied_with_text(
                    alloc,
                    number,
                    counted(alloc, row.given),
                    "a / / /",
                    counted_text,
                )
            }
            "Entity::type_of" => {
                on(alloc, number, entity(alloc, row.given), |entity| {
                    judged(
                        alloc,
                        entity.type_of(alloc),
                        want,
                        |ty| is_type(alloc, ty, want),
                    )
                })
            }
            _ => unmade(),
        }
    }
}

#[test]
fn each_call_that_makes_an_entity(rt: HostRuntime) {
    assert!(rt; check_failures(rt, &OnMaking, MAKING));
}

struct OnChanging;

const CHANGING: &str = "
    Entity::add_indirect_ancestor | a b / d / k=1 /, c | a b / c d / k=1 /
    Entity::add_indirect_ancestor | a b / d / /, d | a b / d / /
    Entity::add_indirect_ancestor | a b / d / /, b | a b / d / /
    Entity::add_parent | a b / d / /, c | a b c / d / /
    Entity::add_parent | a b / d / /, d | a b d / / /
    Entity::add_parent | a b / d / /, b | a b / d / /
    Entity::add_shared_ancestors | a b / d / k=1 /, e b c d | a b / c d e / k=1 /
    Entity::add_ancestor_set | a b / d / k=1 /, e b c d | a b / c d e / k=1 /
    Entity::insert_ancestors_into | a b / d / k=1 /, c d | b c d
    Entity::insert_ancestors_into | a b / d / k=1 /, | b d
    - Entity::insert_ancestors_into | a / / /, c d | c d
    Entity::add_shared_parent | a b / d / /, c | a b c / d / /
    Entity::add_shared_parent | a b / d / /, d | a b d / / /
    - Entity::add_shared_parent | a b / d / /, b | a b / d / /
";

fn entity_changed(alloc: Global, number: usize, row: Row<'_>) -> CallOutcome {
    let (text, name) = row.given.split_once(", ").unwrap_or((row.given, ""));
    let made = entity(alloc, text);
    match both(uid_of(alloc, name), made) {
        Some((uid, made)) => {
            if row.call == "Entity::add_parent" {
                changed(alloc, number, Some(made), row.want, text_of, |entity| {
                    entity.add_parent(uid)
                })
            } else {
                changed(alloc, number, Some(made), row.want, text_of, |entity| {
                    entity.add_indirect_ancestor(uid)
                })
            }
        }
        None => unmade(),
    }
}

fn parent_shared(alloc: Global, number: usize, row: Row<'_>) -> CallOutcome {
    let (text, name) = row.given.split_once(", ").unwrap_or((row.given, ""));
    match both(shared(alloc, name), entity(alloc, text)) {
        Some((uid, made)) => {
            changed(alloc, number, Some(made), row.want, text_of, |entity| {
                entity.add_shared_parent(uid)
            })
        }
        None => unmade(),
    }
}

fn ancestors_shared(alloc: Global, number: usize, row: Row<'_>) -> CallOutcome {
    let (text, names) = row.given.split_once(", ").unwrap_or((row.given, ""));
    match both(pointers(alloc, names), entity(alloc, text)) {
        Some((uids, made)) => {
            changed(alloc, number, Some(made), row.want, text_of, |entity| {
                entity.add_shared_ancestors(uids)
            })
        }
        None => unmade(),
    }
}

// Runs the insertion of a set of ancestors.
fn ancestor_set(alloc: Global, number: usize, row: Row<'_>) -> CallOutcome {
    let (text, names) = row.given.split_once(", ").unwrap_or((row.given, ""));
    match both(set_of(alloc, names), entity(alloc, text)) {
        Some((uids, made)) => {
            changed(alloc, number, Some(made), row.want, text_of, |entity| {
                entity.add_ancestor_set(uids)
            })
        }
        None => unmade(),
    }
}

// Runs the insertion of the ancestors into a set, which may contain some of them after an error.
fn ancestors_inserted(alloc: Global, number: usize, row: Row<'_>) -> CallOutcome {
    let (text, names) = row.given.split_once(',').unwrap_or((row.given, ""));
    match both(set_of(alloc, names), entity(alloc, text)) {
        Some((uids, made)) => {
            let mut uids = uids;
            refuse(alloc, number);
            let answer = made.insert_ancestors_into(&mut uids);
            let tried = judged(
                alloc,
                answer,
                row.want,
                |_| has_eids(alloc, uids.iter(), row.want),
            );
            drop(uids);
            drop(made);
            tried
        }
        None => unmade(),
    }
}

impl Calls for OnChanging {
    fn tried(&self, alloc: Global, number: usize, row: Row<'_>) -> CallOutcome {
        match row.call {
            "Entity::add_shared_ancestors" => ancestors_shared(alloc, number, row),
            "Entity::add_ancestor_set" => ancestor_set(alloc, number, row),
            "Entity::insert_ancestors_into" => ancestors_inserted(alloc, number, row),
            "Entity::add_shared_parent" => parent_shared(alloc, number, row),
            _ => entity_changed(alloc, number, row),
        }
    }
}

#[test]
fn each_call_that_changes_an_entity(rt: HostRuntime) {
    assert!(rt; check_failures(rt, &OnChanging, CHANGING));
}

pub(super) struct OnChecking;

const CHECKING: &str = "
    - Entity::validate | a b / c / k=1 / t=1 | ok
    Entity::validate | a a | ! entity `A::\"a\"` is its own ancestor
    Entity::validate | a b / b | ! entity `A::\"a\"` has `A::\"b\"` as parent and as indirect ancestor
    Entity::validate | Action.a b | ! action `Action::\"a\"` has the ancestor `A::\"b\"`, which is not an action
    Entity::validate | a / / / t=! | ! the key `__extn` is reserved
    - Entity::try_validate | a b / c / k=1 / t=1 | a b / c / k=1 / t=1
    Entity::try_validate | a a | ! entity `A::\"a\"` is its own ancestor
    Entity::try_validate | a b / b | ! entity `A::\"a\"` has `A::\"b\"` as parent and as indirect ancestor
    Entity::try_validate | Action.a b | ! action `Action::\"a\"` has the ancestor `A::\"b\"`, which is not an action
    Entity::try_validate | a / / k=! / | ! the key `__extn` is reserved
    - From<TcError<EntityUID>> for EntitiesError::from | a | ! input graph has a cycle containing vertex `A::\"a\"`
    - From<TcError<SharedUid>> for EntitiesError::from | a | ! input graph has a cycle containing vertex `A::\"a\"`
    From<TcError<SharedUid>> for EntitiesError::from | shared a | ! input graph has a cycle containing vertex `A::\"a\"`
";

// Converts a closure error that names a shared uid.
fn told_of(alloc: Global, number: usize, uid: SharedUid, want: &str) -> CallOutcome {
    let fault: TcError<SharedUid> = TcError::HasCycle(HasCycle::new(uid));
    refuse(alloc, number);
    let told: Result<(), EntitiesError> = Err(EntitiesError::from(fault));
    judged(alloc, told, want, |_| false)
}

// Converts the same error with a plain uid.
fn from_plain_closure(alloc: Global, number: usize, row: Row<'_>) -> CallOutcome {
    match uid_of(alloc, row.given) {
        Some(uid) => {
            let fault: TcError<EntityUID> = TcError::HasCycle(HasCycle::new(uid));
            refuse(alloc, number);
            let told: Result<(), EntitiesError> = Err(EntitiesError::from(fault));
            judged(alloc, told, row.want, |_| false)
        }
        None => unmade(),
    }
}

fn from_closure(alloc: Global, number: usize, row: Row<'_>) -> CallOutcome {
    match shared(alloc, row.given.trim_start_matches("shared ")) {
        Some(uid) if row.given.starts_with("shared ") => {
            let copy: Result<SharedUid, AllocError> = uid.clone();
            let tried = match copy {
                Ok(copy) => told_of(alloc, number, copy, row.want),
                Err(_) => unmade(),
            };
            drop(uid);
            tried
        }
        Some(uid) => told_of(alloc, number, uid, row.want),
        None => unmade(),
    }
}

impl Calls for OnChecking {
    fn tried(&self, alloc: Global, number: usize, row: Row<'_>) -> CallOutcome {
        let want = row.want;
        match row.call {
            "Entity::validate" => {
                on(alloc, number, entity(alloc, row.given), |entity| {
                    judged(alloc, entity.validate(alloc), want, |_| want == "ok")
                })
            }
            "Entity::try_validate" => {
                with(alloc, number, entity(alloc, row.given), |entity| {
                    judged(alloc, entity.try_validate(alloc), want, |entity| {
                        is_entity(alloc, entity, want)
                    })
                })
            }
            "From<TcError<EntityUID>> for EntitiesError::from" => {
                from_plain_closure(alloc, number, row)
            }
            _ => from_closure(alloc, number, row),
        }
    }
}

#[test]
fn each_call_that_checks_an_entity(rt: HostRuntime) {
    assert!(rt; check_failures(rt, &OnChecking, CHECKING));
}
