// Uses of stores. A list of users and groups is separated by commas. Each name is followed by the groups to which it
// belongs. In a log, a name after `-` is removed.
ghost use Rattle.std.specs.Prelude.{IfOk};
ghost use Rattle.std.specs.List.{AllByRecursion};
ghost use Rattle.cedar_entity_maps.specs.Plain.{HasNoIndirect};
ghost use Rattle.cedar_replay.specs.CallsOf.{EntitiesHaveNoIndirect};

use super::uid_of;
use cedar_examples::{is_member, moved, was_member};
use cedar_store::{
    Entities, EntitiesError, Entity, EntityCall, EntityUID, SharedUid, replay_entities,
};
use cedar_test_helpers::results::{beside, pushed, written};
use std::alloc::Global;
use std::rc::Rc;
use std::test::Fail;

// Returns the shared uid of a group.
fn shared_of(alloc: Global, name: &str) -> Result<SharedUid, Fail> {
    Ok(SharedUid::new(alloc, uid_of(alloc, name)?)?)
}

// Returns the groups with the names.
fn groups_of(alloc: Global, names: &str) -> Result<Vec<SharedUid>, Fail> {
    let mut list = Vec::new(alloc);
    for name in names.split_whitespace() {
        list = pushed(list, shared_of(alloc, name))?;
    }
    Ok(list)
}

// Returns a user with its groups.
fn member_of(alloc: Global, text: &str) -> Result<(EntityUID, Vec<SharedUid>), Fail> {
    let (name, groups) = text.split_once(' ').unwrap_or((text, ""));
    beside(uid_of(alloc, name)?, groups_of(alloc, groups))
}

// Returns users with their groups.
fn members_of(alloc: Global, texts: &str) -> Result<Vec<(EntityUID, Vec<SharedUid>)>, Fail> {
    let mut list = Vec::new(alloc);
    for text in texts.split(", ") {
        list = pushed(list, member_of(alloc, text))?;
    }
    Ok(list)
}

// Returns a user as an entity.
fn entity_of(alloc: Global, text: &str) -> Result<Entity, Fail>
    ensures { IfOk result HasNoIndirect }
{
    let (uid, groups) = member_of(alloc, text)?;
    Ok(Entity::with_shared_parents(alloc, uid, groups)?)
}

// Returns a call of a log.
fn call_of(alloc: Global, text: &str) -> Result<EntityCall, Fail>
    ensures { IfOk result EntitiesHaveNoIndirect }
{
    match text.strip_prefix("-") {
        Some(name) => Ok(EntityCall::Remove(vec![in alloc; uid_of(alloc, name)?]?)),
        None => Ok(EntityCall::Upsert(vec![in alloc; Rc::new(alloc, entity_of(alloc, text)?)?]?)),
    }
}

// Returns a log.
fn log_of(alloc: Global, texts: &str) -> Result<Vec<EntityCall>, Fail>
    ensures { IfOk result (λ v. AllByRecursion EntitiesHaveNoIndirect v.items) }
{
    let mut list = Vec::new(alloc);
    for text in texts.split(", ") {
        match call_of(alloc, text) {
            Ok(call) => list.push(call)?,
            Err(fail) => {
                drop(list);
                return Err(fail);
            }
        }
    }
    Ok(list)
}

// Returns the store after a log.
fn store_of(alloc: Global, texts: &str) -> Result<Entities, Fail> {
    match replay_entities(alloc, log_of(alloc, texts)?) {
        Ok(store) => Ok(store),
        Err((_done, error)) => {
            drop(error);
            Err(Fail::new(format_args!("no store: {texts}")))
        }
    }
}

// Returns the user and the group of a query.
fn pair_of(alloc: Global, asked: &str) -> Result<(EntityUID, EntityUID), Fail> {
    let (user, group) = asked.split_once(' ').unwrap_or((asked, ""));
    beside(uid_of(alloc, user)?, uid_of(alloc, group))
}

// Returns the result for a list of users.
pub(super) fn told_of_members(alloc: Global, given: &str, asked: &str) -> Result<String, Fail> {
    let ((user, group), members) = beside(pair_of(alloc, asked)?, members_of(alloc, given))?;
    let told = is_member(alloc, members, &user, &group);
    drop(user);
    drop(group);
    match told {
        Ok(answer) => written(alloc, answer),
        Err(error) => written(alloc, error),
    }
}

// Returns the result for a log and two uids, which it drops.
fn asked_of_log(
    alloc: Global,
    log: Vec<EntityCall>,
    user: EntityUID,
    group: EntityUID,
) -> Result<bool, (usize, EntitiesError)>
    requires { AllByRecursion EntitiesHaveNoIndirect log.items }
{
    let told = was_member(alloc, log, &user, &group);
    drop(user);
    drop(group);
    told
}

// Returns the result for a log.
pub(super) fn told_of_log(alloc: Global, given: &str, asked: &str) -> Result<String, Fail> {
    let (user, group) = pair_of(alloc, asked)?;
    match log_of(alloc, given) {
        Ok(log) => match asked_of_log(alloc, log, user, group) {
            Ok(answer) => written(alloc, answer),
            Err((done, error)) => numbered(alloc, done, error),
        },
        Err(fail) => {
            drop(user);
            drop(group);
            Err(fail)
        }
    }
}

// Returns an error after the number of calls before it.
fn numbered(alloc: Global, done: usize, error: EntitiesError) -> Result<String, Fail> {
    let text = format!(in alloc; "{done} {error}");
    drop(error);
    Ok(text?)
}

// Returns the text of the store after a user moved and a group was closed.
pub(super) fn left_by_moving(alloc: Global, given: &str, asked: &str) -> Result<String, Fail> {
    let (member, closed) = asked.split_once(", ").unwrap_or((asked, ""));
    let (store, (user, groups)) = beside(store_of(alloc, given)?, member_of(alloc, member))?;
    let ((store, (user, groups)), closed) = beside((store, (user, groups)), uid_of(alloc, closed))?;
    match moved(alloc, store, user, groups, closed) {
        Ok(store) => written(alloc, store),
        Err(error) => written(alloc, error),
    }
}
