// Tests of the functions that read and run lines on the store. Fields are separated by spaces.
use super::commands::{are_words, command_in, prepared_by, taken_by};
use cedar_alloc_failures::{
    Answer, CallOutcome, Calls, Row, ample_if, check_failures, is_worded, judged, refuse,
    stop_failing, unmade,
};
use cedar_entity_lines::{EntityCommand, KnownUids, LineStore, read_entity_command};
use std::alloc::Global;
use std::fmt::Display;

struct OnStores;

const STORES: &str = "
    read_entity_command | ent A::\"a\" A::\"b\" A::\"c\" | some
    read_entity_command | ent A::\"'\" | none
    - read_entity_command | ent | none
    read_entity_command | anc A::\"a\" | some
    read_entity_command | remove A::\"a\" B::\"b\" | some
    read_entity_command | slice A::\"a\" | some
    - read_entity_command | slice | none
    - read_entity_command | build | some
    - read_entity_command | add | some
    - read_entity_command | upsert | some
    - read_entity_command | build A::\"a\" | none
    - read_entity_command | frob | none
    LineStore::apply_ent | ent A::\"a\" A::\"b\" A::\"c\" | waits
    LineStore::apply_ent | ent A::\"'\" | left
    - LineStore::apply_ent | ent | left
    - LineStore::apply_ent | anc A::\"a\" | left
    LineStore::take | ent A::\"a\" A::\"b\"
    LineStore::take | ent A::\"a\" A::\"b\"; build | ok 1
    LineStore::take | ent A::\"a\" A::\"a\"; build | refused: cycle
    LineStore::take | ent A::\"a\" A::\"b\"; ent A::\"a\" A::\"c\"; build | refused: duplicate A::\"a\"
    LineStore::take | ent A::\"a\" A::\"b\"; build; ent A::\"b\" A::\"c\"; add | ok 2
    LineStore::take | ent A::\"a\" A::\"b\"; build; ent A::\"a\" A::\"c\"; upsert | ok 1
    LineStore::take | ent A::\"a\" A::\"b\"; ent A::\"b\"; build; remove A::\"b\" | ok 1
    LineStore::take | ent A::\"a\" A::\"b\"; ent A::\"b\"; build; slice A::\"b\" | ok 1
    LineStore::take | ent A::\"a\" A::\"b\"; ent A::\"b\" A::\"c\"; build; anc A::\"a\" | anc A::\"b\" A::\"c\"
    LineStore::take | anc A::\"a\" | no entity
";

// Returns whether values are printed as these words, in order.
pub(super) fn are_written<T: Display>(alloc: Global, things: &[T], words: &str) -> bool {
    let mut due = words.split_whitespace();
    for thing in things {
        match due.next() {
            Some(word) if is_worded(alloc, thing, word) => {}
            _ => return false,
        }
    }
    due.next().is_none()
}

// Returns whether a command is the one in a line.
fn is_said(alloc: Global, command: &EntityCommand, line: &str) -> bool {
    let (word, rest) = line.split_once(' ').unwrap_or((line, ""));
    match command {
        EntityCommand::Ent(uid, parents) => {
            let (own, others) = rest.split_once(' ').unwrap_or((rest, ""));
            word == "ent"
                && is_worded(alloc, uid, own)
                && are_written(alloc, parents.as_slice(), others)
        }
        EntityCommand::Build => line == "build",
        EntityCommand::Add => line == "add",
        EntityCommand::Upsert => line == "upsert",
        EntityCommand::Remove(uids) => {
            word == "remove" && are_written(alloc, uids.as_slice(), rest)
        }
        EntityCommand::Slice(uids) => word == "slice" && are_written(alloc, uids.as_slice(), rest),
        EntityCommand::Anc(uid) => word == "anc" && is_worded(alloc, uid, rest),
    }
}

// Returns whether a line was read as the case expects.
fn is_read(alloc: Global, command: &Option<EntityCommand>, row: Row<'_>) -> bool {
    match command {
        Some(command) => row.want == "some" && is_said(alloc, command, row.given),
        None => row.want == "none",
    }
}

fn read(alloc: Global, number: usize, row: Row<'_>) -> CallOutcome {
    let fields: Result<Vec<&str>, std::alloc::AllocError> = row.given.split(' ').collect(alloc);
    match fields {
        Ok(fields) => {
            let mut known = KnownUids::new(alloc);
            refuse(alloc, number);
            let tried = judged(
                alloc,
                read_entity_command(alloc, &mut known, fields.as_slice()),
                row.want,
                |command| is_read(alloc, command, row),
            );
            drop(known);
            drop(fields);
            tried
        }
        Err(_) => unmade(),
    }
}

fn waits(alloc: Global, number: usize, row: Row<'_>) -> CallOutcome {
    let fields: Result<Vec<&str>, std::alloc::AllocError> = row.given.split(' ').collect(alloc);
    match fields {
        Ok(fields) => {
            let mut known = KnownUids::new(alloc);
            let mut store = LineStore::new(alloc);
            refuse(alloc, number);
            let tried = judged(
                alloc,
                store.apply_ent(alloc, &mut known, fields.as_slice()),
                row.want,
                |waits| *waits == (row.want == "waits"),
            );
            drop(store);
            drop(known);
            drop(fields);
            tried
        }
        Err(_) => unmade(),
    }
}

// Returns the command with this text.
fn command(alloc: Global, text: &str) -> Option<EntityCommand> {
    command_in!(alloc, text, KnownUids, read_entity_command)
}

// Runs commands on a store. Returns whether all succeeded.
fn prepared(alloc: Global, store: &mut LineStore, texts: &str) -> bool {
    prepared_by!(alloc, store, texts)
}

fn taken(alloc: Global, number: usize, row: Row<'_>) -> CallOutcome {
    taken_by!(alloc, number, row, LineStore)
}

impl Calls for OnStores {
    fn tried(&self, alloc: Global, number: usize, row: Row<'_>) -> CallOutcome {
        match row.call {
            "read_entity_command" => read(alloc, number, row),
            "LineStore::apply_ent" => waits(alloc, number, row),
            "LineStore::take" => taken(alloc, number, row),
            _ => unmade(),
        }
    }
}

#[test]
fn each_call_on_lines_of_the_store(rt: HostRuntime) {
    assert!(rt; check_failures(rt, &OnStores, STORES));
}
