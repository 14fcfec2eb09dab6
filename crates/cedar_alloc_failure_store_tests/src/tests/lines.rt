// Tests of the functions that lines share, and of those that read and run lines on policy sets. Fields are separated by
// spaces, or by tabs for `read_fields`.
use super::commands::{are_words, command_in, prepared_by, taken_by};
use super::stores::are_written;
use cedar_alloc_failures::{
    Answer, CallOutcome, Calls, Row, ample_if, check_failures, is_worded, judged, made, refuse,
    stop_failing, unmade, with,
};
use cedar_lines::field::uid_field;
use cedar_lines::known_types::{KnownTypes, uid_in, uid_of_text};
use cedar_lines::line::read_fields;
use cedar_lines::room::text_in;
use cedar_lines::writing::push_line;
use cedar_policy_lines::making::{slotted_template, static_policy};
use cedar_policy_lines::{PolicyCommand, PolicySets, TemplateSlots, read_policy_command};
use cedar_store::{Effect, PolicyID, SlotEnv, SlotId};
use std::alloc::Global;

struct OnLines;

const LINES: &str = "
    uid_field | A::\"a\" | A::\"a\"
    - uid_field | A::b | none
    uid_field | A::\"'\" | none
    uid_of_text | A::\"a\" | A::\"a\"
    uid_of_text | A::\"a\" A::\"b\" | A::\"b\"
    uid_of_text | A::\"a\" B::\"b\" | B::\"b\"
    uid_of_text | A::\"a\" A::\"'\" | none
    - uid_of_text | A::b | none
    uid_in | x A::\"a\" A::\"longer\" | A::\"longer\"
    uid_in | x A::\"a\" B::\"b\" | B::\"b\"
    - uid_in | longer A::\"a\" A::\"b\" | A::\"b\"
    - uid_in | x A::\"a\" A::b | none
    text_in | x longer | longer
    - text_in | longer x | x
    read_fields | ent\tA::\"a\"\tA::\"b\" | ent A::\"a\" A::\"b\"
    - read_fields | \u{e9} | none
    push_line | anc A::\"a\" | anc A::\"a\"
    read_policy_command | static a permit | some
    read_policy_command | template t both | some
    read_policy_command | template t action | some
    - read_policy_command | template t some | none
    read_policy_command | link t l principal=A::\"x\" resource=A::\"y\" | some
    read_policy_command | link t l action=A::\"x\" principal=A::\"y\" resource=A::\"z\" | some
    read_policy_command | link t l action=A::\"x\" action=A::\"x\" | none
    read_policy_command | unlink l | some
    - read_policy_command | other | some
    - read_policy_command | merge rename | some
    - read_policy_command | ids | some
    - read_policy_command | frob | none
    - read_policy_command | link t l principal=A::x | none
    PolicySets::read | link t l principal=A::\"x\" resource=A::\"y\" | some
    - PolicySets::read | link t l principal=A::x | none
    static_policy | p | permit( principal, action, resource );
    slotted_template | t | permit( principal == ?principal, action, resource == ?resource );
    PolicySets::take | static a permit | ok
    PolicySets::take | static a permit; static a forbid | refused: occupied a
    PolicySets::take | template t principal; link t l principal=A::\"x\" | ok
    PolicySets::take | template t principal; link t l | refused: arity
    PolicySets::take | template t none; link t l; unlink l | ok
    PolicySets::take | template t action; link t l action=Action::\"x\" | ok
    PolicySets::take | template t action; link t l action=A::\"x\" | refused: not an action A::\"x\"
    PolicySets::take | static t permit; link t l | refused: no template t
    PolicySets::take | template t none; static l permit; link t l | refused: occupied l
    PolicySets::take | template t none; template t all | refused: occupied t
    PolicySets::take | unlink l | refused: no link l
    PolicySets::take | static l permit; unlink l | refused: not a link l
    PolicySets::take | static a permit; other; static a forbid; merge keep | refused: occupied a
    PolicySets::take | static a permit; other; static a forbid; merge rename | ok a policy0
    PolicySets::take | static a permit; template t none; ids | bodies a t policies a
    PolicySets::take | static a permit; other | ok
    PolicySets::apply_fields | static a permit | ok
    PolicySets::apply_fields | static a permit; static a forbid | refused: occupied a
    PolicySets::apply_fields | template t both | ok
    PolicySets::apply_fields | template t principal; link t l principal=A::\"x\" | ok
    PolicySets::apply_fields | template t principal; link t l action=A::\"x\" | refused: arity
    PolicySets::apply_fields | static t permit; link t l | refused: no template t
    PolicySets::apply_fields | static a permit; ids | bodies a policies a
    - PolicySets::apply_fields | template t principal; link t l principal=A::x | none
    - PolicySets::apply_fields | frob | none
";

// Returns the word for the slots of a template.
fn word_of(slots: TemplateSlots) -> &'static str {
    match slots {
        TemplateSlots::NoSlots => "none",
        TemplateSlots::OnPrincipal => "principal",
        TemplateSlots::OnAction => "action",
        TemplateSlots::OnResource => "resource",
        TemplateSlots::OnBoth => "both",
        TemplateSlots::OnAll => "all",
    }
}

// Returns whether bindings have the slot and the uid of a field.
fn binds(alloc: Global, values: &SlotEnv, field: &str) -> bool {
    let (slot, text) = field.split_once('=').unwrap_or((field, ""));
    let slot = match slot {
        "principal" => SlotId::Principal,
        "action" => SlotId::Action,
        _ => SlotId::Resource,
    };
    match values.get(&slot) {
        Some(uid) => is_worded(alloc, uid, text),
        None => false,
    }
}

// Returns whether bindings are exactly those in these fields.
fn are_bound(alloc: Global, values: &SlotEnv, fields: &str) -> bool {
    let mut count = 0_usize;
    for field in fields.split_whitespace() {
        if !binds(alloc, values, field) {
            return false;
        }
        count = count.saturating_add(1);
    }
    values.len() == count
}

// Returns whether a command is the one in a line.
fn is_said(alloc: Global, command: &PolicyCommand, line: &str) -> bool {
    let (word, rest) = line.split_once(' ').unwrap_or((line, ""));
    let (first, others) = rest.split_once(' ').unwrap_or((rest, ""));
    match command {
        PolicyCommand::Static(id, effect) => {
            word == "static" && is_worded(alloc, id, first) && is_worded(alloc, effect, others)
        }
        PolicyCommand::Template(id, slots) => {
            word == "template" && is_worded(alloc, id, first) && word_of(*slots) == others
        }
        PolicyCommand::Link(template, id, values) => {
            let (second, fields) = others.split_once(' ').unwrap_or((others, ""));
            word == "link"
                && is_worded(alloc, template, first)
                && is_worded(alloc, id, second)
                && are_bound(alloc, values, fields)
        }
        PolicyCommand::Unlink(id) => word == "unlink" && is_worded(alloc, id, rest),
        PolicyCommand::Other => line == "other",
        PolicyCommand::Merge(rename) => {
            word == "merge" && rest == if *rename { "rename" } else { "keep" }
        }
        PolicyCommand::Ids => line == "ids",
    }
}

// Returns whether a line was read as the case expects.
fn is_read(alloc: Global, command: &Option<PolicyCommand>, row: Row<'_>) -> bool {
    match command {
        Some(command) => row.want == "some" && is_said(alloc, command, row.given),
        None => row.want == "none",
    }
}

fn read(alloc: Global, number: usize, row: Row<'_>) -> CallOutcome {
    let fields: Result<Vec<&str>, std::alloc::AllocError> = row.given.split(' ').collect(alloc);
    match fields {
        Ok(fields) => {
            let mut known = KnownTypes::new(alloc);
            let mut sets = PolicySets::new(alloc);
            refuse(alloc, number);
            let command = match row.call {
                "PolicySets::read" => sets.read(alloc, &mut known, fields.as_slice()),
                _ => read_policy_command(alloc, &mut known, fields.as_slice()),
            };
            let tried = judged(alloc, command, row.want, |command| {
                is_read(alloc, command, row)
            });
            drop(sets);
            drop(known);
            drop(fields);
            tried
        }
        Err(_) => unmade(),
    }
}

// Returns the command with this text.
fn command(alloc: Global, text: &str) -> Option<PolicyCommand> {
    command_in!(alloc, text, KnownTypes, read_policy_command)
}

// Runs commands on sets. Returns whether all succeeded.
fn prepared(alloc: Global, sets: &mut PolicySets, texts: &str) -> bool {
    prepared_by!(alloc, sets, texts)
}

fn taken(alloc: Global, number: usize, row: Row<'_>) -> CallOutcome {
    taken_by!(alloc, number, row, PolicySets)
}

fn fields_taken(alloc: Global, number: usize, row: Row<'_>) -> CallOutcome {
    let (before, text) = row.given.rsplit_once(';').unwrap_or(("", row.given));
    let fields: Result<Vec<&str>, std::alloc::AllocError> = text.trim().split(' ').collect(alloc);
    match fields {
        Ok(fields) => {
            let mut sets = PolicySets::new(alloc);
            let mut known = KnownTypes::new(alloc);
            let mut out = Vec::new(alloc);
            let tried = if prepared(alloc, &mut sets, before) {
                refuse(alloc, number);
                let answer = sets.apply_fields(alloc, &mut known, fields.as_slice(), &mut out);
                let refused = stop_failing(alloc);
                let answer = match answer {
                    Ok(true) => ample_if(are_words(out.as_slice(), row.want)),
                    Ok(false) => ample_if(row.want == "none"),
                    Err(_) => Answer::Memory,
                };
                CallOutcome { answer, refused }
            } else {
                unmade()
            };
            drop(out);
            drop(known);
            drop(sets);
            drop(fields);
            tried
        }
        Err(_) => unmade(),
    }
}

fn parted(alloc: Global, number: usize, row: Row<'_>) -> CallOutcome {
    let mut fields: Vec<&str> = Vec::new(alloc);
    refuse(alloc, number);
    let answer = read_fields(&mut fields, row.given.as_bytes());
    let refused = stop_failing(alloc);
    let answer = match answer {
        Ok(true) => ample_if(are_written(alloc, fields.as_slice(), row.want)),
        Ok(false) => ample_if(row.want == "none"),
        Err(_) => Answer::Memory,
    };
    drop(fields);
    CallOutcome { answer, refused }
}

// Returns whether the text before, if there is one, could be parsed, so that its type is cached.
fn are_known(alloc: Global, known: &mut KnownTypes, before: &str) -> bool {
    match before {
        "" => true,
        text => match uid_of_text(alloc, known, text) {
            Ok(uid) => uid.is_some(),
            Err(_) => false,
        },
    }
}

// Runs a call that finds a uid, with the types of the uids before its text cached.
macro_rules! with_known {
    ($alloc:ident, $number:ident, $row:ident, $before:ident, |$known:ident| $call:expr) => {{
        let mut cache = KnownTypes::new($alloc);
        let well = are_known($alloc, &mut cache, $before);
        let tried = if well {
            let $known = &mut cache;
            refuse($alloc, $number);
            judged($alloc, $call, $row.want, |uid| match uid {
                Some(uid) => is_worded($alloc, uid, $row.want),
                None => $row.want == "none",
            })
        } else {
            unmade()
        };
        drop(cache);
        tried
    }};
}

fn shared(alloc: Global, number: usize, row: Row<'_>) -> CallOutcome {
    let (before, text) = row.given.rsplit_once(' ').unwrap_or(("", row.given));
    with_known!(
        alloc,
        number,
        row,
        before,
        |known| uid_of_text(alloc, known, text)
    )
}

// Parses the last word into the buffer of the first word, with the type of the word between them cached.
fn uid_in_room(
    alloc: Global,
    number: usize,
    row: Row<'_>,
    room: String,
    words: &str,
) -> CallOutcome {
    let mut room = room;
    let (before, text) = words.rsplit_once(' ').unwrap_or(("", words));
    with_known!(
        alloc,
        number,
        row,
        before,
        |known| uid_in(alloc, known, &mut room, text)
    )
}

// Copies the second word into the buffer of the first word.
fn text_in_room(
    alloc: Global,
    number: usize,
    row: Row<'_>,
    room: String,
    text: &str,
) -> CallOutcome {
    let mut room = room;
    refuse(alloc, number);
    judged(alloc, text_in(alloc, &mut room, text), row.want, |text| {
        text.as_str() == row.want
    })
}

// Runs a function that copies a text into a buffer that has held another one: the first word.
fn in_room(alloc: Global, number: usize, row: Row<'_>) -> CallOutcome {
    let (first, rest) = row.given.split_once(' ').unwrap_or((row.given, ""));
    match String::from_str(alloc, first) {
        Err(_) => unmade(),
        Ok(room) => match row.call {
            "uid_in" => uid_in_room(alloc, number, row, room, rest),
            _ => text_in_room(alloc, number, row, room, rest),
        },
    }
}

fn written(alloc: Global, number: usize, row: Row<'_>) -> CallOutcome {
    let mut out = Vec::new(alloc);
    refuse(alloc, number);
    let answer = push_line(&mut out, row.given);
    let refused = stop_failing(alloc);
    let answer = match answer {
        Ok(()) => ample_if(are_words(out.as_slice(), row.want)),
        Err(_) => Answer::Memory,
    };
    drop(out);
    CallOutcome { answer, refused }
}

fn id_of(alloc: Global, text: &str) -> Option<PolicyID> {
    PolicyID::from_string(alloc, text).ok()
}

impl Calls for OnLines {
    fn tried(&self, alloc: Global, number: usize, row: Row<'_>) -> CallOutcome {
        match row.call {
            "uid_field" => {
                refuse(alloc, number);
                judged(
                    alloc,
                    uid_field(alloc, row.given),
                    row.want,
                    |uid| match uid {
                        Some(uid) => is_worded(alloc, uid, row.want),
                        None => row.want == "none",
                    },
                )
            }
            "uid_of_text" => shared(alloc, number, row),
            "uid_in" | "text_in" => in_room(alloc, number, row),
            "read_fields" => parted(alloc, number, row),
            "push_line" => written(alloc, number, row),
            "read_policy_command" | "PolicySets::read" => read(alloc, number, row),
            "PolicySets::take" => taken(alloc, number, row),
            "PolicySets::apply_fields" => fields_taken(alloc, number, row),
            "static_policy" => with(alloc, number, id_of(alloc, row.given), |id| {
                made(alloc, static_policy(alloc, id, Effect::Permit), row.want)
            }),
            "slotted_template" => with(alloc, number, id_of(alloc, row.given), |id| {
                made(
                    alloc,
                    slotted_template(alloc, id, Effect::Permit, true, false, true),
                    row.want,
                )
            }),
            _ => unmade(),
        }
    }
}

#[test]
fn each_call_on_lines(rt: HostRuntime) {
    assert!(rt; check_failures(rt, &OnLines, LINES));
}
