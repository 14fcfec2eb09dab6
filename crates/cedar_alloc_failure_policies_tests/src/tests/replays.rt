// Tests of lists of calls on a policy set. Each call is written as in `sets`. `keep` and `rename` merge a set with the
// static policy `a`, which forbids. If one call fails to allocate, the other calls must behave as if it were not in the
// list.
use super::id;
use super::parts::values;
use super::sets::{is_same, policy, set_of};
use super::statics::unlinked;
use super::templates::template;
use cedar_alloc_failures::{
    Answer, CallOutcome, Calls, Row, ample_if, both, check_failures, has_words, memory_if, owned,
    refuse, stop_failing, unmade, with_last, with_word, worked_rows,
};
use cedar_policy::Policy;
use cedar_policy_set::PolicySet;
use cedar_replay::{Answer as Told, PolicyCall, replay_policies};
use std::alloc::{AllocError, Global};
use std::fmt::Display;

fn link_call(alloc: Global, text: &str) -> Option<PolicyCall> {
    let (template, rest) = text.split_once(' ').unwrap_or((text, ""));
    let (name, bound) = rest.split_once(' ').unwrap_or((rest, ""));
    let ids = both(id(alloc, template), id(alloc, name));
    match both(ids, values(alloc, bound)) {
        Some(((template, name), values)) => Some(PolicyCall::Link(template, name, values)),
        None => None,
    }
}

fn id_call(alloc: Global, word: &str, text: &str) -> Option<PolicyCall> {
    match id(alloc, text) {
        Some(id) => Some(match word {
            "unlink" => PolicyCall::Unlink(id),
            "remove_static" => PolicyCall::RemoveStatic(id),
            _ => PolicyCall::RemoveTemplate(id),
        }),
        None => None,
    }
}

// Returns the call with this text.
fn call_of(alloc: Global, text: &str) -> Option<PolicyCall> {
    let (word, rest) = text.split_once(' ').unwrap_or((text, ""));
    match word {
        "static" => match unlinked(alloc, rest) {
            Some(policy) => Some(PolicyCall::AddStatic(policy)),
            None => None,
        },
        "template" => match template(alloc, rest) {
            Some(template) => Some(PolicyCall::AddTemplate(template)),
            None => None,
        },
        "add" => match policy(alloc, rest) {
            Some(policy) => Some(PolicyCall::Add(policy)),
            None => None,
        },
        "link" => link_call(alloc, rest),
        "keep" | "rename" => match set_of(alloc, "static a forbid") {
            Some(set) => Some(PolicyCall::Merge(set, word == "rename")),
            None => None,
        },
        _ => id_call(alloc, word, rest),
    }
}

// Returns the calls with these texts, without the one at this index.
fn calls_of(alloc: Global, texts: &str, left_out: usize) -> Option<Vec<PolicyCall>> {
    let mut all = Some(Vec::new(alloc));
    let mut place = 0_usize;
    for text in texts.split(';') {
        if place != left_out {
            all = with_last(all, call_of(alloc, text.trim()));
        }
        place = place.saturating_add(1);
    }
    all
}

fn text_of<T: Display>(alloc: Global, thing: &T) -> Option<String> {
    thing.to_string(alloc).ok()
}

fn done<E: Display>(alloc: Global, answer: &Result<(), E>) -> Option<String> {
    match answer {
        Ok(()) => owned(alloc, "ok"),
        Err(error) => text_of(alloc, error),
    }
}

fn taken<E: Display>(alloc: Global, answer: &Result<Policy, E>) -> Option<String> {
    match answer {
        Ok(policy) => text_of(alloc, policy.id()),
        Err(error) => text_of(alloc, error),
    }
}

// Returns the result of a call as a text.
fn told_of(alloc: Global, answer: &Told) -> Option<String> {
    match answer {
        Told::AddStatic(answer) => done(alloc, answer),
        Told::AddTemplate(answer) => done(alloc, answer),
        Told::Add(answer) => done(alloc, answer),
        Told::Link(answer) => done(alloc, answer),
        Told::Unlink(answer) => taken(alloc, answer),
        Told::RemoveStatic(answer) => taken(alloc, answer),
        Told::RemoveTemplate(Ok(template)) => text_of(alloc, template.id()),
        Told::RemoveTemplate(Err(error)) => text_of(alloc, error),
        Told::Merge(Ok(renaming)) => text_of(alloc, &renaming.len()),
        Told::Merge(Err(error)) => text_of(alloc, error),
    }
}

// Returns the results of calls, without the one at this index, with a semicolon after each.
fn all_told(alloc: Global, answers: &[Told], left_out: usize) -> Option<String> {
    let mut text = Some(String::new(alloc));
    let mut place = 0_usize;
    for answer in answers {
        if place != left_out {
            text = with_text(text, told_of(alloc, answer));
        }
        place = place.saturating_add(1);
    }
    text
}

fn with_text(text: Option<String>, further: Option<String>) -> Option<String> {
    match both(text, further) {
        Some((text, further)) => {
            let whole = with_word(with_word(Some(text), further.as_str()), ";");
            drop(further);
            whole
        }
        None => None,
    }
}

// An index that no call has.
const NONE: usize = usize::MAX;

// Returns the index of the first result that is an allocation error.
fn wanting(alloc: Global, answers: &[Told]) -> usize {
    let mut place = 0_usize;
    for answer in answers {
        let text = told_of(alloc, answer).unwrap_or(String::new(alloc));
        let is_memory = text.as_str() == "out of memory";
        drop(text);
        if is_memory {
            return place;
        }
        place = place.saturating_add(1);
    }
    NONE
}

// The outcome of a list of calls: the texts of the results, and the set.
#[derive(Drop)]
struct Left {
    text: String,
    set: PolicySet,
}

// Returns the results and the set after calls with enough memory.
fn replayed(alloc: Global, set: PolicySet, calls: Vec<PolicyCall>) -> Option<Left> {
    let mut set = set;
    match replay_policies(alloc, &mut set, calls) {
        Ok(answers) => {
            let text = all_told(alloc, &answers, NONE).unwrap_or(String::new(alloc));
            drop(answers);
            Some(Left { text, set })
        }
        Err(_) => {
            drop(set);
            None
        }
    }
}

// Returns whether the results, without the one at an index, and the set are those of the calls without that one.
fn is_due(
    alloc: Global,
    before: &PolicySet,
    texts: &str,
    place: usize,
    found: (&str, &PolicySet),
) -> bool {
    let copy: Result<PolicySet, AllocError> = before.clone();
    match both(copy.ok(), calls_of(alloc, texts, place)) {
        Some((copy, calls)) => match replayed(alloc, copy, calls) {
            Some(left) => {
                let told = left.text.as_str() == found.0 && is_same(alloc, &left.set, found.1);
                drop(left);
                told
            }
            None => false,
        },
        None => false,
    }
}

// Returns the outcome of a list of calls.
fn judged(
    alloc: Global,
    answers: &[Told],
    before: &PolicySet,
    after: &PolicySet,
    row: (&str, &str),
) -> Answer {
    let (texts, want) = row;
    let place = wanting(alloc, answers);
    let text = all_told(alloc, answers, place).unwrap_or(String::new(alloc));
    let due = is_due(alloc, before, texts, place, (text.as_str(), after));
    let wanted = has_words(text.as_str(), want);
    drop(text);
    if place == NONE {
        ample_if(due && wanted)
    } else {
        memory_if(due)
    }
}

fn tried(
    alloc: Global,
    number: usize,
    sets: (PolicySet, PolicySet),
    calls: Vec<PolicyCall>,
    row: (&str, &str),
) -> CallOutcome {
    let (mut set, before) = sets;
    refuse(alloc, number);
    let answer = replay_policies(alloc, &mut set, calls);
    let refused = stop_failing(alloc);
    let answer = match answer {
        Ok(answers) => {
            let told = judged(alloc, &answers, &before, &set, row);
            drop(answers);
            told
        }
        Err(_) => memory_if(is_same(alloc, &set, &before)),
    };
    drop(set);
    drop(before);
    CallOutcome { answer, refused }
}

struct OnLists;

const LISTS: &str = "
    replay_policies | static b // static a; static a; add c; template t principal; link t l principal=x; link t m; unlink l; remove_template t; remove_static b | ok ; duplicate template or policy id `a` ; ok ; ok ; ok ; the following slots were not provided as arguments: ?principal ; l ; t ; b ;
    replay_policies | static a // keep; rename; remove_static a; add l = t principal, principal=x | duplicate template or policy id `a` ; 1 ; a ; ok ;
    replay_policies | static a // unlink a; remove_static b; remove_template a | unable to remove link with policy id `a` because it is a static policy ; unable to remove static policy id `b` from link list because it does not exist ; unable to remove template with policy id `a` because it is a static policy ;
";

impl Calls for OnLists {
    fn tried(&self, alloc: Global, number: usize, row: Row<'_>) -> CallOutcome {
        let (set, texts) = row.given.split_once(" // ").unwrap_or(("", row.given));
        let sets = both(set_of(alloc, set), set_of(alloc, set));
        match both(sets, calls_of(alloc, texts, NONE)) {
            Some((sets, calls)) => tried(alloc, number, sets, calls, (texts, row.want)),
            None => unmade(),
        }
    }
}

#[test]
fn each_list_of_calls(rt: HostRuntime) {
    assert!(rt; check_failures(rt, &OnLists, LISTS));
}

const WORKED: &str = "
# each call answers in its turn
    replay_policies | ; // static a; static a; add b; add a; template a; template t principal; link a l principal=x; link t l principal=x; link t l principal=x; remove_static a; remove_static a | ok ; duplicate template or policy id `a` ; ok ; duplicate template or policy id `a` ; duplicate template or policy id `a` ; ok ; failed to find a template with id `a` ; ok ; template-linked policy id `l` conflicts with an existing policy id ; a ; unable to remove static policy id `a` from link list because it does not exist ;
# a template with links stays
    replay_policies | ; // template t principal; link t l principal=x; link t m principal=y; remove_static l; remove_template t; unlink l; remove_template t; unlink m; remove_template t | ok ; ok ; ok ; unable to remove static policy id `l` from template list because it does not exist ; unable to remove template id `t` from template list because it still has active links ; l ; unable to remove template id `t` from template list because it still has active links ; m ; t ;
# ids that conflict are refused, or renamed: how many
    replay_policies | static policy0 // static a; keep; unlink x | ok ; duplicate template or policy id `a` ; unable to unlink policy id `x` because it does not exist ;
    replay_policies | static policy0 // static a; rename; remove_static policy1; unlink policy0 | ok ; 1 ; policy1 ; unable to remove link with policy id `policy0` because it is a static policy ;
    replay_policies | ; // static a forbid; keep; keep | ok ; 0 ; 0 ;
# the action's slot is bound to an action
    replay_policies | ; // template t acts; static l; link t l action=x; link t l action=Action.v; link t m principal=x; link t m action=Action::B.v; link t m action=N::Action.v; link u n action=x; link t t action=x | ok ; ok ; the action slot is bound to `A::\"x\"`, which is not an action ; template-linked policy id `l` conflicts with an existing policy id ; the following slots were not provided as arguments: ?action. The following slots were provided as arguments, but did not exist in the template: ?principal ; the action slot is bound to `Action::B::\"v\"`, which is not an action ; ok ; failed to find a template with id `u` ; the action slot is bound to `A::\"x\"`, which is not an action ;
";

#[test]
fn what_lists_of_calls_answer(rt: HostRuntime) {
    assert!(rt; worked_rows(rt, &OnLists, WORKED));
}
