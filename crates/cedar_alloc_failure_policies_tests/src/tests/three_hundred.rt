// Tests of three hundred templates, in all combinations of their parts.
//
// - Principal and resource: any, `==` or `in`, with a uid or a slot.
// - Action: any, `==` a uid or the slot, `in` one or two uids, or `in` the slot.
// - Effect: permit or forbid.
//
// Each template is linked with each combination of bound slots, and with an action's slot that is bound to an entity
// that is not an action.
use super::actions::action;
use super::constraints::{of_principal, of_resource};
use super::id;
use super::parts::values;
use super::reads::slot_word;
use cedar_alloc_failures::{both, counted, with_word};
use cedar_annotation::Annotations;
use cedar_policy::{Effect, LinkingError, Policy, StaticPolicy, Template};
use cedar_terms::slot::SlotId;
use std::alloc::{AllocError, Global};
use std::fmt::Display;

// The number of templates, and the number of templates without slots.
const TEMPLATES: usize = 300;

const STATICS: usize = 72;

// Returns one of the five constraints on a principal or resource. A slot is replaced by a uid if `is_filled` is true.
fn on(n: usize, is_filled: bool) -> &'static str {
    match n % 5 {
        0 => "any",
        1 => "== test",
        2 if is_filled => "== eid",
        2 => "== ?",
        3 => "in test",
        _ if is_filled => "in eid",
        _ => "in ?",
    }
}

// Returns one of the six constraints on an action.
fn on_action(n: usize, is_filled: bool) -> &'static str {
    match n % 6 {
        0 => "any",
        1 => "== Action.test",
        2 => "in Action.test",
        3 => "in Action.test Action.test",
        4 if is_filled => "== Action.eid",
        4 => "== ?",
        _ if is_filled => "in Action.eid",
        _ => "in ?",
    }
}

// Returns the template at an index, with its slots filled if `is_filled` is true.
fn template_at(alloc: Global, n: usize, is_filled: bool) -> Option<Template> {
    let named = both(id(alloc, "t"), action(alloc, on_action(n / 25, is_filled)));
    let scope = both(
        of_principal(alloc, on(n, is_filled)),
        of_resource(alloc, on(n / 5, is_filled)),
    );
    match both(named, scope) {
        Some(((id, action), (principal, resource))) => Template::new(
            alloc,
            id,
            None,
            Annotations::new(alloc),
            if n < 150 {
                Effect::Permit
            } else {
                Effect::Forbid
            },
            principal,
            action,
            resource,
            None,
        )
        .ok(),
        None => None,
    }
}

// Returns whether the constraint on a principal or resource has a slot.
fn has_slot(n: usize) -> bool {
    n % 5 == 2 || n % 5 == 4
}

// Returns the slots of the template at an index, in the order of the template.
fn slots_at(n: usize) -> &'static str {
    match (has_slot(n / 5), n / 25 % 6 > 3, has_slot(n)) {
        (false, false, false) => "",
        (false, false, true) => "principal",
        (false, true, false) => "action",
        (false, true, true) => "action principal",
        (true, false, false) => "resource",
        (true, false, true) => "resource principal",
        (true, true, false) => "resource action",
        (true, true, true) => "resource action principal",
    }
}

// All combinations of bound slots, in the order of slots. Those with the action also occur with a uid that is not an
// action.
const BINDS: [&str; 12] = [
    "",
    "principal=eid",
    "action=Action.eid",
    "resource=eid",
    "principal=eid action=Action.eid",
    "principal=eid resource=eid",
    "action=Action.eid resource=eid",
    "principal=eid action=Action.eid resource=eid",
    "action=eid",
    "principal=eid action=eid",
    "action=eid resource=eid",
    "principal=eid action=eid resource=eid",
];

// Returns the name of the slot in a word: the part before an equals sign, if there is one.
fn name_in(word: &str) -> &str {
    word.split_once('=').unwrap_or((word, "")).0
}

// Returns whether slots or bindings have this name.
fn have(those: &str, name: &str) -> bool {
    those.split_whitespace().any(|one| name_in(one) == name)
}

// Appends the names of slots or bindings that others do not have to a text.
fn with_others(text: Option<String>, these: &str, those: &str) -> Option<String> {
    let mut text = text;
    for one in these.split_whitespace() {
        let name = name_in(one);
        if !have(those, name) {
            text = with_word(text, name);
        }
    }
    text
}

// Returns the slots of the template at an index that bindings do not bind, and the bindings that are not slots.
fn left_over(alloc: Global, n: usize, binds: &str) -> Option<String> {
    let text = with_others(Some(String::new(alloc)), slots_at(n), binds);
    with_others(with_word(text, "/"), binds, slots_at(n))
}

// Appends the names of slots to a text.
fn with_slots(text: Option<String>, slots: &[SlotId]) -> Option<String> {
    let mut text = text;
    for slot in slots {
        text = with_word(text, slot_word(*slot).trim_start_matches('?'));
    }
    text
}

// Returns the text of an error of linking.
fn refusal(alloc: Global, error: LinkingError) -> Option<String> {
    match error {
        LinkingError::ArityError {
            unbound_values,
            extra_values,
        } => {
            let text = with_slots(Some(String::new(alloc)), &unbound_values);
            let text = with_slots(with_word(text, "/"), &extra_values);
            drop(unbound_values);
            drop(extra_values);
            text
        }
        other => {
            let text = other.to_string(alloc).ok();
            drop(other);
            text
        }
    }
}

// Appends the printed text of a value to a text, and drops the value.
fn with_shown<T: Display + Drop>(
    alloc: Global,
    text: Option<String>,
    thing: Result<T, AllocError>,
) -> Option<String> {
    match thing {
        Ok(thing) => {
            let shown = thing.to_string(alloc);
            drop(thing);
            match shown {
                Ok(shown) => {
                    let text = with_word(text, shown.as_str());
                    drop(shown);
                    text
                }
                Err(_) => None,
            }
        }
        Err(_) => None,
    }
}

// Returns the effect and the constraints of a policy.
fn scope_of(alloc: Global, policy: &Policy) -> Option<String> {
    let text = with_shown(alloc, Some(String::new(alloc)), Ok(policy.effect()));
    let text = with_shown(alloc, text, policy.principal_constraint(alloc));
    let text = with_shown(alloc, text, policy.action_constraint(alloc));
    with_shown(alloc, text, policy.resource_constraint(alloc))
}

// Returns the text of a policy, or of the error.
fn told_of(alloc: Global, answer: Result<Policy, LinkingError>) -> Option<String> {
    match answer {
        Ok(policy) => {
            let text = scope_of(alloc, &policy);
            drop(policy);
            text
        }
        Err(error) => refusal(alloc, error),
    }
}

// Links the template at an index with bindings, and returns the text of the result.
fn linked(alloc: Global, n: usize, binds: &str) -> Option<String> {
    let template = counted(alloc, template_at(alloc, n, false));
    match both(both(template, id(alloc, "l")), values(alloc, binds)) {
        Some(((template, id), values)) => told_of(
            alloc,
            Template::link(alloc, template, id, values),
        ),
        None => None,
    }
}

// Returns the expected text: unbound and extra slots, an error for the action, or the scope of the filled template.
fn due(alloc: Global, n: usize, binds: &str) -> Option<String> {
    let left = left_over(alloc, n, binds)?;
    if left.as_str().trim() != "/" {
        return Some(left);
    }
    drop(left);
    if have(binds, "action") && binds.contains("action=eid") {
        return String::from_str(
            alloc,
            "the action slot is bound to `A::\"eid\"`, which is not an action",
        )
        .ok();
    }
    match counted(alloc, template_at(alloc, n, true)) {
        Some(template) => told_of(alloc, Template::try_as_policy(alloc, template)),
        None => None,
    }
}

// Returns whether linking the template at an index with bindings has the expected result.
fn links(alloc: Global, n: usize, binds: &str) -> bool {
    match both(linked(alloc, n, binds), due(alloc, n, binds)) {
        Some((told, due)) => {
            let same = told == due;
            drop(told);
            drop(due);
            same
        }
        None => false,
    }
}

// Returns whether linking the template at an index has the expected result with all bindings.
fn links_with_each(alloc: Global, n: usize) -> bool {
    for binds in &BINDS {
        if !links(alloc, n, binds) {
            return false;
        }
    }
    true
}

#[test]
fn each_template_links_with_its_slots_bound_alone(rt: HostRuntime) {
    for n in 0..TEMPLATES {
        assert!(rt; links_with_each(rt.alloc(), n), "{n}");
    }
}

// Returns whether the template at an index can be converted to a static policy. Checks that this is possible only
// without slots.
fn is_static(alloc: Global, n: usize) -> Option<bool> {
    let template = template_at(alloc, n, false)?;
    let has_none = template.is_static() && template.slots().next().is_none();
    match StaticPolicy::try_from(template) {
        Ok(policy) => {
            drop(policy);
            if has_none { Some(true) } else { None }
        }
        Err(error) => {
            drop(error);
            if has_none { None } else { Some(false) }
        }
    }
}

#[test]
fn each_template_without_slots_is_a_static_policy(rt: HostRuntime) {
    let mut count: usize = 0;
    for n in 0..TEMPLATES {
        let told = is_static(rt.alloc(), n);
        assert!(rt; told.is_some(), "{n}");
        if told == Some(true) {
            count = count.saturating_add(1);
        }
    }
    assert!(rt; count == STATICS);
}
