// Uses of policy sets.
use super::{id_of, uid_of};
use cedar_examples::{grant, take_in};
use cedar_store::{
    ActionConstraint, Annotations, Effect, PolicySet, PrincipalConstraint, ResourceConstraint,
    StaticPolicy, Template,
};
use cedar_test_helpers::results::{beside, kept, push_text_word, written};
use std::alloc::Global;
use std::test::Fail;

// Creates a template with a slot for the principal.
fn template_of(alloc: Global, text: &str) -> Result<Template, Fail> {
    let template = Template::new(
        alloc,
        id_of(alloc, text)?,
        None,
        Annotations::new(alloc),
        Effect::Permit,
        PrincipalConstraint::is_eq_slot(),
        ActionConstraint::any(),
        ResourceConstraint::any(),
        None,
    );
    Ok(template?)
}

// Creates a static policy without constraints.
fn static_of(alloc: Global, text: &str, effect: Effect) -> Result<StaticPolicy, Fail> {
    let policy = StaticPolicy::new(
        alloc,
        id_of(alloc, text)?,
        None,
        Annotations::new(alloc),
        effect,
        PrincipalConstraint::any(),
        ActionConstraint::any(),
        ResourceConstraint::any(),
        None,
    );
    Ok(policy?)
}

// Adds a static policy.
fn add(alloc: Global, set: &mut PolicySet, text: &str, effect: Effect) -> Result<(), Fail> {
    Ok(set.add_static(alloc, static_of(alloc, text, effect)?)?)
}

// Adds a template.
fn add_template(alloc: Global, set: &mut PolicySet, text: &str) -> Result<(), Fail> {
    Ok(set.add_template(alloc, template_of(alloc, text)?)?)
}

// Creates the set of static policies with the ids.
fn set_of(alloc: Global, texts: &str, effect: Effect) -> Result<PolicySet, Fail> {
    let mut set = PolicySet::new(alloc);
    for text in texts.split_whitespace() {
        let done = add(alloc, &mut set, text, effect);
        set = kept(set, done)?;
    }
    Ok(set)
}

// Creates the set of a template and a static policy.
fn set_of_both(alloc: Global) -> Result<PolicySet, Fail> {
    let mut set = set_of(alloc, "s", Effect::Permit)?;
    let done = add_template(alloc, &mut set, "t");
    kept(set, done)
}

// Grants, and returns the text of the link or of the error.
fn granted(
    alloc: Global,
    set: &mut PolicySet,
    template: &str,
    id: &str,
    user: &str,
) -> Result<String, Fail> {
    let (template_id, (new_id, uid)) = beside(
        id_of(alloc, template)?,
        beside(id_of(alloc, id)?, uid_of(alloc, user)),
    )?;
    match grant(alloc, set, template_id, new_id, uid) {
        Ok(()) => match set.policies().last() {
            Some(policy) => Ok(policy.to_string(alloc)?),
            None => Err(Fail::new(format_args!("no link"))),
        },
        Err(error) => written(alloc, error),
    }
}

// Returns the result of granting in the set of a template and a static policy.
pub(super) fn left_by_granting(alloc: Global, asked: &str) -> Result<String, Fail> {
    let (template, rest) = asked.split_once(' ').unwrap_or((asked, ""));
    let (id, user) = rest.split_once(' ').unwrap_or((rest, ""));
    let mut set = set_of_both(alloc)?;
    let told = granted(alloc, &mut set, template, id, user);
    drop(set);
    told
}

// Returns a number and the ids of a set's policies.
fn ids_of(alloc: Global, set: &PolicySet, number: usize) -> Result<String, Fail> {
    let mut text = format!(in alloc; "{number}:")?;
    for policy in set.policies() {
        let done = push_text_word(&mut text, " ");
        text = kept(text, done)?;
        let done = push_text_word(&mut text, policy.id().as_ref());
        text = kept(text, done)?;
    }
    Ok(text)
}

// Merges a set of policies that forbid into a set of policies that permit. Returns the number of renamed ids and the
// ids afterwards.
pub(super) fn left_by_taking_in(alloc: Global, given: &str, asked: &str) -> Result<String, Fail> {
    let (mut set, other) = beside(
        set_of(alloc, given, Effect::Permit)?,
        set_of(alloc, asked, Effect::Forbid),
    )?;
    let renamed = take_in(alloc, &mut set, &other);
    drop(other);
    let told = match renamed {
        Ok(renamed) => ids_of(alloc, &set, renamed),
        Err(error) => written(alloc, error),
    };
    drop(set);
    told
}
