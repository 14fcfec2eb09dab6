// Tests of templates.
use super::actions::action;
use super::bodies::{body, has_id_and_text};
use super::cases::{made_on, of_parts, under_another_id};
use super::id;
use super::parts::{effect, parts, principal, resource, values};
use cedar_action::ActionTypesError;
use cedar_alloc_failures::{
    CallOutcome, Calls, Row, both, check_failures, copied, counted, is_worded, judged, made, on,
    same_copied, unmade, with,
};
use cedar_annotation::Annotations;
use cedar_ids::name::Name;
use cedar_ids::policy_id::PolicyID;
use cedar_policy::{SlotEnv, Template, TemplateValidationError, UnexpectedSlotError};
use cedar_terms::err::ExprValidationError;
use cedar_terms::expr::Expr;
use cedar_terms::slot::{Slot, SlotId};
use std::alloc::{AllocError, Global};
use std::rc::Rc;

pub(super) fn template(alloc: Global, text: &str) -> Option<Template> {
    match parts(alloc, text) {
        Some(made) => of_parts!(Template, alloc, text, made).ok(),
        None => None,
    }
}

pub(super) fn shared(alloc: Global, text: &str) -> Option<Rc<Template>> {
    counted(alloc, template(alloc, text))
}

// Splits a text at the comma into a template and a further text.
pub(super) fn two<'a>(given: &'a str) -> (&'a str, &'a str) {
    given.split_once(", ").unwrap_or((given, ""))
}

pub(super) struct OnTemplates;

const TEMPLATES: &str = "
    Template::new | t noted principal | @k(\"v\") permit( principal == ?principal, action, resource );
    Template::new_shared | t noted principal clause | @k(\"v\") permit( principal == ?principal, action, resource ) when { true };
    Template::from_body | t principal | permit( principal == ?principal, action, resource );
    Template::new_id | t noted principal, u | u: @k(\"v\") permit( principal == ?principal, action, resource );
    Template::condition | t principal clause | (principal == ?principal) && (true && (true && true))
    Template::condition | t acting | true && ((action in ?action) && (true && true))
    Template::clone | t noted principal resource clause
    Template::try_validate | t principal action clause | permit( principal == ?principal, action == Action::\"x\", resource ) when { true };
    Template::try_validate | t slot | ! found slot `?principal` in a condition clause
    - Template::try_validate | t user | ! the action constraint holds uids that are not actions: User::\"x\"
    Template::try_validate | t foo | ! `foo` is not a known function
";

type SharedParts = (
    ((PolicyID, Rc<Annotations>), cedar_action::ActionConstraint),
    Rc<Expr>,
);

fn shared_parts(alloc: Global, text: &str) -> Option<SharedParts> {
    match parts(alloc, text) {
        Some(((id, notes), (action, clause))) => {
            let named = both(Some(id), counted(alloc, Some(notes)));
            both(both(named, Some(action)), counted(alloc, clause))
        }
        None => None,
    }
}

fn new_shared(alloc: Global, number: usize, row: Row<'_>) -> CallOutcome {
    let text = row.given;
    with(
        alloc,
        number,
        shared_parts(alloc, text),
        |(((id, notes), action), clause)| {
            let answer = Template::new_shared(
                alloc,
                id,
                None,
                notes,
                effect(text),
                principal(text),
                action,
                resource(text),
                Some(clause),
            );
            made(alloc, answer, row.want)
        },
    )
}

fn under_another_id(alloc: Global, number: usize, row: Row<'_>) -> CallOutcome {
    under_another_id!(
        alloc,
        number,
        row,
        template,
        ", ",
        |template, id| template.new_id(id)
    )
}

impl Calls for OnTemplates {
    fn tried(&self, alloc: Global, number: usize, row: Row<'_>) -> CallOutcome {
        match row.call {
            "Template::new" => {
                with(alloc, number, parts(alloc, row.given), |parts| {
                    made(
                        alloc,
                        of_parts!(Template, alloc, row.given, parts),
                        row.want,
                    )
                })
            }
            "Template::new_shared" => new_shared(alloc, number, row),
            "Template::from_body" => {
                with(alloc, number, body(alloc, row.given), |body| {
                    made(alloc, Template::from_body(alloc, body), row.want)
                })
            }
            "Template::new_id" => under_another_id(alloc, number, row),
            "Template::condition" => made_on!(alloc, number, row, template, condition),
            "Template::clone" => same_copied(alloc, number, template(alloc, row.given)),
            "Template::try_validate" => {
                with(alloc, number, template(alloc, row.given), |template| {
                    made(alloc, template.try_validate(alloc), row.want)
                })
            }
            _ => unmade(),
        }
    }
}

#[test]
fn each_call_on_templates(rt: HostRuntime) {
    assert!(rt; check_failures(rt, &OnTemplates, TEMPLATES));
}

pub(super) struct OnLinking;

const LINKING: &str = "
    - Template::check_binding | t principal, principal=x | ok
    Template::check_binding | t principal resource, | ! the following slots were not provided as arguments: ?resource,?principal
    Template::check_binding | t, resource=x | ! the following slots were provided as arguments, but did not exist in the template: ?resource
    - Template::check_binding | t acting, action=Action.x | ok
    Template::check_binding | t acting, action=x | ! the action slot is bound to `A::\"x\"`, which is not an action
    Template::link | t principal, principal=x | Template Instance of t, slots: [?principal -> A::\"x\"]
    Template::link | t principal, resource=x | ! the following slots were not provided as arguments: ?principal. The following slots were provided as arguments, but did not exist in the template: ?resource
    Template::link | t acting, action=x | ! the action slot is bound to `A::\"x\"`, which is not an action
    Template::link_copying | t principal, principal=x | Template Instance of t, slots: [?principal -> A::\"x\"]
    Template::link_copying | t principal, resource=x | ! the following slots were not provided as arguments: ?principal. The following slots were provided as arguments, but did not exist in the template: ?resource
    Template::try_as_policy | t clause | permit( principal, action, resource ) when { true };
    Template::try_as_policy | t principal | ! the following slots were not provided as arguments: ?principal
    - TemplateValidationError::clone | slot | found slot `?principal` in a condition clause
    TemplateValidationError::clone | user | the action constraint holds uids that are not actions: User::\"x\",User::\"y\"
    - TemplateValidationError::clone | foo | `foo` is not a known function
    - TemplateValidationError::clone | cache | template slot cache is inconsistent with condition expression
    - UnexpectedSlotError::clone | slot | found slot `?principal` where slots are not allowed
";

fn given(alloc: Global, text: &str) -> Option<(Rc<Template>, SlotEnv)> {
    let (text, bound) = text.split_once(',').unwrap_or((text, ""));
    both(shared(alloc, text), values(alloc, bound))
}

fn linked(alloc: Global, number: usize, row: Row<'_>) -> CallOutcome {
    with(
        alloc,
        number,
        both(id(alloc, "l"), given(alloc, row.given)),
        |(id, (template, values))| made(
            alloc,
            Template::link(alloc, template, id, values),
            row.want,
        ),
    )
}

fn linked_copying(alloc: Global, number: usize, row: Row<'_>) -> CallOutcome {
    with(
        alloc,
        number,
        both(id(alloc, "l"), given(alloc, row.given)),
        |(id, (template, values))| {
            let linked = Template::link_copying(alloc, template, id, &values);
            drop(values);
            made(alloc, linked, row.want)
        },
    )
}

// Returns the slot of the principal.
fn slot() -> Slot {
    Slot {
        id: SlotId::Principal,
        loc: None,
    }
}

// Returns the error that two uids are not actions.
fn no_actions(alloc: Global) -> Option<TemplateValidationError> {
    match action(alloc, "in User.x User.y") {
        Some(action) => {
            let told = action.check_action_types(alloc);
            drop(action);
            match told {
                Err(ActionTypesError::NotActions(uids)) => Some(
                    TemplateValidationError::InvalidActionType(uids),
                ),
                told => {
                    drop(told);
                    None
                }
            }
        }
        None => None,
    }
}

// Returns the error that a function is unknown.
fn no_function(alloc: Global) -> Option<TemplateValidationError> {
    match Name::from_normalized_str(alloc, "foo") {
        Ok(name) => Some(TemplateValidationError::InvalidExpression(
            ExprValidationError::UnknownFunction { name },
        )),
        Err(_) => None,
    }
}

// Returns the error for a word.
fn fault(alloc: Global, word: &str) -> Option<TemplateValidationError> {
    match word {
        "slot" => Some(TemplateValidationError::SlotsInConditionClause(slot())),
        "user" => no_actions(alloc),
        "foo" => no_function(alloc),
        _ => Some(TemplateValidationError::SlotCacheMismatch),
    }
}

impl Calls for OnLinking {
    fn tried(&self, alloc: Global, number: usize, row: Row<'_>) -> CallOutcome {
        let want = row.want;
        match row.call {
            "Template::check_binding" => {
                on(
                    alloc,
                    number,
                    given(alloc, row.given),
                    |(template, values)| {
                        judged(
                            alloc,
                            Template::check_binding(alloc, template, values),
                            want,
                            |_| want == "ok",
                        )
                    },
                )
            }
            "Template::link" => linked(alloc, number, row),
            "Template::link_copying" => linked_copying(alloc, number, row),
            "Template::try_as_policy" => {
                with(alloc, number, shared(alloc, row.given), |template| {
                    made(alloc, Template::try_as_policy(alloc, template), want)
                })
            }
            "TemplateValidationError::clone" => {
                copied(alloc, number, fault(alloc, row.given), want)
            }
            "UnexpectedSlotError::clone" => {
                let fault = UnexpectedSlotError::FoundSlot(slot());
                copied(alloc, number, Some(fault), want)
            }
            _ => unmade(),
        }
    }
}

#[test]
fn each_call_that_links(rt: HostRuntime) {
    assert!(rt; check_failures(rt, &OnLinking, LINKING));
}
