// Worked examples of calls on annotations, constraints, bindings, templates and static policies. They run once, with
// enough memory.
use super::actions::OnActions;
use super::annotations::OnAnnotations;
use super::bindings::OnBindings;
use super::constraints::OnConstraints;
use super::statics::OnStatics;
use super::templates::{OnLinking, OnTemplates};
use cedar_alloc_failures::worked_rows;

const ANNOTATIONS: &str = "
# the later of a key counts, and they come by their keys
    Annotations::try_from_iter | k=1 j=2 k=3 | j 2 k 3
    Annotations::try_from_iter | b=1 a=2 ab=3 B=4 | B 4 a 2 ab 3 b 1
    Annotations::try_from_iter | if=v | if v
";

#[test]
fn what_annotations_are_made_of_pairs(rt: HostRuntime) {
    assert!(rt; worked_rows(rt, &OnAnnotations, ANNOTATIONS));
}

const CONSTRAINTS: &str = "
# each form of a constraint of a principal or a resource is displayed, and stands for an expression
    PrincipalOrResourceConstraint::display | any | resource
    PrincipalOrResourceConstraint::as_expr | any | true
    ResourceConstraint::as_expr | any | true
    PrincipalConstraint::as_expr | any | true
    PrincipalOrResourceConstraint::display | in g | resource in A::\"g\"
    PrincipalOrResourceConstraint::as_expr | in g | resource in A::\"g\"
    ResourceConstraint::as_expr | in g | resource in A::\"g\"
    PrincipalConstraint::as_expr | in g | principal in A::\"g\"
    PrincipalOrResourceConstraint::display | in ? | resource in ?resource
    PrincipalOrResourceConstraint::as_expr | in ? | resource in ?resource
    ResourceConstraint::as_expr | in ? | resource in ?resource
    PrincipalConstraint::as_expr | in ? | principal in ?principal
    PrincipalOrResourceConstraint::display | == g | resource == A::\"g\"
    PrincipalOrResourceConstraint::as_expr | == g | resource == A::\"g\"
    ResourceConstraint::as_expr | == g | resource == A::\"g\"
    PrincipalConstraint::as_expr | == g | principal == A::\"g\"
    PrincipalOrResourceConstraint::display | == ? | resource == ?resource
    PrincipalOrResourceConstraint::as_expr | == ? | resource == ?resource
    ResourceConstraint::as_expr | == ? | resource == ?resource
    PrincipalConstraint::as_expr | == ? | principal == ?principal
    PrincipalOrResourceConstraint::display | is T | resource is T
    PrincipalOrResourceConstraint::as_expr | is T | resource is T
    ResourceConstraint::as_expr | is T | resource is T
    PrincipalConstraint::as_expr | is T | principal is T
    PrincipalOrResourceConstraint::display | is T in g | resource is T in A::\"g\"
    PrincipalOrResourceConstraint::as_expr | is T in g | (resource is T) && (resource in A::\"g\")
    ResourceConstraint::as_expr | is T in g | (resource is T) && (resource in A::\"g\")
    PrincipalConstraint::as_expr | is T in g | (principal is T) && (principal in A::\"g\")
    PrincipalOrResourceConstraint::display | is T in ? | resource is T in ?resource
    PrincipalOrResourceConstraint::as_expr | is T in ? | (resource is T) && (resource in ?resource)
    ResourceConstraint::as_expr | is T in ? | (resource is T) && (resource in ?resource)
    PrincipalConstraint::as_expr | is T in ? | (principal is T) && (principal in ?principal)
";

#[test]
fn what_constraints_stand_for(rt: HostRuntime) {
    assert!(rt; worked_rows(rt, &OnConstraints, CONSTRAINTS));
}

const ACTIONS: &str = "
# constraints of actions are made, stand for expressions, and have their slots filled
    ActionConstraint::is_in |  | action in []
    ActionConstraint::is_in | Action.a | action in [Action::\"a\"]
    ActionConstraint::is_in | Action.c Action.a Action.b | action in [Action::\"c\",Action::\"a\",Action::\"b\"]
    ActionConstraint::as_expr | in  | action in []
    ActionConstraint::as_expr | == Action.a | action == Action::\"a\"
    ActionConstraint::as_expr | in Action.a Action.a | action in [Action::\"a\", Action::\"a\"]
    ActionConstraint::with_filled_slot | any, B.u | action
    ActionConstraint::with_filled_slot | in , B.u | action in []
    ActionConstraint::with_filled_slot | in Action.a, B.u | action in [Action::\"a\"]
    ActionConstraint::with_filled_slot | in Action.a Action.a, B.u | action in [Action::\"a\",Action::\"a\"]
    ActionConstraint::with_filled_slot | == Action.b, B.u | action == Action::\"b\"
    ActionConstraint::with_filled_slot | in ?, B.u | action in [B::\"u\"]
    ActionConstraint::with_filled_slot | == ?, B.u | action == B::\"u\"
# its uids and their types come from the back
    ActionConstraint::iter_euids | == ? | none
    ActionConstraint::iter_euids | in a B.b | A::\"a\" ; B::\"b\" ;
    ActionConstraint::iter_entity_type_names | in a b | A A
    ActionConstraint::iter_entity_type_names | == N::Action.a | N::Action
    ActionConstraint::iter_entity_type_names | any
    ActionConstraint::iter_entity_type_names | == ?
# uids that are no actions are named in the order of the list
    ActionConstraint::check_action_types | in Action.v User.x T.y | ! the action constraint holds uids that are not actions: User::\"x\",T::\"y\"
    ActionConstraint::check_action_types | in T.y Action.v T.y | ! the action constraint holds uids that are not actions: T::\"y\",T::\"y\"
    ActionConstraint::check_action_types | == Action::T.y | ! the action constraint holds uids that are not actions: Action::T::\"y\"
    ActionConstraint::check_action_types | any | ok
    ActionConstraint::check_action_types | in  | ok
    ActionConstraint::check_action_types | == N::Action.v | ok
    ActionConstraint::check_action_types | in Action.v A::B::Action.w | ok
    ActionConstraint::check_action_types | in ? | ok
    ActionConstraint::check_action_types | == ? | ok
    ActionConstraint::contains_only_action_types | in Action.v Action.w | action in [Action::\"v\",Action::\"w\"]
    ActionConstraint::contains_only_action_types | in ? | action in ?action
";

#[test]
fn what_calls_on_constraints_of_actions_answer(rt: HostRuntime) {
    assert!(rt; worked_rows(rt, &OnActions, ACTIONS));
}

const BINDINGS: &str = "
# bindings of the slots fit, or what is left over is listed
    check_bindings | ,  | ok
    check_bindings | principal principal, principal=p | ok
    check_bindings | resource principal, resource=r principal=p | ok
    check_bindings | resource principal resource,  | ! the following slots were not provided as arguments: ?resource,?principal,?resource
    check_bindings | resource principal resource principal principal,  | ! the following slots were not provided as arguments: ?resource,?principal,?resource,?principal,?principal
    check_bindings | , resource=r principal=p | ! the following slots were provided as arguments, but did not exist in the template: ?principal,?resource
    check_bindings | principal, resource=r | ! the following slots were not provided as arguments: ?principal. The following slots were provided as arguments, but did not exist in the template: ?resource
    check_bindings | action, action=Action.v | ok
    check_bindings | action action, action=N::Action.v | ok
    check_bindings | resource action principal, resource=r action=Action.v principal=p | ok
    check_bindings | resource action principal, principal=Action.p action=Action.v resource=Action.r | ok
    check_bindings | resource action principal,  | ! the following slots were not provided as arguments: ?resource,?action,?principal
    check_bindings | principal action resource action,  | ! the following slots were not provided as arguments: ?principal,?action,?resource,?action
    check_bindings | , resource=r action=Action.v principal=p | ! the following slots were provided as arguments, but did not exist in the template: ?principal,?action,?resource
    check_bindings | principal, action=x resource=r | ! the following slots were not provided as arguments: ?principal. The following slots were provided as arguments, but did not exist in the template: ?action,?resource
    check_bindings | action, principal=p resource=r | ! the following slots were not provided as arguments: ?action. The following slots were provided as arguments, but did not exist in the template: ?principal,?resource
    check_bindings | action, action=x | ! the action slot is bound to `A::\"x\"`, which is not an action
    check_bindings | action, action=Action::T.x | ! the action slot is bound to `Action::T::\"x\"`, which is not an action
    check_bindings | resource action principal, action=x | ! the following slots were not provided as arguments: ?resource,?principal
    check_bindings | , action=x | ! the following slots were provided as arguments, but did not exist in the template: ?action
";

#[test]
fn what_fits_a_list_of_slots(rt: HostRuntime) {
    assert!(rt; worked_rows(rt, &OnBindings, BINDINGS));
}

const LINKING: &str = "
# a template without slots is a policy
    Template::try_as_policy | t | permit( principal, action, resource );
    Template::try_as_policy | t principal | ! the following slots were not provided as arguments: ?principal
    Template::try_as_policy | t principal resource | ! the following slots were not provided as arguments: ?resource,?principal
    Template::try_as_policy | t acting | ! the following slots were not provided as arguments: ?action
    Template::try_as_policy | t principal resource acts | ! the following slots were not provided as arguments: ?resource,?action,?principal
# slots that are left unbound, that of the resource first and that of the principal last, and as often as they stand
    Template::link | t principal resource,  | ! the following slots were not provided as arguments: ?resource,?principal
    Template::link | t principal resource, principal=a | ! the following slots were not provided as arguments: ?resource
    Template::link | t principal resource, resource=a | ! the following slots were not provided as arguments: ?principal
    Template::link | t principal slot,  | ! the following slots were not provided as arguments: ?principal,?principal
    Template::link | t principal resource acts,  | ! the following slots were not provided as arguments: ?resource,?action,?principal
    Template::link | t principal resource acting, action=Action.v | ! the following slots were not provided as arguments: ?resource,?principal
    Template::link | t principal resource acting, principal=p resource=r | ! the following slots were not provided as arguments: ?action
# a slot that is not there is bound in vain
    Template::link | t principal, resource=a | ! the following slots were not provided as arguments: ?principal. The following slots were provided as arguments, but did not exist in the template: ?resource
    Template::link | t principal, resource=a principal=b | ! the following slots were provided as arguments, but did not exist in the template: ?resource
    Template::link | t, resource=a principal=b | ! the following slots were provided as arguments, but did not exist in the template: ?principal,?resource
    Template::link | t, resource=r action=Action.v principal=p | ! the following slots were provided as arguments, but did not exist in the template: ?principal,?action,?resource
    Template::link | t principal, action=Action.v | ! the following slots were not provided as arguments: ?principal. The following slots were provided as arguments, but did not exist in the template: ?action
    Template::link | t acts, resource=r action=Action.v principal=p | ! the following slots were provided as arguments, but did not exist in the template: ?principal,?resource
    Template::link | t acts, principal=p resource=r | ! the following slots were not provided as arguments: ?action. The following slots were provided as arguments, but did not exist in the template: ?principal,?resource
# the action's slot is bound to an action in any namespace, and to nothing else
    Template::link | t acts, action=Action.v | Template Instance of t, slots: [?action -> Action::\"v\"]
    Template::link | t acting, action=N::Action.v | Template Instance of t, slots: [?action -> N::Action::\"v\"]
    Template::link | t acts, action=x | ! the action slot is bound to `A::\"x\"`, which is not an action
    Template::link | t acts, action=Action::A.v | ! the action slot is bound to `Action::A::\"v\"`, which is not an action
    Template::link | t acts, action=Actions.v | ! the action slot is bound to `Actions::\"v\"`, which is not an action
    Template::link | t action_slot, action=x | ! the action slot is bound to `A::\"x\"`, which is not an action
# but bindings that do not fit are told first
    Template::link | t principal resource acts, action=x | ! the following slots were not provided as arguments: ?resource,?principal
    Template::link | t, action=x | ! the following slots were provided as arguments, but did not exist in the template: ?action
    Template::link | t acts, action=x principal=p | ! the following slots were provided as arguments, but did not exist in the template: ?principal
";

#[test]
fn what_calls_that_link_answer(rt: HostRuntime) {
    assert!(rt; worked_rows(rt, &OnLinking, LINKING));
}

const STATICS: &str = "
# a slot is refused where it stands
    StaticPolicy::new | p principal forbid | ! found slot `?principal` where slots are not allowed
    StaticPolicy::new | p acting forbid | ! found slot `?action` where slots are not allowed
# a template with a slot is no static policy
    StaticPolicy::try_from | t | permit( principal, action, resource );
";

#[test]
fn what_is_a_static_policy(rt: HostRuntime) {
    assert!(rt; worked_rows(rt, &OnStatics, STATICS));
}

const TEMPLATES: &str = "
# a template of actions is valid
    Template::try_validate | t | permit( principal, action, resource );
    Template::try_validate | t principal | permit( principal == ?principal, action, resource );
    Template::try_validate | t acts | permit( principal, action == ?action, resource );
    Template::try_validate | t principal resource acting | permit( principal == ?principal, action in ?action, resource in ?resource );
# a slot in the clause comes first, the one that the walk meets first, where it stands
    Template::try_validate | t principal user slot | ! found slot `?principal` in a condition clause
# a uid that is no action comes next, a function that is not known last
    Template::try_validate | t user foo | ! the action constraint holds uids that are not actions: User::\"x\"
    Template::try_validate | t acting foo | ! `foo` is not a known function
";

#[test]
fn which_templates_are_valid(rt: HostRuntime) {
    assert!(rt; worked_rows(rt, &OnTemplates, TEMPLATES));
}
