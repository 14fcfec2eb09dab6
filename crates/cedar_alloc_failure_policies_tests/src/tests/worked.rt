// Worked examples of calls on policy sets. They run once, with enough memory. After `@` the case has the bodies and
// policies of the set after the call, in the form of `reads`.
use super::sets::{OnMerging, OnSets};
use super::whole_sets::OnWholeSets;
use cedar_alloc_failures::worked_rows;

const SETS: &str = "
# a static policy asks for a free id
    PolicySet::add_static | static a | ok @ a / a
    PolicySet::add_static | static a; static a | ! duplicate template or policy id `a` @ a / a
    PolicySet::add_static | static a; static a forbid | ! duplicate template or policy id `a` @ a / a
    PolicySet::add_static | template a; static a | ! duplicate template or policy id `a` @ a /
    PolicySet::add_static | template a principal; static a | ! duplicate template or policy id `a` @ a ?principal /
    PolicySet::add_static | add a = t principal, principal=x; static a | ! duplicate template or policy id `a` @ t ?principal / a = t ?principal x
# a template asks for a free id
    PolicySet::add_template | template a | ok @ a /
    PolicySet::add_template | template a principal | ok @ a ?principal /
    PolicySet::add_template | static a; template a | ! duplicate template or policy id `a` @ a / a
    PolicySet::add_template | static a; template a principal | ! duplicate template or policy id `a` @ a / a
    PolicySet::add_template | template a; template a | ! duplicate template or policy id `a` @ a /
    PolicySet::add_template | template a; template a principal | ! duplicate template or policy id `a` @ a /
    PolicySet::add_template | template a principal; template a | ! duplicate template or policy id `a` @ a ?principal /
    PolicySet::add_template | template a principal; template a principal | ! duplicate template or policy id `a` @ a ?principal /
    PolicySet::add_template | add a = t principal, principal=x; template a | ! duplicate template or policy id `a` @ t ?principal / a = t ?principal x
    PolicySet::add_template | add a = t principal, principal=x; template a principal | ! duplicate template or policy id `a` @ t ?principal / a = t ?principal x
# a static policy that is added asks for a free id
    PolicySet::add | add a | ok @ a / a
    PolicySet::add | static a; add a | ! duplicate template or policy id `a` @ a / a
    PolicySet::add | static a; add a forbid | ! duplicate template or policy id `a` @ a / a
    PolicySet::add | template a; add a | ! duplicate template or policy id `a` @ a /
    PolicySet::add | template a principal; add a | ! duplicate template or policy id `a` @ a ?principal /
    PolicySet::add | add a = t principal, principal=x; add a | ! duplicate template or policy id `a` @ t ?principal / a = t ?principal x
# a link that is added asks for an equal template: the template of the link has the id.
    PolicySet::add | add l = a, | ok @ a / l = a
    PolicySet::add | static a; add l = a, | ! duplicate template or policy id `a` @ a / a
    PolicySet::add | static a; add l = a principal, principal=x | ! duplicate template or policy id `a` @ a / a
    PolicySet::add | template a; add l = a, | ok @ a / l = a
    PolicySet::add | template a; add l = a forbid, | ! duplicate template or policy id `a` @ a /
    PolicySet::add | template a; add l = a principal, principal=x | ! duplicate template or policy id `a` @ a /
    PolicySet::add | template a principal; add l = a, | ! duplicate template or policy id `a` @ a ?principal /
    PolicySet::add | template a principal; add l = a principal, principal=x | ok @ a ?principal / l = a ?principal x
    PolicySet::add | template a principal; add l = a resource, resource=x | ! duplicate template or policy id `a` @ a ?principal /
    PolicySet::add | add a = t principal, principal=x; add l = a, | ! duplicate template or policy id `a` @ t ?principal / a = t ?principal x
    PolicySet::add | add a = t principal, principal=x; add l = a principal, principal=x | ! duplicate template or policy id `a` @ t ?principal / a = t ?principal x
# a link that is added asks for a free id: the link itself has the id; its template is missing, or there, or another's.
    PolicySet::add | static a; add a = t, | ! duplicate template or policy id `a` @ a / a
    PolicySet::add | template a; add a = t, | ! duplicate template or policy id `a` @ a /
    PolicySet::add | template a principal; add a = t, | ! duplicate template or policy id `a` @ a ?principal /
    PolicySet::add | add a = u,; add a = t, | ! duplicate template or policy id `a` @ u / a = u
    PolicySet::add | template t; static a; add a = t, | ! duplicate template or policy id `a` @ t a / a
    PolicySet::add | template t; template a; add a = t, | ! duplicate template or policy id `a` @ t a /
    PolicySet::add | template t; template a principal; add a = t, | ! duplicate template or policy id `a` @ t a ?principal /
    PolicySet::add | add a = t,; add a = t, | ! duplicate template or policy id `a` @ t / a = t
    PolicySet::add | static t; static a; add a = t, | ! duplicate template or policy id `t` @ t a / t a
    PolicySet::add | static t; add a = u,; add a = t, | ! duplicate template or policy id `t` @ t u / t a = u
# linking asks for a template
    PolicySet::link | link a l | ! failed to find a template with id `a` @ /
    PolicySet::link | static a; link a l | ! failed to find a template with id `a` @ a / a
    PolicySet::link | template a; link a l | l @ a / l = a
    PolicySet::link | template a principal; link a l principal=x | l @ a ?principal / l = a ?principal x
    PolicySet::link | add a = t,; link a l | ! failed to find a template with id `a` @ t / a = t
    PolicySet::link | add a = t,; link a a | ! failed to find a template with id `a` @ t / a = t
# linking asks for a free id
    PolicySet::link | template t; link t a | a @ t / a = t
    PolicySet::link | template t; static a; link t a | ! template-linked policy id `a` conflicts with an existing policy id @ t a / a
    PolicySet::link | template t; template a; link t a | ! template-linked policy id `a` conflicts with an existing policy id @ t a /
    PolicySet::link | template t; template a principal; link t a | ! template-linked policy id `a` conflicts with an existing policy id @ t a ?principal /
    PolicySet::link | add a = t,; link t a | ! template-linked policy id `a` conflicts with an existing policy id @ t / a = t
    PolicySet::link | add a = u principal, principal=x; template t; link t a | ! template-linked policy id `a` conflicts with an existing policy id @ u ?principal t / a = u ?principal x
# each kind is taken out by its own call
    PolicySet::unlink | unlink a | ! unable to unlink policy id `a` because it does not exist @ /
    PolicySet::unlink | static a; unlink a | ! unable to remove link with policy id `a` because it is a static policy @ a / a
    PolicySet::unlink | template a principal; unlink a | ! unable to remove link with policy id `a` because it is a static policy @ a ?principal /
    PolicySet::unlink | add a = t,; unlink a | Template Instance of t, slots: [] @ t /
    PolicySet::remove_static | remove_static a | ! unable to remove static policy id `a` from link list because it does not exist @ /
    PolicySet::remove_static | static a; remove_static a | permit( principal, action, resource ); @ /
    PolicySet::remove_static | template a; remove_static a | ! unable to remove static policy id `a` from link list because it does not exist @ a /
    PolicySet::remove_static | add a = t,; remove_static a | ! unable to remove static policy id `a` from template list because it does not exist @ t / a = t
    PolicySet::remove_template | remove_template a | ! unable to remove template id `a` from template list because it does not exist @ /
    PolicySet::remove_template | static a; remove_template a | ! unable to remove template with policy id `a` because it is a static policy @ a / a
    PolicySet::remove_template | template a principal; remove_template a | permit( principal == ?principal, action, resource ); @ /
    PolicySet::remove_template | add a = t,; remove_template a | ! unable to remove template with policy id `a` because it is a static policy @ t / a = t
# a static policy is no template to link
    PolicySet::link | static i; link i l | ! failed to find a template with id `i` @ i / i
    PolicySet::link | static s; link t s principal=x | ! failed to find a template with id `t` @ s / s
    PolicySet::add | static s; add s = s, | ! duplicate template or policy id `s` @ s / s
    PolicySet::add | static s; add l = s, | ! duplicate template or policy id `s` @ s / s
# a link may not have its templates id
    PolicySet::add | add u = u, | ! duplicate template or policy id `u` @ /
    PolicySet::add | add u = u principal, principal=x | ! duplicate template or policy id `u` @ /
    PolicySet::add | template u principal; add u = u principal, principal=x | ! duplicate template or policy id `u` @ u ?principal /
    PolicySet::link | template u principal; link u u principal=x | ! template-linked policy id `u` conflicts with an existing policy id @ u ?principal /
# a template with links stays
    PolicySet::remove_static | template t principal; link t l principal=x; link t m principal=y; remove_static l | ! unable to remove static policy id `l` from template list because it does not exist @ t ?principal / l = t ?principal x m = t ?principal y
    PolicySet::remove_template | template t principal; link t l principal=x; link t m principal=y; remove_template t | ! unable to remove template id `t` from template list because it still has active links @ t ?principal / l = t ?principal x m = t ?principal y
    PolicySet::unlink | template t principal; link t l principal=x; link t m principal=y; unlink l | Template Instance of t, slots: [?principal -> A::\"x\"] @ t ?principal / m = t ?principal y
    PolicySet::get_linked_policies | template t principal; link t l principal=x; link t m principal=y; unlink l; links t | m @ t ?principal / m = t ?principal y
    PolicySet::remove_template | template t principal; link t l principal=x; unlink l; remove_template t | permit( principal == ?principal, action, resource ); @ /
    PolicySet::get_linked_policies | template t principal; link t l principal=x; unlink l; links t |  @ t ?principal /
# what is taken out leaves no gap
    PolicySet::remove_static | static a; static b; static c; remove_static a | permit( principal, action, resource ); @ b c / b c
    PolicySet::add_static | static a; static b; static c; remove_static b; static b | ok @ a c b / a c b
    PolicySet::remove_template | template a; template b principal; template c forbid; remove_template b | permit( principal == ?principal, action, resource ); @ a c forbid /
    PolicySet::unlink | template t principal; link t l principal=x; static a; link t m principal=y; unlink l | Template Instance of t, slots: [?principal -> A::\"x\"] @ t ?principal a / a m = t ?principal y
    PolicySet::remove_static | static a; template t; static b; remove_static a | permit( principal, action, resource ); @ t b / b
# a link that is added brings its template
    PolicySet::add | add l = t principal, principal=x | ok @ t ?principal / l = t ?principal x
    PolicySet::add | add l = t principal, principal=x; add l = t principal, principal=y | ! duplicate template or policy id `l` @ t ?principal / l = t ?principal x
    PolicySet::add | add l = t principal, principal=x; add m = t principal, principal=y | ok @ t ?principal / l = t ?principal x m = t ?principal y
    PolicySet::add | add l = t principal, principal=x; add m = t resource forbid, resource=z | ! duplicate template or policy id `t` @ t ?principal / l = t ?principal x
    PolicySet::add | add l = t principal, principal=x; add m = t principal forbid, principal=y | ! duplicate template or policy id `t` @ t ?principal / l = t ?principal x
    PolicySet::add | static a; add l = t,; add m = t, | ok @ a t / a l = t m = t
    PolicySet::add | static l; add l = t principal, principal=x | ! duplicate template or policy id `l` @ l / l
# bindings are looked at before the new id
    PolicySet::link | static a; template t principal; link t a | ! the following slots were not provided as arguments: ?principal @ a t ?principal / a
    PolicySet::link | static a; template t principal; link t a principal=x | ! template-linked policy id `a` conflicts with an existing policy id @ a t ?principal / a
    PolicySet::link | template t principal resource; link t l | ! the following slots were not provided as arguments: ?resource,?principal @ t ?resource ?principal /
    PolicySet::link | template t principal; link t l resource=x | ! the following slots were not provided as arguments: ?principal. The following slots were provided as arguments, but did not exist in the template: ?resource @ t ?principal /
    PolicySet::link | template t principal; link t l principal=x resource=y | ! the following slots were provided as arguments, but did not exist in the template: ?resource @ t ?principal /
    PolicySet::link | template t; link t l principal=x resource=y | ! the following slots were provided as arguments, but did not exist in the template: ?principal,?resource @ t /
    PolicySet::link | template t principal slot; link t l | ! the following slots were not provided as arguments: ?principal,?principal @ t ?principal ?principal /
    PolicySet::link | template t principal resource; link t l principal=p resource=a | l @ t ?resource ?principal / l = t ?principal p ?resource a
    PolicySet::link | template t; link t l | l @ t / l = t
# the action's slot is bound as the others are, and what is told of slots has it in its place
    PolicySet::add_template | template t acts | ok @ t ?action /
    PolicySet::link | template t acts; link t l action=Action.v | l @ t ?action / l = t ?action v
    PolicySet::link | template t acting; link t l action=Action.v | l @ t ?action / l = t ?action v
    PolicySet::link | template t acts forbid; link t l action=Action.v | l @ t ?action forbid / l = t ?action v
    PolicySet::link | template t principal acts; link t l principal=x action=Action.v | l @ t ?action ?principal / l = t ?principal x ?action v
    PolicySet::link | template t resource acts; link t l action=Action.v resource=y | l @ t ?resource ?action / l = t ?action v ?resource y
    PolicySet::link | template t principal resource acts; link t l principal=x action=Action.v resource=y | l @ t ?resource ?action ?principal / l = t ?principal x ?action v ?resource y
    PolicySet::link | template t principal resource acts; link t l | ! the following slots were not provided as arguments: ?resource,?action,?principal @ t ?resource ?action ?principal /
    PolicySet::link | template t principal resource acts; link t l action=Action.v | ! the following slots were not provided as arguments: ?resource,?principal @ t ?resource ?action ?principal /
    PolicySet::link | template t principal resource acts; link t l principal=x resource=y | ! the following slots were not provided as arguments: ?action @ t ?resource ?action ?principal /
    PolicySet::link | template t acts action_slot; link t l | ! the following slots were not provided as arguments: ?action,?action @ t ?action ?action /
    PolicySet::link | template t principal resource acts action_slot; link t l principal=x | ! the following slots were not provided as arguments: ?action,?resource,?action @ t ?action ?resource ?action ?principal /
    PolicySet::link | template t; link t l action=Action.v | ! the following slots were provided as arguments, but did not exist in the template: ?action @ t /
    PolicySet::link | template t; link t l principal=x action=Action.v resource=y | ! the following slots were provided as arguments, but did not exist in the template: ?principal,?action,?resource @ t /
    PolicySet::link | template t principal resource; link t l action=Action.v resource=y | ! the following slots were not provided as arguments: ?principal. The following slots were provided as arguments, but did not exist in the template: ?action @ t ?resource ?principal /
    PolicySet::link | template t acts; link t l principal=x | ! the following slots were not provided as arguments: ?action. The following slots were provided as arguments, but did not exist in the template: ?principal @ t ?action /
# the action's slot is bound to an action: that is looked at after the lists
    PolicySet::link | template t acts; link t l action=X | ! the action slot is bound to `A::\"X\"`, which is not an action @ t ?action /
    PolicySet::link | template t acting; link t l action=X | ! the action slot is bound to `A::\"X\"`, which is not an action @ t ?action /
    PolicySet::link | template t principal resource acts; link t l principal=x action=X resource=y | ! the action slot is bound to `A::\"X\"`, which is not an action @ t ?resource ?action ?principal /
    PolicySet::link | template t action_slot; link t l action=X | ! the action slot is bound to `A::\"X\"`, which is not an action @ t ?action /
    PolicySet::link | template t principal resource acts; link t l action=X | ! the following slots were not provided as arguments: ?resource,?principal @ t ?resource ?action ?principal /
    PolicySet::link | template t principal resource acts; link t l principal=x action=X | ! the following slots were not provided as arguments: ?resource @ t ?resource ?action ?principal /
    PolicySet::link | template t acts; link t l action=X resource=y | ! the following slots were provided as arguments, but did not exist in the template: ?resource @ t ?action /
    PolicySet::link | template t principal; link t l principal=x action=X | ! the following slots were provided as arguments, but did not exist in the template: ?action @ t ?principal /
    PolicySet::link | template t; link t l action=X | ! the following slots were provided as arguments, but did not exist in the template: ?action @ t /
# the template before it, and the new id after it
    PolicySet::link | link t l action=X | ! failed to find a template with id `t` @ /
    PolicySet::link | static t; link t l action=X | ! failed to find a template with id `t` @ t / t
    PolicySet::link | static l; template t acts; link t l action=X | ! the action slot is bound to `A::\"X\"`, which is not an action @ l t ?action / l
    PolicySet::link | static l; template t acts; link t l action=Action.v | ! template-linked policy id `l` conflicts with an existing policy id @ l t ?action / l
    PolicySet::link | template t acts; link t t action=X | ! the action slot is bound to `A::\"X\"`, which is not an action @ t ?action /
    PolicySet::link | template t acts; link t t action=Action.v | ! template-linked policy id `t` conflicts with an existing policy id @ t ?action /
    PolicySet::link | template t acts; link t l action=Action.v; link t l action=X | ! the action slot is bound to `A::\"X\"`, which is not an action @ t ?action / l = t ?action v
    PolicySet::link | template t acts; link t l action=Action.v; link t l action=Action.w | ! template-linked policy id `l` conflicts with an existing policy id @ t ?action / l = t ?action v
    PolicySet::link | static l; template t principal resource acts; link t l action=Action.v | ! the following slots were not provided as arguments: ?resource,?principal @ l t ?resource ?action ?principal / l
# a link of such a template is added, listed and taken out as others are
    PolicySet::add | add l = t acts, action=Action.v | ok @ t ?action / l = t ?action v
    PolicySet::get_linked_policies | add l = t principal resource acts, principal=x action=Action.v resource=y; add m = t principal resource acts, principal=x action=Action.w resource=y; links t | l m @ t ?resource ?action ?principal / l = t ?principal x ?action v ?resource y m = t ?principal x ?action w ?resource y
    PolicySet::add | template t acts; add l = t acting, action=Action.v | ! duplicate template or policy id `t` @ t ?action /
    PolicySet::add | template t acts; add l = t principal, principal=x | ! duplicate template or policy id `t` @ t ?action /
    PolicySet::unlink | template t acts; link t l action=Action.v; unlink l | Template Instance of t, slots: [?action -> Action::\"v\"] @ t ?action /
    PolicySet::remove_template | template t acts; link t l action=Action.v; remove_template t | ! unable to remove template id `t` from template list because it still has active links @ t ?action / l = t ?action v
    PolicySet::remove_template | template t acting; remove_template t | permit( principal, action in ?action, resource ); @ /
# policies on a body are listed in their order
    PolicySet::get_linked_policies | static a; links a | a @ a / a
    PolicySet::get_linked_policies | static a; links b | ! No template `b` @ a / a
    PolicySet::get_linked_policies | add l = t,; links l | ! No template `l` @ t / l = t
    PolicySet::get_linked_policies | template t; links t |  @ t /
    PolicySet::get_linked_policies | template t principal; link t m principal=x; static a; add k = t principal, principal=y; link t l principal=x; links t | m k l @ t ?principal a / m = t ?principal x a k = t ?principal y l = t ?principal x
    PolicySet::get_linked_policies | add m = t,; add k = u,; add l = t,; unlink m; add m = t,; links t | l m @ t u / k = u l = t m = t
# a link that is taken out leaves the former set
    PolicySet::unlink | static a; template t principal; static b; link t l principal=x; unlink l | Template Instance of t, slots: [?principal -> A::\"x\"] @ a t ?principal b / a b
    PolicySet::unlink | add k = t principal, principal=y; link t l principal=x; link t m principal=z; unlink m; unlink l | Template Instance of t, slots: [?principal -> A::\"x\"] @ t ?principal / k = t ?principal y
# a link conflicts with a static policy
    PolicySet::link | static i; template t principal; link t i principal=x | ! template-linked policy id `i` conflicts with an existing policy id @ i t ?principal / i
    PolicySet::add_static | static i; static i foo | ! duplicate template or policy id `i` @ i / i
# policies are added one after another
    PolicySet::add | add i; add l = t principal, principal=x | ok @ i t ?principal / i l = t ?principal x
    PolicySet::add | add i; add l = t principal, principal=x; add l = t principal, principal=y | ! duplicate template or policy id `l` @ i t ?principal / i l = t ?principal x
    PolicySet::add | add i; add l = t principal, principal=x; add m = t principal, principal=y | ok @ i t ?principal / i l = t ?principal x m = t ?principal y
    PolicySet::add | add i; add l = t principal, principal=x; add m = t principal, principal=y; add u = t resource forbid, resource=z | ! duplicate template or policy id `t` @ i t ?principal / i l = t ?principal x m = t ?principal y
# templates are linked
    PolicySet::link | link t l | ! failed to find a template with id `t` @ /
    PolicySet::link | link t l; template t; link t l | l @ t / l = t
    PolicySet::link | template t principal resource; link t l principal=p resource=a | l @ t ?resource ?principal / l = t ?principal p ?resource a
    PolicySet::add_static | static i forbid | ok @ i forbid / i
    PolicySet::link | template t principal forbid; link t l principal=e | l @ t ?principal forbid / l = t ?principal e
# a set takes each id once
    PolicySet::add_static | static i; static i | ! duplicate template or policy id `i` @ i / i
    PolicySet::add_template | static i; template t; template t | ! duplicate template or policy id `t` @ i t / i
    PolicySet::link | static i; template t; static j forbid; template u principal; link u l principal=e | l @ i t j forbid u ?principal / i j l = u ?principal e
";

#[test]
fn what_calls_on_a_set_answer_and_leave(rt: HostRuntime) {
    assert!(rt; worked_rows(rt, &OnSets, SETS));
}

const MERGING: &str = "
# ids that conflict are renamed
    PolicySet::merge_policyset | static a // static a forbid // rename | merged a policy0 @ a policy0 forbid / a policy0
    PolicySet::merge_policyset | static a // template a // rename | merged a policy0 @ a policy0 / a
    PolicySet::merge_policyset | template a // static a // rename | merged a policy0 @ a policy0 / policy0
    PolicySet::merge_policyset | template a principal // template a resource // rename | merged a policy0 @ a ?principal policy0 ?resource /
    PolicySet::merge_policyset | static a // template t; link t a // rename | merged a policy0 @ a t / a policy0 = t
    PolicySet::merge_policyset | template t; link t a // static a // rename | merged a policy0 @ t policy0 / a = t policy0
    PolicySet::merge_policyset | template t; link t a // template u; link u a // rename | merged a policy0 @ t u / a = t policy0 = u
    PolicySet::merge_policyset | template t principal; link t a principal=x // template t principal; link t a principal=y // rename | merged a policy0 @ t ?principal / a = t ?principal x policy0 = t ?principal y
    PolicySet::merge_policyset | template t principal; link t a principal=x // template a // rename | merged a policy0 @ t ?principal policy0 / a = t ?principal x
    PolicySet::merge_policyset | template a // template t principal; link t a principal=x // rename | merged a policy0 @ a t ?principal / policy0 = t ?principal x
    PolicySet::merge_policyset | template t principal // template t resource; link t l resource=x // rename | merged t policy0 @ t ?principal policy0 ?resource / l = policy0 ?resource x
    PolicySet::merge_policyset | template t principal; link t x principal=y // template x // rename | merged x policy0 @ t ?principal policy0 / x = t ?principal y
    PolicySet::merge_policyset | static policy0; static policy1 // static policy1 forbid; static policy2 // rename | merged policy1 policy3 @ policy0 policy1 policy3 forbid policy2 / policy0 policy1 policy3 policy2
    PolicySet::merge_policyset | static a // static a forbid; static policy0 // rename | merged a policy1 @ a policy1 forbid policy0 / a policy1 policy0
# the first conflict is refused where ids keep theirs
    PolicySet::merge_policyset | static a // static a forbid // keep | ! duplicate template or policy id `a` @ a / a
    PolicySet::merge_policyset | static a // template a // keep | ! duplicate template or policy id `a` @ a / a
    PolicySet::merge_policyset | template a // static a // keep | ! duplicate template or policy id `a` @ a /
    PolicySet::merge_policyset | template a principal // template a resource // keep | ! duplicate template or policy id `a` @ a ?principal /
    PolicySet::merge_policyset | static a // template t; link t a // keep | ! duplicate template or policy id `a` @ a / a
    PolicySet::merge_policyset | template t principal; link t a principal=x // template t principal; link t a principal=y // keep | ! duplicate template or policy id `a` @ t ?principal / a = t ?principal x
    PolicySet::merge_policyset | template t principal; link t a principal=x // template a // keep | ! duplicate template or policy id `a` @ t ?principal / a = t ?principal x
    PolicySet::merge_policyset | template a // template t principal; link t a principal=x // keep | ! duplicate template or policy id `a` @ a /
    PolicySet::merge_policyset | static policy0; static policy1 // static policy1 forbid; static policy2 // keep | ! duplicate template or policy id `policy1` @ policy0 policy1 / policy0 policy1
    PolicySet::merge_policyset | static b; static a // static c; static a forbid; static b forbid // keep | ! duplicate template or policy id `a` @ b a / b a
# what is bound alike stays and the rest joins
    PolicySet::merge_policyset | ; // ; // keep | merged @ /
    PolicySet::merge_policyset | ; // ; // rename | merged @ /
    PolicySet::merge_policyset | ; // template t principal; link t l principal=x; static a // keep | merged @ t ?principal a / l = t ?principal x a
    PolicySet::merge_policyset | ; // template t principal; link t l principal=x; static a // rename | merged @ t ?principal a / l = t ?principal x a
    PolicySet::merge_policyset | template t principal; link t l principal=x; static a //  // keep | merged @ t ?principal a / l = t ?principal x a
    PolicySet::merge_policyset | template t principal; link t l principal=x; static a //  // rename | merged @ t ?principal a / l = t ?principal x a
    PolicySet::merge_policyset | static a // static a; static b // keep | merged @ a b / a b
    PolicySet::merge_policyset | static a // static a; static b // rename | merged @ a b / a b
    PolicySet::merge_policyset | static b; static a // static a; static b // keep | merged @ b a / b a
    PolicySet::merge_policyset | static b; static a // static a; static b // rename | merged @ b a / b a
    PolicySet::merge_policyset | template t principal; link t l principal=x // template t principal; link t l principal=x; link t m principal=y // keep | merged @ t ?principal / l = t ?principal x m = t ?principal y
    PolicySet::merge_policyset | template t principal; link t l principal=x // template t principal; link t l principal=x; link t m principal=y // rename | merged @ t ?principal / l = t ?principal x m = t ?principal y
# ids are renamed group after group
    PolicySet::merge_policyset | static a; template t principal; link t b principal=x; link t c principal=x // template u principal; link u t principal=x; template b resource; static c; static a forbid // rename | merged a policy0 c policy1 b policy2 t policy3 @ a t ?principal u ?principal policy2 ?resource policy1 policy0 forbid / a b = t ?principal x c = t ?principal x policy3 = u ?principal x policy1 policy0
# sets with one policy in common merge
    PolicySet::merge_policyset | static policy0; static policy1 forbid // static policy0; static policy2 action // keep | merged @ policy0 policy1 forbid policy2 / policy0 policy1 policy2
# the one id that conflicts is refused, and then renamed alone
    PolicySet::merge_policyset | static policy0; static policy1 forbid // static policy1; static policy2 action // keep | ! duplicate template or policy id `policy1` @ policy0 policy1 forbid / policy0 policy1
    PolicySet::merge_policyset | static policy0; static policy1 forbid // static policy1; static policy2 action // rename | merged policy1 policy3 @ policy0 policy1 forbid policy3 policy2 / policy0 policy1 policy3 policy2
# templates on the action's slot, and links that bind it, conflict as others do
    PolicySet::merge_policyset | template t acts // template t principal // rename | merged t policy0 @ t ?action policy0 ?principal /
    PolicySet::merge_policyset | template t acts // template t acting // rename | merged t policy0 @ t ?action policy0 ?action /
    PolicySet::merge_policyset | template t acts; link t l action=Action.v // template t acts; link t l action=Action.w // rename | merged l policy0 @ t ?action / l = t ?action v policy0 = t ?action w
    PolicySet::merge_policyset | template t acts; link t l action=Action.v // template t acting; link t l action=Action.v // rename | merged t policy0 l policy1 @ t ?action policy0 ?action / l = t ?action v policy1 = policy0 ?action v
    PolicySet::merge_policyset | template t acts; link t l action=Action.v // template t acts; link t l action=Action.v; link t m action=Action.w // rename | merged @ t ?action / l = t ?action v m = t ?action w
    PolicySet::merge_policyset | static a // template t principal resource acts; link t a principal=x action=Action.v resource=y // rename | merged a policy0 @ a t ?resource ?action ?principal / a policy0 = t ?principal x ?action v ?resource y
    PolicySet::merge_policyset | template t acts // template t acting // keep | ! duplicate template or policy id `t` @ t ?action /
    PolicySet::merge_policyset | template t acts; link t l action=Action.v // template t acts; link t l action=Action.w // keep | ! duplicate template or policy id `l` @ t ?action / l = t ?action v
    PolicySet::merge_policyset | template t acts; link t l action=Action.v // template t acts; link t l action=Action.v // keep | merged @ t ?action / l = t ?action v
";

#[test]
fn what_merges_answer_and_leave(rt: HostRuntime) {
    assert!(rt; worked_rows(rt, &OnMerging, MERGING));
}

const WHOLE: &str = "
# policies join one after another
    PolicySet::try_from_iter |  | /
    PolicySet::try_from_iter | b; a | b a / b a
    PolicySet::try_from_iter | l = t principal, principal=x; a; m = t principal, principal=y | t ?principal a / l = t ?principal x a m = t ?principal y
    PolicySet::try_from_iter | a; b; a forbid; b | ! duplicate template or policy id `a`
    PolicySet::try_from_iter | l = t,; b; l = t,; c = b, | ! duplicate template or policy id `l`
    PolicySet::try_from_iter | a; l = a, | ! duplicate template or policy id `a`
# a valid set comes back
    PolicySet::try_validate |  | /
    PolicySet::try_validate | template p action; template q action | p q /
    PolicySet::try_validate | static a; template t; template u principal resource | a t u ?resource ?principal / a
    PolicySet::try_validate | static a action; add l = t principal, principal=x; template u | a t ?principal u / a l = t ?principal x
# links come first
    PolicySet::try_validate | template t; link t l | ! link `l` references template `t` which has no slots
    PolicySet::try_validate | template b user; template t; link t l | ! link `l` references template `t` which has no slots
    PolicySet::try_validate | static a foo; add l = t, | ! link `l` references template `t` which has no slots
    PolicySet::try_validate | template u; template t; add l = t,; add k = u, | ! link `l` references template `t` which has no slots
    PolicySet::try_validate | add k = u principal, principal=x; static a; add l = t, | ! link `l` references template `t` which has no slots
    PolicySet::try_validate | template t user; link t l | ! link `l` references template `t` which has no slots
    PolicySet::try_validate | template t acts; template u acting; link t l action=Action.v | t ?action u ?action / l = t ?action v
# the first body that is not valid is named
    PolicySet::try_validate | template t action_slot | ! invalid template `t`: found slot `?action` in a condition clause
    PolicySet::try_validate | template t principal action_slot | ! invalid template `t`: found slot `?action` in a condition clause
    PolicySet::try_validate | template t slot | ! invalid template `t`: found slot `?principal` in a condition clause
    PolicySet::try_validate | template t principal slot | ! invalid template `t`: found slot `?principal` in a condition clause
    PolicySet::try_validate | template t resource_slot | ! invalid template `t`: found slot `?resource` in a condition clause
    PolicySet::try_validate | template t slot; link t l principal=x | ! invalid template `t`: found slot `?principal` in a condition clause
    PolicySet::try_validate | template t user | ! invalid template `t`: the action constraint holds uids that are not actions: User::\"x\"
    PolicySet::try_validate | static t user | ! invalid template `t`: the action constraint holds uids that are not actions: User::\"x\"
    PolicySet::try_validate | template p action; template t user | ! invalid template `t`: the action constraint holds uids that are not actions: User::\"x\"
    PolicySet::try_validate | static t foo | ! invalid template `t`: `foo` is not a known function
    PolicySet::try_validate | static b; template t foo; static a user; template u slot | ! invalid template `t`: `foo` is not a known function
    PolicySet::try_validate | static b; template t slot; static a foo | ! invalid template `t`: found slot `?principal` in a condition clause
";

#[test]
fn what_sets_are_made_and_checked_to(rt: HostRuntime) {
    assert!(rt; worked_rows(rt, &OnWholeSets, WHOLE));
}
