// Tests of expressions: printed texts, traversals and validation.
use super::{
    both, copies, copy_of, counted, has_slots, hash_of, is_eq, is_written, named, not, number,
    owned, shows, slot, truth, typed, uid, with_last,
};
use cedar_terms::err::ExprValidationError;
use cedar_terms::expr::Expr;
use cedar_terms::literal::Literal;
use cedar_terms::slot::SlotId;
use cedar_terms::unknown::Unknown;
use cedar_terms::var::Var;
use std::alloc::Global;

fn string(alloc: Global, text: &str) -> Option<Expr> {
    match owned(alloc, text) {
        Some(text) => Expr::val(alloc, Literal::String(text)).ok(),
        None => None,
    }
}

fn entity(alloc: Global, ty: &str, eid: &str) -> Option<Expr> {
    match counted(alloc, uid(alloc, ty, eid)) {
        Some(uid) => Expr::val(alloc, Literal::EntityUID(uid)).ok(),
        None => None,
    }
}

fn unknown(alloc: Global, name: &str) -> Option<Expr> {
    match owned(alloc, name) {
        Some(name) => Expr::unknown(alloc, Unknown::new_untyped(name)).ok(),
        None => None,
    }
}

fn pair(alloc: Global, first: Option<Expr>, second: Option<Expr>) -> Option<Vec<Expr>> {
    with_last(with_last(Some(Vec::new(alloc)), first), second)
}

fn set(alloc: Global, exprs: Option<Vec<Expr>>) -> Option<Expr> {
    match exprs {
        Some(exprs) => Expr::set(alloc, exprs).ok(),
        None => None,
    }
}

fn call_of(alloc: Global, name: &str, args: Option<Vec<Expr>>) -> Option<Expr> {
    match both(named(alloc, name), args) {
        Some((name, args)) => Expr::call(alloc, name, args).ok(),
        None => None,
    }
}

fn call(alloc: Global, name: &str) -> Option<Expr> {
    call_of(alloc, name, Some(Vec::new(alloc)))
}

fn and(alloc: Global, left: Option<Expr>, right: Option<Expr>) -> Option<Expr> {
    match both(left, right) {
        Some((left, right)) => Expr::and(alloc, left, right).ok(),
        None => None,
    }
}

fn is_in(alloc: Global, left: Option<Expr>, right: Option<Expr>) -> Option<Expr> {
    match both(left, right) {
        Some((left, right)) => Expr::is_in(alloc, left, right).ok(),
        None => None,
    }
}

fn is_type(alloc: Global, expr: Option<Expr>, ty: &str) -> Option<Expr> {
    match both(expr, typed(alloc, ty)) {
        Some((expr, ty)) => Expr::is_entity_type(alloc, expr, ty).ok(),
        None => None,
    }
}

fn var(alloc: Global, var: Var) -> Option<Expr> {
    Expr::var(alloc, var).ok()
}

// `2 == 1`
fn two_is_one(alloc: Global) -> Option<Expr> {
    is_eq(alloc, number(alloc, 2), number(alloc, 1))
}

// `!(2 == 1)`
fn two_is_not_one(alloc: Global) -> Option<Expr> {
    not(alloc, two_is_one(alloc))
}

// The number of expressions of `nth`.
const EXPRS: usize = 21;

// Returns expressions of each kind. No two of them are equal.
fn nth(alloc: Global, place: usize) -> Option<Expr> {
    match place {
        0 => truth(alloc),
        1 => Expr::val(alloc, Literal::Bool(false)).ok(),
        2 => number(alloc, -7),
        3 => string(alloc, "it's \"x\""),
        4 => string(alloc, "é"),
        5 => entity(alloc, "A::B", "\t"),
        6 => var(alloc, Var::Principal),
        7 => var(alloc, Var::Context),
        8 => slot(alloc, SlotId::principal()),
        9 => slot(alloc, SlotId::resource()),
        10 => unknown(alloc, "a\\b"),
        11 => set(alloc, Some(Vec::new(alloc))),
        12 => set(alloc, pair(alloc, number(alloc, 2), two_is_one(alloc))),
        13 => call(alloc, "f"),
        14 => call_of_two(alloc),
        15 => not(alloc, truth(alloc)),
        16 => and(alloc, truth(alloc), call(alloc, "f")),
        17 => two_is_one(alloc),
        18 => action_in_none(alloc),
        19 => slot(alloc, SlotId::action()),
        _ => is_type(alloc, var(alloc, Var::Resource), "N::T"),
    }
}

// `A::f(!(2 == 1), true)`
fn call_of_two(alloc: Global) -> Option<Expr> {
    call_of(
        alloc,
        "A::f",
        pair(alloc, two_is_not_one(alloc), truth(alloc)),
    )
}

// `action in []`
fn action_in_none(alloc: Global) -> Option<Expr> {
    is_in(
        alloc,
        var(alloc, Var::Action),
        set(alloc, Some(Vec::new(alloc))),
    )
}

// The printed texts of the expressions of `nth`.
const TEXTS: [&str; 21] = [
    "true",
    "false",
    "-7",
    "\"it\\'s \\\"x\\\"\"",
    "\"é\"",
    "A::B::\"\\t\"",
    "principal",
    "context",
    "?principal",
    "?resource",
    "unknown(\"a\\\\b\")",
    "[]",
    "[2, 2 == 1]",
    "f()",
    "A::f(!(2 == 1), true)",
    "!true",
    "true && f()",
    "2 == 1",
    "action in []",
    "?action",
    "resource is N::T",
];

#[test]
fn each_kind_is_written(rt: HostRuntime) {
    let alloc = rt.alloc();
    for (i, want) in TEXTS.iter().enumerate() {
        assert!(rt; shows(alloc, nth(alloc, i), want), "{want}");
    }
}

// Returns whether two expressions are equal and have equal hashes, if and only if `same` is true.
fn told_apart(a: &Expr, b: &Expr, same: bool) -> bool {
    (a == b) == same && (hash_of(a) == hash_of(b)) == same
}

// Returns whether the expressions at two indices are equal and have equal hashes, if and only if the indices are equal.
fn nth_told_apart(alloc: Global, i: usize, j: usize) -> bool {
    match both(nth(alloc, i), nth(alloc, j)) {
        Some((a, b)) => {
            let told = told_apart(&a, &b, i == j);
            drop(a);
            drop(b);
            told
        }
        None => false,
    }
}

#[test]
fn expressions_are_equal_where_they_are_the_same(rt: HostRuntime) {
    let alloc = rt.alloc();
    for i in 0..EXPRS {
        for j in 0..EXPRS {
            assert!(rt; nth_told_apart(alloc, i, j), "{i} and {j}");
        }
    }
}

#[test]
fn a_copy_is_equal(rt: HostRuntime) {
    let alloc = rt.alloc();
    for i in 0..EXPRS {
        assert!(rt; copies(nth(alloc, i)), "{i}");
    }
}

// `(!(2 == 1)) && true`
fn conjunction(alloc: Global) -> Option<Expr> {
    and(alloc, two_is_not_one(alloc), truth(alloc))
}

// `((!(2 == 1)) && true) in (2 == 1)`
fn membership(alloc: Global) -> Option<Expr> {
    is_in(alloc, conjunction(alloc), two_is_one(alloc))
}

#[test]
fn operands_that_are_no_atoms_stand_in_parentheses(rt: HostRuntime) {
    let alloc = rt.alloc();
    assert!(rt; shows(alloc, two_is_not_one(alloc), "!(2 == 1)"));
    assert!(rt; shows(alloc, conjunction(alloc), "(!(2 == 1)) && true"));
    let want = "((!(2 == 1)) && true) in (2 == 1)";
    assert!(rt; shows(alloc, membership(alloc), want));
    let test_of_type = is_type(alloc, two_is_one(alloc), "A");
    assert!(rt; shows(alloc, test_of_type, "(2 == 1) is A"));
    let not_not = not(alloc, not(alloc, call(alloc, "f")));
    assert!(rt; shows(alloc, not_not, "!(!f())"));
}

// `(resource is B) && (1 == 2)`
fn resource_part(alloc: Global) -> Option<Expr> {
    let clause = is_eq(alloc, number(alloc, 1), number(alloc, 2));
    and(
        alloc,
        is_type(alloc, var(alloc, Var::Resource), "B"),
        clause,
    )
}

// `(principal is A) && (true && ..)`
fn condition(alloc: Global) -> Option<Expr> {
    let action = and(alloc, truth(alloc), resource_part(alloc));
    and(
        alloc,
        is_type(alloc, var(alloc, Var::Principal), "A"),
        action,
    )
}

#[test]
fn the_condition_of_a_policy_is_written(rt: HostRuntime) {
    let alloc = rt.alloc();
    let want = "(principal is A) && (true && ((resource is B) && (1 == 2)))";
    assert!(rt; shows(alloc, condition(alloc), want));
}

// `(action in ?action) && (action == ?action)`
fn on_the_actions_slot(alloc: Global) -> Option<Expr> {
    let within = is_in(
        alloc,
        var(alloc, Var::Action),
        slot(alloc, SlotId::action()),
    );
    let equal = is_eq(
        alloc,
        var(alloc, Var::Action),
        slot(alloc, SlotId::action()),
    );
    and(alloc, within, equal)
}

#[test]
fn the_action_stands_beside_its_slot(rt: HostRuntime) {
    let alloc = rt.alloc();
    let want = "(action in ?action) && (action == ?action)";
    assert!(rt; shows(alloc, on_the_actions_slot(alloc), want));
    let a = SlotId::action();
    assert!(rt; has_slots(alloc, on_the_actions_slot(alloc), &[a, a]));
}

// `[?resource, ?action, ?principal]`
fn three_slots(alloc: Global) -> Option<Expr> {
    let two = pair(
        alloc,
        slot(alloc, SlotId::resource()),
        slot(alloc, SlotId::action()),
    );
    set(alloc, with_last(two, slot(alloc, SlotId::principal())))
}

// `f([?resource, ?action, ?principal], ?resource)`
fn call_of_slots(alloc: Global) -> Option<Expr> {
    call_of(
        alloc,
        "f",
        pair(alloc, three_slots(alloc), slot(alloc, SlotId::resource())),
    )
}

// `(?principal in f([?resource, ?action, ?principal], ?resource)) && (!(1 is A))`
fn with_slots(alloc: Global) -> Option<Expr> {
    let left = is_in(
        alloc,
        slot(alloc, SlotId::principal()),
        call_of_slots(alloc),
    );
    and(
        alloc,
        left,
        not(alloc, is_type(alloc, number(alloc, 1), "A")),
    )
}

// The nodes of `with_slots`, in the order of `subexpressions`.
const NODES: [&str; 12] = [
    "(?principal in f([?resource, ?action, ?principal], ?resource)) && (!(1 is A))",
    "!(1 is A)",
    "1 is A",
    "1",
    "?principal in f([?resource, ?action, ?principal], ?resource)",
    "f([?resource, ?action, ?principal], ?resource)",
    "?resource",
    "[?resource, ?action, ?principal]",
    "?principal",
    "?action",
    "?resource",
    "?principal",
];

// Returns whether expressions have these printed texts, in order.
fn are_written(alloc: Global, nodes: &Vec<&Expr>, want: &[&str]) -> bool {
    let mut all = nodes.len() == want.len();
    for (node, text) in nodes.iter().zip(want) {
        all = all && is_written(alloc, *node, text);
    }
    all
}

// Returns whether the nodes of an expression have these printed texts, in order.
fn walks(alloc: Global, made: Option<Expr>, want: &[&str]) -> bool {
    match made {
        Some(expr) => {
            let told = match expr.subexpressions(alloc) {
                Ok(nodes) => are_written(alloc, &nodes, want),
                Err(_) => false,
            };
            drop(expr);
            told
        }
        None => false,
    }
}

#[test]
fn the_walk_goes_from_the_last_child_to_the_first(rt: HostRuntime) {
    let alloc = rt.alloc();
    assert!(rt; walks(alloc, with_slots(alloc), &NODES));
}

#[test]
fn slots_come_as_the_walk_meets_them(rt: HostRuntime) {
    let alloc = rt.alloc();
    let (p, a, r) = (SlotId::principal(), SlotId::action(), SlotId::resource());
    assert!(rt; has_slots(alloc, with_slots(alloc), &[r, p, a, r, p]));
    assert!(rt; has_slots(alloc, two_is_one(alloc), &[]));
}

// `(unknown("a") == unknown("b")) && (!unknown("a"))`
fn with_unknowns(alloc: Global) -> Option<Expr> {
    let left = is_eq(alloc, unknown(alloc, "a"), unknown(alloc, "b"));
    and(alloc, left, not(alloc, unknown(alloc, "a")))
}

// Returns whether unknowns have these names, in order.
fn have_names(unknowns: &Vec<&Unknown>, want: &[&str]) -> bool {
    let same = unknowns
        .iter()
        .zip(want)
        .all(|(unknown, name)| unknown.name.as_str() == *name);
    unknowns.len() == want.len() && same
}

// Returns whether the unknowns of an expression have these names, in order.
fn has_unknowns(alloc: Global, made: Option<Expr>, want: &[&str]) -> bool {
    match made {
        Some(expr) => {
            let told = match expr.unknowns(alloc) {
                Ok(unknowns) => have_names(&unknowns, want),
                Err(_) => false,
            };
            drop(expr);
            told
        }
        None => false,
    }
}

#[test]
fn unknowns_come_as_the_walk_meets_them(rt: HostRuntime) {
    let alloc = rt.alloc();
    assert!(rt; has_unknowns(alloc, with_unknowns(alloc), &["a", "b", "a"]));
    assert!(rt; has_unknowns(alloc, two_is_one(alloc), &[]));
}

// Returns whether a result is an error that names this function. An empty name means that the result must be `Ok`.
fn names(alloc: Global, verdict: Result<(), ExprValidationError>, want: &str) -> bool {
    match verdict {
        Ok(()) => want.is_empty(),
        Err(ExprValidationError::UnknownFunction { name }) => {
            let told = is_written(alloc, &name, want);
            drop(name);
            told
        }
        Err(ExprValidationError::Memory) => false,
    }
}

// Returns whether validation returns an error that names this function. An empty name means that the expression must be
// valid.
fn refused_for(alloc: Global, made: Option<Expr>, want: &str) -> bool {
    match made {
        Some(expr) => {
            let told = names(alloc, expr.try_validate(alloc), want);
            drop(expr);
            told
        }
        None => false,
    }
}

#[test]
fn four_functions_are_known(rt: HostRuntime) {
    let alloc = rt.alloc();
    for known in &["ip", "decimal", "datetime", "duration"] {
        assert!(rt; refused_for(alloc, call(alloc, known), ""), "{known}");
    }
    for other in &["f", "i", "ipp", "Ip", "A::ip", "ip::decimal2", "durations"] {
        assert!(rt; refused_for(alloc, call(alloc, other), other), "{other}");
    }
    assert!(rt; refused_for(alloc, two_is_not_one(alloc), ""));
}

// `f(g(), h())`, with these names.
fn calls(alloc: Global, f: &str, g: &str, h: &str) -> Option<Expr> {
    call_of(alloc, f, pair(alloc, call(alloc, g), call(alloc, h)))
}

// `two(one(), ip()) && (!three())`
fn both_sides(alloc: Global) -> Option<Expr> {
    and(
        alloc,
        calls(alloc, "two", "one", "ip"),
        not(alloc, call(alloc, "three")),
    )
}

#[test]
fn the_first_unknown_function_of_the_walk_is_named(rt: HostRuntime) {
    let alloc = rt.alloc();
    assert!(rt; refused_for(alloc, calls(alloc, "two", "one", "ip"), "two"));
    assert!(rt; refused_for(alloc, calls(alloc, "ip", "one", "two"), "two"));
    assert!(rt; refused_for(alloc, calls(alloc, "ip", "one", "decimal"), "one"));
    assert!(rt; refused_for(alloc, both_sides(alloc), "three"));
}

fn refusal(alloc: Global) -> Option<ExprValidationError> {
    match named(alloc, "A::ip") {
        Some(name) => Some(ExprValidationError::UnknownFunction { name }),
        None => None,
    }
}

// Returns whether an error is `Memory`.
fn is_memory(made: Option<ExprValidationError>) -> bool {
    match made {
        Some(ExprValidationError::Memory) => true,
        Some(ExprValidationError::UnknownFunction { name }) => {
            drop(name);
            false
        }
        None => false,
    }
}

#[test]
fn refusals_are_written(rt: HostRuntime) {
    let alloc = rt.alloc();
    let want = "`A::ip` is not a known function";
    assert!(rt; shows(alloc, refusal(alloc), want));
    assert!(rt; shows(alloc, copy_of(refusal(alloc)), want));
    assert!(rt; shows(alloc, Some(ExprValidationError::Memory), "out of memory"));
    assert!(rt; is_memory(copy_of(Some(ExprValidationError::Memory))));
}
