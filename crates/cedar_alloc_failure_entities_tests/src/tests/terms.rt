// Tests of expressions and their contents. An expression is a word: a Boolean, a number, a variable, a slot, `text`,
// `unknown`, `foo()`, or a slot below two or eight levels, `deep2` or `deep8`. Several words are a set.
use super::{named, typed, uid};
use cedar_alloc_failures::{
    CallOutcome, Calls, Row, are_worded, both, check_failures, copied, counted, is_worded, judged,
    made, on, owned, refuse, same_copied, unmade, with, with_last,
};
use cedar_ids::entity::EntityUID;
use cedar_terms::expr::Expr;
use cedar_terms::literal::Literal;
use cedar_terms::slot::{Slot, SlotId};
use cedar_terms::static_type::{StaticType, StaticallyTyped};
use cedar_terms::unknown::Unknown;
use cedar_terms::var::Var;
use std::alloc::Global;

// Returns an unknown with this name. A type after a colon is its annotation.
pub(super) fn unknown(alloc: Global, text: &str) -> Option<Unknown> {
    match text.split_once(':') {
        None => match owned(alloc, text) {
            Some(name) => Some(Unknown::new_untyped(name)),
            None => None,
        },
        Some((name, ty)) => match both(owned(alloc, name), typed(alloc, ty)) {
            Some((name, ty)) => Some(Unknown::new_with_type(name, StaticType::Entity { ty })),
            None => None,
        },
    }
}

// Returns a literal: a Boolean, a string, a uid or a number.
pub(super) fn literal(alloc: Global, word: &str) -> Option<Literal> {
    match word {
        "true" => Some(Literal::Bool(true)),
        "text" => match owned(alloc, word) {
            Some(text) => Some(Literal::String(text)),
            None => None,
        },
        "uid" => match counted(alloc, uid(alloc, "A::\"a\"")) {
            Some(uid) => Some(Literal::EntityUID(uid)),
            None => None,
        },
        _ => match word.parse::<i64>() {
            Ok(n) => Some(Literal::Long(n)),
            Err(_) => None,
        },
    }
}

// Returns a call of a function without arguments.
fn called(alloc: Global, name: &str) -> Option<Expr> {
    match named(alloc, name) {
        Some(name) => Expr::call(alloc, name, Vec::new(alloc)).ok(),
        None => None,
    }
}

fn unknown_expr(alloc: Global, text: &str) -> Option<Expr> {
    match unknown(alloc, text) {
        Some(unknown) => Expr::unknown(alloc, unknown).ok(),
        None => None,
    }
}

// Returns the set of an expression and the number 1.
fn beside_one(alloc: Global, inner: Expr) -> Option<Expr> {
    let number = Expr::val(alloc, Literal::Long(1)).ok();
    match with_last(with_last(Some(Vec::new(alloc)), Some(inner)), number) {
        Some(both) => Expr::set(alloc, both).ok(),
        None => None,
    }
}

// Returns a slot below this many levels, which are sets and negations alternately.
fn deep(alloc: Global, levels: usize) -> Option<Expr> {
    let mut all = Expr::slot(alloc, SlotId::Principal).ok();
    for level in 0..levels {
        all = match all {
            Some(inner) if level % 2 == 0 => beside_one(alloc, inner),
            Some(inner) => Expr::not(alloc, inner).ok(),
            None => None,
        };
    }
    all
}

// Returns the expression for a word.
fn one(alloc: Global, word: &str) -> Option<Expr> {
    match word {
        "principal" => Expr::var(alloc, Var::Principal).ok(),
        "?principal" => Expr::slot(alloc, SlotId::Principal).ok(),
        "?resource" => Expr::slot(alloc, SlotId::Resource).ok(),
        "unknown" => unknown_expr(alloc, "u"),
        "foo()" => called(alloc, "foo"),
        "ip()" => called(alloc, "ip"),
        "deep2" => deep(alloc, 2),
        "deep8" => deep(alloc, 8),
        _ => match literal(alloc, word) {
            Some(literal) => Expr::val(alloc, literal).ok(),
            None => None,
        },
    }
}

fn all(alloc: Global, words: &str) -> Option<Vec<Expr>> {
    let mut all = Some(Vec::new(alloc));
    for word in words.split_whitespace() {
        all = with_last(all, one(alloc, word));
    }
    all
}

fn two(alloc: Global, words: &str) -> Option<(Expr, Expr)> {
    let (left, right) = words.split_once(' ').unwrap_or((words, ""));
    both(one(alloc, left), one(alloc, right))
}

// Returns the expression for some words.
pub(super) fn expr(alloc: Global, words: &str) -> Option<Expr> {
    if !words.contains(' ') {
        return one(alloc, words);
    }
    match all(alloc, words) {
        Some(all) => Expr::set(alloc, all).ok(),
        None => None,
    }
}

struct OnLeaves;

const LEAVES: &str = "
    - Expr::val | true | true
    - Expr::val | text | \"text\"
    - Expr::var | principal | principal
    - Expr::slot | ?principal | ?principal
    Expr::unknown | u | unknown(\"u\")
    Literal::clone | text | \"text\"
    - Literal::clone | 1 | 1
    - Literal::clone | uid | A::\"a\"
    Unknown::clone | u | unknown(\"u\")
    Unknown::clone | u:A::B | unknown(\"u\")
    Expr::clone | text | \"text\"
    - Expr::clone | 1 true | [1, true]
    - Expr::clone | foo() | foo()
    - Expr::clone | ?principal | ?principal
    - Expr::clone | deep2 | ![?principal, 1]
";

impl Calls for OnLeaves {
    fn tried(&self, alloc: Global, number: usize, row: Row<'_>) -> CallOutcome {
        match row.call {
            "Expr::val" => {
                with(alloc, number, literal(alloc, row.given), |literal| {
                    made(alloc, Expr::val(alloc, literal), row.want)
                })
            }
            "Expr::var" => {
                refuse(alloc, number);
                made(alloc, Expr::var(alloc, Var::Principal), row.want)
            }
            "Expr::slot" => {
                refuse(alloc, number);
                made(alloc, Expr::slot(alloc, SlotId::Principal), row.want)
            }
            "Expr::unknown" => {
                with(alloc, number, unknown(alloc, row.given), |unknown| {
                    made(alloc, Expr::unknown(alloc, unknown), row.want)
                })
            }
            "Literal::clone" => copied(alloc, number, literal(alloc, row.given), row.want),
            "Unknown::clone" => copied(alloc, number, unknown(alloc, row.given), row.want),
            "Expr::clone" => copied(alloc, number, expr(alloc, row.given), row.want),
            _ => unmade(),
        }
    }
}

#[test]
fn each_call_that_makes_a_leaf(rt: HostRuntime) {
    assert!(rt; check_failures(rt, &OnLeaves, LEAVES));
}

struct OnNodes;

const NODES: &str = "
    Expr::set | 1 true | [1, true]
    Expr::call | foo 1 2 | foo(1, 2)
    Expr::not | true | !true
    Expr::and | true ?principal | true && ?principal
    Expr::is_eq | 1 2 | 1 == 2
    Expr::is_in | principal ?principal | principal in ?principal
    Expr::is_entity_type | principal A::B | principal is A::B
";

fn called_on(alloc: Global, number: usize, row: Row<'_>) -> CallOutcome {
    let (name, args) = row.given.split_once(' ').unwrap_or((row.given, ""));
    with(
        alloc,
        number,
        both(named(alloc, name), all(alloc, args)),
        |(name, args)| made(alloc, Expr::call(alloc, name, args), row.want),
    )
}

fn is_of_type(alloc: Global, number: usize, row: Row<'_>) -> CallOutcome {
    let (word, ty) = row.given.split_once(' ').unwrap_or((row.given, ""));
    with(
        alloc,
        number,
        both(one(alloc, word), typed(alloc, ty)),
        |(operand, ty)| made(alloc, Expr::is_entity_type(alloc, operand, ty), row.want),
    )
}

impl Calls for OnNodes {
    fn tried(&self, alloc: Global, number: usize, row: Row<'_>) -> CallOutcome {
        match row.call {
            "Expr::set" => {
                with(alloc, number, all(alloc, row.given), |all| {
                    made(alloc, Expr::set(alloc, all), row.want)
                })
            }
            "Expr::call" => called_on(alloc, number, row),
            "Expr::not" => {
                with(alloc, number, one(alloc, row.given), |operand| {
                    made(alloc, Expr::not(alloc, operand), row.want)
                })
            }
            "Expr::and" => {
                with(alloc, number, two(alloc, row.given), |(left, right)| {
                    made(alloc, Expr::and(alloc, left, right), row.want)
                })
            }
            "Expr::is_eq" => {
                with(alloc, number, two(alloc, row.given), |(left, right)| {
                    made(alloc, Expr::is_eq(alloc, left, right), row.want)
                })
            }
            "Expr::is_in" => {
                with(alloc, number, two(alloc, row.given), |(left, right)| {
                    made(alloc, Expr::is_in(alloc, left, right), row.want)
                })
            }
            "Expr::is_entity_type" => is_of_type(alloc, number, row),
            _ => unmade(),
        }
    }
}

#[test]
fn each_call_that_makes_a_node(rt: HostRuntime) {
    assert!(rt; check_failures(rt, &OnNodes, NODES));
}

struct OnTrees;

const TREES: &str = "
    Expr::subexpressions | 1 true ?principal | [1, true, ?principal] ; ?principal ; true ; 1 ;
    Expr::slots | ?principal 1 ?resource ?principal | ?principal ?resource ?principal
    Expr::subexpressions | deep2 | ![?principal, 1] ; [?principal, 1] ; 1 ; ?principal ;
    Expr::slots | 1
    Expr::slots | deep8 | ?principal
    Expr::slots | deep8 deep2 deep8 | ?principal ?principal ?principal
    Expr::unknowns | unknown 1 unknown | u ; u ;
    Expr::try_validate | 1 ip() | ok
    Expr::try_validate | deep8 foo() deep8 | ! `foo` is not a known function
    Expr::try_validate | 1 foo() | ! `foo` is not a known function
    - EntityUID::type_of | A::B::\"a\" | A::B
    - StaticType::clone | A::B
    - Slot::clone | ?principal
    - ExprValidationError::clone | foo | `foo` is not a known function
";

fn are_slots(alloc: Global, slots: &[Slot], want: &str) -> bool {
    let mut due = want.split_whitespace();
    for slot in slots {
        match due.next() {
            Some(word) if is_worded(alloc, &slot.id, word) => {}
            _ => return false,
        }
    }
    due.next().is_none()
}

pub(super) fn is_type(alloc: Global, told: &StaticType, want: &str) -> bool {
    match told {
        StaticType::Entity { ty } => is_worded(alloc, ty, want),
    }
}

// Returns whether unknowns have these names, in order.
fn are_unknowns(alloc: Global, unknowns: &[&Unknown], want: &str) -> bool {
    let mut names = Some(Vec::new(alloc));
    for unknown in unknowns {
        names = with_last(names, Some(unknown.name.as_str()));
    }
    match names {
        Some(names) => {
            let told = are_worded(alloc, names.as_slice(), want);
            drop(names);
            told
        }
        None => false,
    }
}

impl Calls for OnTrees {
    fn tried(&self, alloc: Global, number: usize, row: Row<'_>) -> CallOutcome {
        let want = row.want;
        match row.call {
            "Expr::subexpressions" => {
                on(alloc, number, expr(alloc, row.given), |expr| {
                    judged(alloc, expr.subexpressions(alloc), want, |nodes| {
                        are_worded(alloc, nodes.as_slice(), want)
                    })
                })
            }
            "Expr::slots" => {
                on(alloc, number, expr(alloc, row.given), |expr| {
                    judged(alloc, expr.slots(alloc), want, |slots| {
                        are_slots(alloc, slots.as_slice(), want)
                    })
                })
            }
            "Expr::unknowns" => {
                on(alloc, number, expr(alloc, row.given), |expr| {
                    judged(alloc, expr.unknowns(alloc), want, |unknowns| {
                        are_unknowns(alloc, unknowns.as_slice(), want)
                    })
                })
            }
            "Expr::try_validate" => {
                on(alloc, number, expr(alloc, row.given), |expr| {
                    judged(alloc, expr.try_validate(alloc), want, |_| want == "ok")
                })
            }
            "EntityUID::type_of" => {
                on(alloc, number, uid(alloc, row.given), |uid| {
                    judged(
                        alloc,
                        uid.type_of(alloc),
                        want,
                        |ty| is_type(alloc, ty, want),
                    )
                })
            }
            _ => copies(alloc, number, row),
        }
    }
}

// Returns an error that names a function.
fn fault(alloc: Global, name: &str) -> Option<cedar_terms::ExprValidationError> {
    match named(alloc, name) {
        Some(name) => Some(cedar_terms::ExprValidationError::UnknownFunction { name }),
        None => None,
    }
}

fn copies(alloc: Global, number: usize, row: Row<'_>) -> CallOutcome {
    match row.call {
        "StaticType::clone" => match typed(alloc, row.given) {
            Some(ty) => same_copied(alloc, number, Some(StaticType::Entity { ty })),
            None => unmade(),
        },
        "Slot::clone" => {
            let slot = Slot {
                id: SlotId::Principal,
                loc: super::place(alloc),
            };
            same_copied(alloc, number, Some(slot))
        }
        "ExprValidationError::clone" => copied(alloc, number, fault(alloc, row.given), row.want),
        _ => unmade(),
    }
}

#[test]
fn each_call_on_a_tree(rt: HostRuntime) {
    assert!(rt; check_failures(rt, &OnTrees, TREES));
}
