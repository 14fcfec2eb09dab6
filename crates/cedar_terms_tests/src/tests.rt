// Helpers that build and inspect values and expressions. They pass values as `Option`, where `None` means that the
// value could not be created. Helpers that inspect a value drop it, and return `false` for `None`. So no test owns a
// value while another operation may fail.
mod exprs;
mod values;

use cedar_ids::entity::EntityUID;
use cedar_ids::loc::Loc;
use cedar_terms::expr::Expr;
use cedar_terms::literal::Literal;
use cedar_terms::slot::{Slot, SlotId};
use cedar_terms::value::{ExtensionValue, Value, ValueKind};
use cedar_test_helpers::creation::{
    both, copies, copy_of, counted, differ, hash_of, is_written, named, owned, shows, start_of,
    typed, uid, with_last,
};
use std::alloc::Global;
use std::rc::RcStr;

// Creates a location of one character.
fn place(alloc: Global, start: usize) -> Option<Loc> {
    match RcStr::from_str(alloc, "a text of some length") {
        Ok(src) => Some(Loc::new(start, start.saturating_add(1), src)),
        Err(_) => None,
    }
}

fn literal_of(literal: Literal) -> Value {
    Value::new(ValueKind::Lit(literal), None)
}

fn long(n: i64) -> Value {
    literal_of(Literal::Long(n))
}

fn boolean(b: bool) -> Value {
    literal_of(Literal::Bool(b))
}

fn text(alloc: Global, text: &str) -> Option<Value> {
    match owned(alloc, text) {
        Some(text) => Some(literal_of(Literal::String(text))),
        None => None,
    }
}

fn entity(alloc: Global, ty: &str, eid: &str) -> Option<Value> {
    match counted(alloc, uid(alloc, ty, eid)) {
        Some(uid) => Some(literal_of(Literal::EntityUID(uid))),
        None => None,
    }
}

// Creates the set of some values, without a location.
fn set_of(alloc: Global, values: Option<Vec<Value>>) -> Option<Value> {
    match values {
        Some(values) => Value::set(alloc, values, None).ok(),
        None => None,
    }
}

// Creates the record of some pairs, without a location.
fn record_of(alloc: Global, pairs: Option<Vec<(String, Value)>>) -> Option<Value> {
    match pairs {
        Some(pairs) => Value::record(alloc, pairs, None).ok(),
        None => None,
    }
}

fn longs(alloc: Global, numbers: &[i64]) -> Option<Value> {
    let mut values = Some(Vec::new(alloc));
    for n in numbers {
        values = with_last(values, Some(long(*n)));
    }
    set_of(alloc, values)
}

fn record(alloc: Global, pairs: &[(&str, i64)]) -> Option<Value> {
    let mut fields = Some(Vec::new(alloc));
    for (key, n) in pairs {
        fields = with_last(fields, both(owned(alloc, key), Some(long(*n))));
    }
    record_of(alloc, fields)
}

// Creates the call of a function with one text.
fn called(alloc: Global, func: &str, arg: &str) -> Option<ExtensionValue> {
    match both(named(alloc, func), owned(alloc, arg)) {
        Some((func, arg)) => Some(ExtensionValue { func, arg }),
        None => None,
    }
}

fn extension(alloc: Global, func: &str, arg: &str) -> Option<Value> {
    match counted(alloc, called(alloc, func, arg)) {
        Some(extension) => Some(Value::new(ValueKind::ExtensionValue(extension), None)),
        None => None,
    }
}

fn number(alloc: Global, n: i64) -> Option<Expr> {
    Expr::val(alloc, Literal::Long(n)).ok()
}

fn truth(alloc: Global) -> Option<Expr> {
    Expr::val(alloc, Literal::Bool(true)).ok()
}

fn slot(alloc: Global, id: SlotId) -> Option<Expr> {
    Expr::slot(alloc, id).ok()
}

fn not(alloc: Global, expr: Option<Expr>) -> Option<Expr> {
    match expr {
        Some(expr) => Expr::not(alloc, expr).ok(),
        None => None,
    }
}

fn is_eq(alloc: Global, left: Option<Expr>, right: Option<Expr>) -> Option<Expr> {
    match both(left, right) {
        Some((left, right)) => Expr::is_eq(alloc, left, right).ok(),
        None => None,
    }
}

// Returns the slots of an expression.
fn slots_of(alloc: Global, made: Option<Expr>) -> Option<Vec<Slot>> {
    match made {
        Some(expr) => {
            let slots = expr.slots(alloc);
            drop(expr);
            slots.ok()
        }
        None => None,
    }
}

// Returns whether an expression has exactly these slots.
fn has_slots(alloc: Global, made: Option<Expr>, want: &[SlotId]) -> bool {
    match slots_of(alloc, made) {
        Some(slots) => {
            let told = are_slots(&slots, want);
            drop(slots);
            told
        }
        None => false,
    }
}

fn are_slots(slots: &Vec<Slot>, want: &[SlotId]) -> bool {
    let same = slots.iter().zip(want).all(|(slot, id)| slot.id == *id);
    slots.len() == want.len() && same
}
