//! Whether two terms, or two values, are the same.
ghost use Rattle.std.specs.Prelude.{◌≡◌, ◌↔◌, IsTrue};

use cq_theory::{EntTerm, TypeTerm, Value};

/// Whether both are the same term of an entity.
pub fn is_same_entity_term(left: &EntTerm, right: &EntTerm) -> bool
    ensures { IsTrue result ↔ (left.now ≡ right.now) }
{
    left.generator == right.generator && left.path.as_slice() == right.path.as_slice()
}

/// Whether both are the same term of a type.
#[cycle(type_terms)]
pub fn is_same_type_term(left: &TypeTerm, right: &TypeTerm) -> bool
    ensures { IsTrue result ↔ (left.now ≡ right.now) }
{
    match left {
        TypeTerm::Gen(number) => match right {
            TypeTerm::Gen(other) => *number == *other,
            TypeTerm::Const(_) => false,
            TypeTerm::Att(_, _) => false,
            TypeTerm::Fun(_, _) => false,
        },
        TypeTerm::Const(constant) => match right {
            TypeTerm::Gen(_) => false,
            TypeTerm::Const(other) => constant == other,
            TypeTerm::Att(_, _) => false,
            TypeTerm::Fun(_, _) => false,
        },
        TypeTerm::Att(attribute, term) => match right {
            TypeTerm::Gen(_) => false,
            TypeTerm::Const(_) => false,
            TypeTerm::Att(other, with) => *attribute == *other && is_same_entity_term(term, with),
            TypeTerm::Fun(_, _) => false,
        },
        TypeTerm::Fun(function, args) => match right {
            TypeTerm::Gen(_) => false,
            TypeTerm::Const(_) => false,
            TypeTerm::Att(_, _) => false,
            TypeTerm::Fun(other, others) => {
                *function == *other && are_same_type_terms(args.as_slice(), others.as_slice())
            }
        },
    }
}

#[cycle(type_terms)]
fn are_same_type_terms(left: &[TypeTerm], right: &[TypeTerm]) -> bool
    ensures { IsTrue result ↔ (left.now ≡ right.now) }
{
    if left.len() != right.len() {
        return false;
    }
    for (place, term) in left.iter().enumerate() {
        if !is_same_type_term(term, &right[place]) {
            return false;
        }
    }
    true
}

/// Whether both are the same value.
#[cycle(values)]
pub fn is_same_value(left: &Value, right: &Value) -> bool
    ensures { IsTrue result ↔ (left.now ≡ right.now) }
{
    match left {
        Value::Const(constant) => match right {
            Value::Const(other) => constant == other,
            Value::Null(_) => false,
            Value::Fun(_, _) => false,
        },
        Value::Null(label) => match right {
            Value::Const(_) => false,
            Value::Null(other) => *label == *other,
            Value::Fun(_, _) => false,
        },
        Value::Fun(function, args) => match right {
            Value::Const(_) => false,
            Value::Null(_) => false,
            Value::Fun(other, others) => {
                *function == *other && are_same_values(args.as_slice(), others.as_slice())
            }
        },
    }
}

#[cycle(values)]
fn are_same_values(left: &[Value], right: &[Value]) -> bool
    ensures { IsTrue result ↔ (left.now ≡ right.now) }
{
    if left.len() != right.len() {
        return false;
    }
    for (place, value) in left.iter().enumerate() {
        if !is_same_value(value, &right[place]) {
            return false;
        }
    }
    true
}
