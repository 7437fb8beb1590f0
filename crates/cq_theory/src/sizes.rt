//! The limit of 1,024 symbols on terms and values.
ghost use Rattle.std.specs.Prelude.{◌≡◌, ◌<◌, ◌+◌, MatchOption, nat_lt};
ghost use Rattle.std.specs.List.{list_any};
ghost use Rattle.cq_theory.specs.EntTerm as ent;
ghost use Rattle.cq_theory.specs.Presentation.{has_long_side as is_long_on_a_side};
ghost use Rattle.cq_theory.specs.TypeTerm as typ;
ghost use Rattle.cq_theory.specs.Value.{symbols_of};

use crate::presentation::Equation;
use crate::term::{EntTerm, TypeTerm};
use crate::value::Value;

/// The room that is left after the symbols of a term, if there is room for them.
fn room_left(term: &TypeTerm, room: u64) -> Option<u64>
    ensures { MatchOption result (room < typ.symbols_of term.now) (λ left. typ.symbols_of term.now + left ≡ room) }
{
    match term {
        TypeTerm::Gen(_) => room.checked_sub(1),
        TypeTerm::Const(_) => room.checked_sub(1),
        TypeTerm::Att(_, at) => {
            let left = room.checked_sub(2)?;
            left.checked_sub(at.path.len() as u64)
        }
        TypeTerm::Fun(_, args) => {
            let mut left = room.checked_sub(1)?;
            for arg in args.as_slice() {
                left = room_left(arg, left)?;
            }
            Some(left)
        }
    }
}

/// The room that is left after the symbols of a value, if there is room for them.
fn room_after(value: &Value, room: u64) -> Option<u64>
    ensures { MatchOption result (room < symbols_of value.now) (λ left. symbols_of value.now + left ≡ room) }
{
    match value {
        Value::Const(_) => room.checked_sub(1),
        Value::Null(_) => room.checked_sub(1),
        Value::Fun(_, args) => {
            let mut left = room.checked_sub(1)?;
            for arg in args.as_slice() {
                left = room_after(arg, left)?;
            }
            Some(left)
        }
    }
}

/// Whether an entity term has over 1,024 symbols.
pub fn is_long_entity(term: &EntTerm) -> bool
    ensures { result ≡ nat_lt 1024 (ent.symbols_of term.now) }
{
    term.path.len() > 1023
}

/// Whether a type term has over 1,024 symbols.
pub fn is_long_type(term: &TypeTerm) -> bool
    ensures { result ≡ nat_lt 1024 (typ.symbols_of term.now) }
{
    room_left(term, 1024).is_none()
}

/// Whether a value has over 1,024 symbols.
pub fn is_long_value(value: &Value) -> bool
    ensures { result ≡ nat_lt 1024 (symbols_of value.now) }
{
    room_after(value, 1024).is_none()
}

fn has_long_side(equation: &Equation) -> bool
    ensures { result ≡ is_long_on_a_side equation.now }
{
    match equation {
        Equation::Ent(left, right) => is_long_entity(left) || is_long_entity(right),
        Equation::Typ(left, right) => is_long_type(left) || is_long_type(right),
    }
}

/// Whether a side of one of the equations has over 1,024 symbols.
pub fn has_long_sides(equations: &[Equation]) -> bool
    ensures { result ≡ list_any is_long_on_a_side equations.now }
{
    for equation in equations {
        if has_long_side(equation) {
            return true;
        }
    }
    false
}
