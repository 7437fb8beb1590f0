//! The first fault of terms and equations as they are written.
ghost use Rattle.std.specs.Prelude.{◌≡◌, ◌+◌, ◌<◌, ◌||◌, if◌then◌else◌, MatchOption, Some, None, sum, map};
ghost use Rattle.cq_theory.specs.Resolve.{raw_symbols, is_too_large as too_large, term_fault as fault_of_term};
ghost use Rattle.cq_theory.specs.Resolve.{has_unknown as unknown_in, has_wrong_count as wrong_count_in};
ghost use Rattle.cq_theory.specs.Resolve.{has_reserved as reserved_in};
ghost use Rattle.cq_theory.specs.Resolve.{in_part, are_of_one_sort};

use crate::lookup::passes::{has_reserved, has_unknown, has_wrong_count, sort_of_raw};
use crate::presentation::Sort;
use crate::refusal::{TermRefusal, TheoryRefusal};
use crate::schema::Schema;
use cq_base::{Names, Raw};

/// The room that is left after the symbols of the term, if there is room for them.
fn room_left(raw: &Raw, room: u64) -> Option<u64>
    ensures { MatchOption result (room < raw_symbols raw.now) (λ left. raw_symbols raw.now + left ≡ room) }
{
    match raw {
        Raw::Word(_) => room.checked_sub(1),
        Raw::Text(_) => room.checked_sub(1),
        Raw::App(_, args) => {
            let mut left = room.checked_sub(1)?;
            for arg in args.as_slice() {
                left = room_left(arg, left)?;
            }
            Some(left)
        }
    }
}

/// Whether the term has over 1,024 symbols.
pub fn is_too_large(raw: &Raw) -> bool
    ensures { result ≡ too_large raw.now }
{
    room_left(raw, 1024).is_none()
}

/// The least rule that a term without a sort breaks.
fn unsorted_rule(schema: &Schema, names: &Names, raw: &Raw) -> TermRefusal
    ensures { result ≡ (if unknown_in schema.now names.now raw.now then TermRefusal.Unknown
        else (if wrong_count_in schema.now raw.now then TermRefusal.WrongCount else TermRefusal.WrongSort)) }
{
    if has_unknown(schema, names, raw) {
        TermRefusal::Unknown
    } else if has_wrong_count(schema, raw) {
        TermRefusal::WrongCount
    } else {
        TermRefusal::WrongSort
    }
}

/// The least rule that a term with a sort breaks.
fn sorted_rule(schema: &Schema, raw: &Raw) -> Option<TermRefusal>
    ensures { result ≡ (if reserved_in schema.now raw.now then Some TermRefusal.Reserved
        else (if too_large raw.now then Some TermRefusal.TooLarge else None)) }
{
    if has_reserved(schema, raw) {
        Some(TermRefusal::Reserved)
    } else if is_too_large(raw) {
        Some(TermRefusal::TooLarge)
    } else {
        None
    }
}

/// The least rule that the term breaks. One that has a sort has only declared names, and each symbol in it its count
/// of arguments, so these rules are asked for only where there is no sort.
pub(crate) fn term_fault(
    schema: &Schema,
    names: &Names,
    sorts: &[Sort],
    raw: &Raw,
) -> Option<TermRefusal>
    ensures { result ≡ fault_of_term schema.now names.now sorts.now raw.now }
{
    match sort_of_raw(schema, names, sorts, raw) {
        None => Some(unsorted_rule(schema, names, raw)),
        Some(_) => sorted_rule(schema, raw),
    }
}

/// Whether both are there and are the same sort.
pub fn have_one_sort(left: Option<Sort>, right: Option<Sort>) -> bool
    ensures { result ≡ are_of_one_sort left right }
{
    match (left, right) {
        (Some(Sort::Plain(left)), Some(Sort::Plain(right))) => left == right,
        (Some(Sort::Entity(left)), Some(Sort::Entity(right))) => left == right,
        _ => false,
    }
}

/// The least rule that an equation breaks whose sides aren't of one sort.
pub(crate) fn unsorted_sides_rule(
    schema: &Schema,
    names: &Names,
    left: &Raw,
    right: &Raw,
) -> TermRefusal
    ensures { result ≡ (if unknown_in schema.now names.now left.now || unknown_in schema.now names.now right.now
        then TermRefusal.Unknown
        else (if wrong_count_in schema.now left.now || wrong_count_in schema.now right.now then TermRefusal.WrongCount
        else TermRefusal.WrongSort)) }
{
    if has_unknown(schema, names, left) || has_unknown(schema, names, right) {
        TermRefusal::Unknown
    } else if has_wrong_count(schema, left) || has_wrong_count(schema, right) {
        TermRefusal::WrongCount
    } else {
        TermRefusal::WrongSort
    }
}

/// The least rule that an equation breaks whose sides are of one sort.
pub(crate) fn sorted_sides_rule(schema: &Schema, left: &Raw, right: &Raw) -> Option<TermRefusal>
    ensures { result ≡ (if reserved_in schema.now left.now || reserved_in schema.now right.now
        then Some TermRefusal.Reserved
        else (if too_large left.now || too_large right.now then Some TermRefusal.TooLarge else None)) }
{
    if has_reserved(schema, left) || has_reserved(schema, right) {
        Some(TermRefusal::Reserved)
    } else if is_too_large(left) || is_too_large(right) {
        Some(TermRefusal::TooLarge)
    } else {
        None
    }
}

/// A rule, broken by this part of the call.
pub fn in_part_of(part: u32, rule: TermRefusal) -> TheoryRefusal
    ensures { result ≡ in_part part rule }
{
    match rule {
        TermRefusal::Unknown => TheoryRefusal::Unknown(part),
        TermRefusal::WrongCount => TheoryRefusal::WrongCount(part),
        TermRefusal::WrongSort => TheoryRefusal::WrongSort(part),
        TermRefusal::Reserved => TheoryRefusal::Reserved(part),
        TermRefusal::TooLarge => TheoryRefusal::TooLarge(part),
        TermRefusal::Memory => TheoryRefusal::Memory,
    }
}
