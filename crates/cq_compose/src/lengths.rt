//! The symbols of the terms of a composite's block, as numbers, so that a term over the limit is never made.
ghost use Rattle.std.specs.Prelude.{◌≡◌, ◌+◌, ◌<◌, MatchOption, length, nat_lt, slice_index_or};
ghost use Rattle.std.specs.List.{list_any};
ghost use Rattle.cq_theory.specs.EntTerm as ent;
ghost use Rattle.cq_theory.specs.EntTerm.{alone as generator_alone};
ghost use Rattle.cq_theory.specs.Presentation.{has_long_side};
ghost use Rattle.cq_theory.specs.TypeTerm as typ;
ghost use Rattle.cq_query.specs.Translation.{attribute_term};
ghost use Rattle.cq_query.specs.Duties.{equal_terms};
ghost use Rattle.cq_compose.specs.Composite.{translated, translated_test};
ghost use Rattle.cq_compose.specs.Counting.{keys_of, put_symbols, translated_symbols};
ghost use Rattle.cq_compose.specs.Counting.{has_long_test as is_test_long, has_long_attribute as is_attribute_long};
ghost use Rattle.cq_compose.specs.Counting.{has_long_key as is_key_long};
ghost use Rattle.cq_compose.specs.Frame.{terms_of, component_along};

use crate::frame::{Frame, assigned_term, component_count};
use cq_base::Seq;
use cq_query::translation::found_term;
use cq_theory::{EntTerm, Equation, TypeTerm};

/// The room that is left after the foreign keys of a component of what stands at the end of a path from a variable, if
/// there is room for them.
fn room_after(frame: &Frame, variable: u32, path: &[u32], place: usize, room: u64) -> Option<u64>
    ensures { MatchOption result (room < length (component_along frame.now variable path.now place).path)
        (λ left. length (component_along frame.now variable path.now place).path + left ≡ room) }
{
    match path.split_last() {
        None => Some(room),
        Some((key, before)) => match assigned_term(frame.first, *key, place) {
            None => Some(room),
            Some(term) => {
                let from = term.generator as usize;
                let left = room.checked_sub(term.path.len() as u64)?;
                room_after(frame, variable, before, from, left)
            }
        },
    }
}

/// The room that is left after the foreign keys of a component of a term, if there is room for them.
fn room_after_component(frame: &Frame, term: &EntTerm, place: usize, room: u64) -> Option<u64>
    ensures { MatchOption result (room < keys_of frame.now term.now place)
        (λ left. keys_of frame.now term.now place + left ≡ room) }
{
    room_after(frame, term.generator, term.path.as_slice(), place, room)
}

/// The room that is left after the symbols of a term of the first query with the components of a term in place of its
/// generators, if there is room for them.
fn room_after_put(frame: &Frame, at: &EntTerm, term: &TypeTerm, room: u64) -> Option<u64>
    ensures { MatchOption result (room < put_symbols frame.now at.now term.now)
        (λ left. put_symbols frame.now at.now term.now + left ≡ room) }
{
    match term {
        TypeTerm::Gen(_) => room.checked_sub(1),
        TypeTerm::Const(_) => room.checked_sub(1),
        TypeTerm::Att(_, term) => {
            let left = room.checked_sub(2)?;
            let left = left.checked_sub(term.path.len() as u64)?;
            room_after_component(frame, at, term.generator as usize, left)
        }
        TypeTerm::Fun(_, args) => {
            let mut left = room.checked_sub(1)?;
            for arg in args.as_slice() {
                left = room_after_put(frame, at, arg, left)?;
            }
            Some(left)
        }
    }
}

/// The same of the first query's term of an attribute.
fn room_after_attribute(frame: &Frame, at: &EntTerm, attribute: u32, room: u64) -> Option<u64>
    ensures { MatchOption result (room < put_symbols frame.now at.now (attribute_term frame.now.first.now attribute))
        (λ left. put_symbols frame.now at.now (attribute_term frame.now.first.now attribute) + left ≡ room) }
{
    match found_term(frame.first, attribute) {
        Some(term) => room_after_put(frame, at, term, room),
        None => room.checked_sub(1),
    }
}

/// The room that is left after the symbols of a type term of the second query, with the first query's terms for
/// attributes on the components, if there is room for them.
fn room_after_translated(frame: &Frame, term: &TypeTerm, room: u64) -> Option<u64>
    ensures { MatchOption result (room < translated_symbols frame.now term.now)
        (λ left. translated_symbols frame.now term.now + left ≡ room) }
{
    match term {
        TypeTerm::Gen(_) => room.checked_sub(1),
        TypeTerm::Const(_) => room.checked_sub(1),
        TypeTerm::Att(attribute, at) => room_after_attribute(frame, at, *attribute, room),
        TypeTerm::Fun(_, args) => {
            let mut left = room.checked_sub(1)?;
            for arg in args.as_slice() {
                left = room_after_translated(frame, arg, left)?;
            }
            Some(left)
        }
    }
}

/// Whether a component of a term has over 1,024 symbols.
fn is_long_component(frame: &Frame, term: &EntTerm, place: usize) -> bool
    ensures { result ≡ nat_lt 1024
        (ent.symbols_of (slice_index_or (terms_of frame.now term.now) place (generator_alone 0))) }
{
    room_after_component(frame, term, place, 1023).is_none()
}

/// Whether the translation of a type term has over 1,024 symbols.
pub(crate) fn is_long_translated(frame: &Frame, term: &TypeTerm) -> bool
    ensures { result ≡ nat_lt 1024 (typ.symbols_of
        (translated frame.now.first.now frame.now.second.now frame.now.entity term.now)) }
{
    room_after_translated(frame, term, 1024).is_none()
}

/// Whether some component of a term has over 1,024 symbols.
pub(crate) fn has_long_component(frame: &Frame, term: &EntTerm) -> bool
    ensures { result ≡ list_any (λ t. nat_lt 1024 (ent.symbols_of t)) (terms_of frame.now term.now) }
{
    for place in 0..component_count(frame, term) {
        if is_long_component(frame, term, place) {
            return true;
        }
    }
    false
}

/// Whether a side of one of the equations between the components of two terms has over 1,024 symbols.
fn has_long_pair(frame: &Frame, left: &EntTerm, right: &EntTerm) -> bool
    ensures { result ≡ list_any has_long_side
        (equal_terms (terms_of frame.now left.now) (terms_of frame.now right.now)) }
{
    let count = component_count(frame, left).min(component_count(frame, right));
    for place in 0..count {
        if is_long_component(frame, left, place) || is_long_component(frame, right, place) {
            return true;
        }
    }
    false
}

/// Whether a side of one of the equations that a where equation gives has over 1,024 symbols.
fn has_long_test(frame: &Frame, test: &Equation) -> bool
    ensures { result ≡ list_any has_long_side
        (translated_test frame.now.first.now frame.now.second.now frame.now.entity test.now) }
{
    match test {
        Equation::Ent(left, right) => has_long_pair(frame, left, right),
        Equation::Typ(left, right) => {
            is_long_translated(frame, left) || is_long_translated(frame, right)
        }
    }
}

/// The same of one of the where equations.
pub(crate) fn any_long_test(frame: &Frame, tests: &[Equation]) -> bool
    ensures { result ≡ is_test_long frame.now.first.now frame.now.second.now frame.now.entity tests.now }
{
    for test in tests {
        if has_long_test(frame, test) {
            return true;
        }
    }
    false
}

/// Whether the translation of one of the terms has over 1,024 symbols.
pub(crate) fn any_long_attribute(frame: &Frame, terms: &[TypeTerm]) -> bool
    ensures { result ≡ is_attribute_long frame.now.first.now frame.now.second.now frame.now.entity terms.now }
{
    for term in terms {
        if is_long_translated(frame, term) {
            return true;
        }
    }
    false
}

/// Whether a component of one of the terms has over 1,024 symbols.
fn any_long_component(frame: &Frame, terms: &[EntTerm]) -> bool
    ensures { result ≡ list_any (λ t. list_any (λ s. nat_lt 1024 (ent.symbols_of s)) (terms_of frame.now t))
        terms.now }
{
    for term in terms {
        if has_long_component(frame, term) {
            return true;
        }
    }
    false
}

/// The same of the terms of one of the foreign keys.
pub(crate) fn any_long_key(frame: &Frame, keys: &[Seq<EntTerm>]) -> bool
    ensures { result ≡ is_key_long frame.now.first.now frame.now.second.now frame.now.entity keys.now }
{
    for terms in keys {
        if any_long_component(frame, terms.as_slice()) {
            return true;
        }
    }
    false
}
