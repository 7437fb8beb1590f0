//! An order of the variables of a block that is not their own, and what is numbered by it.
ghost use Rattle.std.specs.Prelude.{ℕ, ◌≡◌, ◌<◌, ◌^◌, true, IfOk, IfSome, length, map};
ghost use Rattle.cq_eval.specs.Order.{IsBack, IsOrder, picked as picked_numbers};
ghost use Rattle.cq_eval.specs.Order.{renumbered, renamed_entity, renamed_type, renamed};

use cq_base::{Seq, number_at};
use cq_theory::{EntTerm, Equation, TypeTerm};
use std::alloc::{AllocError, Global};

/// The variables in the order in which they are bound, and the place of each in it.
pub(crate) struct Order {
    pub(crate) order: Seq<u32>,
    pub(crate) places: Seq<u32>,
}

impl Drop for Order {
    fn drop(self) {
        let Self {
            order: _,
            places: _,
        } = self;
    }
}

/// Whether each number stands at its own place.
fn is_identity(order: &[u32]) -> bool {
    order
        .iter()
        .enumerate()
        .all(|(place, variable)| place == *variable as usize)
}

/// For each number the last place at which it stands.
fn places_of(alloc: Global, order: &[u32]) -> Result<Vec<u32>, AllocError>
    requires { length order.now < 2 ^ 32 }
{
    let mut places = Vec::from_slice(alloc, order)?;
    for place in 0..order.len() as u32 {
        let variable = number_at(order, place as usize);
        if let Some(slot) = places.get_mut(variable as usize) {
            *slot = place;
        }
    }
    Ok(places)
}

/// Whether a number of the first list is a place of the second, at which its own place stands.
fn is_back(numbers: &[u32], places: &[u32], number: usize) -> bool
    ensures { result ≡ true → IsBack numbers.now places.now number }
{
    let place = number_at(numbers, number) as usize;
    place < places.len() && number_at(places, place) as usize == number
}

/// Whether each number of the first list is such a one.
fn leads_back(numbers: &[u32], places: &[u32]) -> bool
    ensures { result ≡ true → (n : ℕ) → n < length numbers.now → IsBack numbers.now places.now n }
{
    for number in 0..numbers.len() {
        if !is_back(numbers, places, number) {
            return false;
        }
    }
    true
}

impl Order {
    /// The order of so many variables that is a list of them, if each stands in it once and not all at their own
    /// places.
    pub(crate) fn of(
        alloc: Global,
        width: usize,
        order: Vec<u32>,
    ) -> Result<Option<Order>, AllocError>
        ensures { IfOk result (λ made. IfSome made (λ found. IsOrder width found.order found.places)) }
    {
        if order.len() != width || width > u32::MAX as usize || is_identity(order.as_slice()) {
            return Ok(None);
        }
        let places = places_of(alloc, order.as_slice())?;
        if places.len() != width
            || !leads_back(order.as_slice(), places.as_slice())
            || !leads_back(places.as_slice(), order.as_slice())
        {
            return Ok(None);
        }
        Ok(Some(Order {
            order: Seq::from_vec(order),
            places: Seq::from_vec(places),
        }))
    }
}

/// The numbers that stand at these places.
pub(crate) fn picked(alloc: Global, places: &[u32], numbers: &[u32]) -> Result<Vec<u32>, AllocError>
    ensures { IfOk result (λ made. made.items ≡ picked_numbers places.now numbers.now) }
{
    let mut made = Vec::with_capacity(alloc, places.len())?;
    for place in places {
        made.push(number_at(numbers, *place as usize))?;
    }
    Ok(made)
}

/// The place of a variable. A number that is none stays.
fn renumber(places: &[u32], variable: u32) -> u32
    ensures { result ≡ renumbered places.now variable }
{
    match places.get(variable as usize) {
        Some(place) => *place,
        None => variable,
    }
}

fn rename_entity(alloc: Global, places: &[u32], term: &EntTerm) -> Result<EntTerm, AllocError>
    ensures { IfOk result (λ made. made ≡ renamed_entity places.now term.now) }
{
    Ok(EntTerm {
        generator: renumber(places, term.generator),
        path: term.path.clone()?,
    })
}

fn rename_type(alloc: Global, places: &[u32], term: &TypeTerm) -> Result<TypeTerm, AllocError>
    ensures { IfOk result (λ made. made ≡ renamed_type places.now term.now) }
{
    match term {
        TypeTerm::Gen(variable) => Ok(TypeTerm::Gen(renumber(places, *variable))),
        TypeTerm::Const(constant) => Ok(TypeTerm::Const(constant.clone()?)),
        TypeTerm::Att(attribute, term) => {
            Ok(TypeTerm::Att(*attribute, rename_entity(alloc, places, term)?))
        }
        TypeTerm::Fun(function, args) => {
            let mut made = Vec::new(alloc);
            for arg in args.as_slice() {
                made.push(rename_type(alloc, places, arg)?)?;
            }
            Ok(TypeTerm::Fun(*function, Seq::from_vec(made)))
        }
    }
}

fn rename_test(alloc: Global, places: &[u32], test: &Equation) -> Result<Equation, AllocError>
    ensures { IfOk result (λ made. made ≡ renamed places.now test.now) }
{
    match test {
        Equation::Ent(left, right) => {
            let left = rename_entity(alloc, places, left)?;
            Ok(Equation::Ent(left, rename_entity(alloc, places, right)?))
        }
        Equation::Typ(left, right) => {
            let left = rename_type(alloc, places, left)?;
            Ok(Equation::Typ(left, rename_type(alloc, places, right)?))
        }
    }
}

/// The where equations over the variables as they are numbered by their places.
pub(crate) fn renamed_tests(
    alloc: Global,
    places: &[u32],
    tests: &[Equation],
) -> Result<Vec<Equation>, AllocError>
    ensures { IfOk result (λ made. made.items ≡ map (renamed places.now) tests.now) }
{
    let mut made = Vec::with_capacity(alloc, tests.len())?;
    for test in tests {
        made.push(rename_test(alloc, places, test)?)?;
    }
    Ok(made)
}
