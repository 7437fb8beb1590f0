//! The order in which the variables of a block are bound: next is one that an index finds, then one that completes a
//! where equation, then one that a where equation joins to bound ones. So variables that where equations join, however
//! far, stand together. Where none is joined to bound ones, next is one that some equation reads alone, then one that
//! stands in some, and of these the first. Nothing is claimed of it: `Order::of` tests what it is given.
ghost use Rattle.std.specs.Prelude.{IfOk, IfSome};
ghost use Rattle.cq_eval.specs.Order.{IsOrder};

use crate::order::Order;
use cq_theory::{Equation, TypeTerm};
use std::alloc::{AllocError, Global};
use std::cmp::Reverse;
use std::collections::BinaryHeap;

/// The variables of a where equation, those of them that an index finds once the others are bound, and how many are
/// not bound.
struct Tied {
    variables: Vec<u32>,
    indexed: Vec<u32>,
    left: usize,
}

impl Drop for Tied {
    fn drop(self) {
        let Self {
            variables: _,
            indexed: _,
            left: _,
        } = self;
    }
}

/// Variables by what ties them to bound ones. One may stand in several, and bound ones are skipped.
struct Ready {
    indexed: BinaryHeap<Reverse<u32>>,
    tested: BinaryHeap<Reverse<u32>>,
    joined: BinaryHeap<Reverse<u32>>,
    alone: BinaryHeap<Reverse<u32>>,
    apart: BinaryHeap<Reverse<u32>>,
    free: BinaryHeap<Reverse<u32>>,
}

impl Drop for Ready {
    fn drop(self) {
        let Self {
            indexed: _,
            tested: _,
            joined: _,
            alone: _,
            apart: _,
            free: _,
        } = self;
    }
}

/// Appends the variables of a type term.
fn push_variables(term: &TypeTerm, found: &mut Vec<u32>) -> Result<(), AllocError> {
    match term {
        TypeTerm::Gen(_) => Ok(()),
        TypeTerm::Const(_) => Ok(()),
        TypeTerm::Att(_, term) => {
            found.push(term.generator)?;
            Ok(())
        }
        TypeTerm::Fun(_, args) => {
            for arg in args.as_slice() {
                push_variables(arg, found)?;
            }
            Ok(())
        }
    }
}

/// The variables of a where equation, each as often as it stands there.
fn variables_of(alloc: Global, test: &Equation) -> Result<Vec<u32>, AllocError> {
    let mut found = Vec::new(alloc);
    match test {
        Equation::Ent(left, right) => {
            found.push(left.generator)?;
            found.push(right.generator)?;
        }
        Equation::Typ(left, right) => {
            push_variables(left, &mut found)?;
            push_variables(right, &mut found)?;
        }
    }
    Ok(found)
}

/// The variable of a side that is an attribute of a variable.
fn lone_variable(side: &TypeTerm) -> Option<u32> {
    match side {
        TypeTerm::Att(_, term) => {
            if term.path.len() == 0 {
                Some(term.generator)
            } else {
                None
            }
        }
        _ => None,
    }
}

/// The variables of the sides for which there can be an index.
fn side_variables(test: &Equation) -> [Option<u32>; 2] {
    match test {
        Equation::Ent(left, right) => [Some(left.generator), Some(right.generator)],
        Equation::Typ(left, right) => [lone_variable(left), lone_variable(right)],
    }
}

/// Whether a number stands once in a list.
fn stands_once(numbers: &[u32], number: u32) -> bool {
    numbers.iter().filter(|other| **other == number).count() == 1
}

/// What a where equation ties.
fn ties_of(alloc: Global, test: &Equation) -> Result<Tied, AllocError> {
    let mut variables = variables_of(alloc, test)?;
    let mut indexed = Vec::new(alloc);
    for side in side_variables(test) {
        if let Some(variable) = side {
            if stands_once(variables.as_slice(), variable) {
                indexed.push(variable)?;
            }
        }
    }
    variables.sort_unstable();
    variables.dedup();
    let left = variables.len();
    Ok(Tied {
        variables,
        indexed,
        left,
    })
}

fn popped(heap: &mut BinaryHeap<Reverse<u32>>) -> Option<u32> {
    match heap.pop() {
        Some(Reverse(variable)) => Some(variable),
        None => None,
    }
}

impl Ready {
    fn new(alloc: Global) -> Ready {
        Ready {
            indexed: BinaryHeap::new(alloc),
            tested: BinaryHeap::new(alloc),
            joined: BinaryHeap::new(alloc),
            alone: BinaryHeap::new(alloc),
            apart: BinaryHeap::new(alloc),
            free: BinaryHeap::new(alloc),
        }
    }

    /// Takes out the variable that comes first.
    fn pop(&mut self) -> Option<u32> {
        if let Some(variable) = popped(&mut self.indexed) {
            return Some(variable);
        }
        if let Some(variable) = popped(&mut self.tested) {
            return Some(variable);
        }
        if let Some(variable) = popped(&mut self.joined) {
            return Some(variable);
        }
        if let Some(variable) = popped(&mut self.alone) {
            return Some(variable);
        }
        if let Some(variable) = popped(&mut self.apart) {
            return Some(variable);
        }
        popped(&mut self.free)
    }

    /// Puts in variables that a where equation reads alone.
    fn begin(&mut self, variables: &[u32]) -> Result<(), AllocError> {
        for variable in variables {
            self.alone.push(Reverse(*variable))?;
        }
        Ok(())
    }

    /// Puts in the variables of a where equation that are joined, or the last one that isn't bound.
    fn offer(&mut self, tied: &Tied, bound: &[bool]) -> Result<(), AllocError> {
        for variable in tied.variables.as_slice() {
            if bound.get(*variable as usize).copied() == Some(false) {
                if tied.left > 1 {
                    self.joined.push(Reverse(*variable))?;
                } else if tied.indexed.contains(variable) {
                    self.indexed.push(Reverse(*variable))?;
                } else {
                    self.tested.push(Reverse(*variable))?;
                }
            }
        }
        Ok(())
    }
}

/// What is known of the where equations and the variables while an order is made.
struct Plan {
    ties: Vec<Tied>,
    // For each variable the where equations in which it stands.
    places: Vec<Vec<usize>>,
    bound: Vec<bool>,
    ready: Ready,
}

impl Drop for Plan {
    fn drop(self) {
        let Self {
            ties: _,
            places: _,
            bound: _,
            ready: _,
        } = self;
    }
}

impl Plan {
    fn new(alloc: Global, width: u32) -> Result<Plan, AllocError> {
        let mut places = Vec::new(alloc);
        let mut bound = Vec::new(alloc);
        for _variable in 0..width {
            places.push(Vec::new(alloc))?;
            bound.push(false)?;
        }
        Ok(Plan {
            ties: Vec::new(alloc),
            places,
            bound,
            ready: Ready::new(alloc),
        })
    }

    /// Adds a where equation.
    fn add(&mut self, alloc: Global, test: &Equation) -> Result<(), AllocError> {
        let tied = ties_of(alloc, test)?;
        let place = self.ties.len();
        for variable in tied.variables.as_slice() {
            if let Some(places) = self.places.get_mut(*variable as usize) {
                places.push(place)?;
            }
        }
        if tied.left == 1 {
            self.ready.begin(tied.variables.as_slice())?;
        }
        self.ties.push(tied)?;
        Ok(())
    }

    /// Puts in each variable, with what stands in no where equation last.
    fn add_variables(&mut self, width: u32) -> Result<(), AllocError> {
        for variable in 0..width {
            if self.place_count(variable) > 0 {
                self.ready.apart.push(Reverse(variable))?;
            } else {
                self.ready.free.push(Reverse(variable))?;
            }
        }
        Ok(())
    }

    /// In how many where equations a variable stands.
    fn place_count(&self, variable: u32) -> usize {
        match self.places.get(variable as usize) {
            Some(places) => places.len(),
            None => 0,
        }
    }

    /// One of the where equations in which a variable stands.
    fn place_at(&self, variable: u32, number: usize) -> Option<usize> {
        self.places.get(variable as usize)?.get(number).copied()
    }

    /// Tells a where equation that one of its variables is bound.
    fn touch(&mut self, place: usize) -> Result<(), AllocError> {
        let Some(tied) = self.ties.get_mut(place) else {
            return Ok(());
        };
        let is_first = tied.left == tied.variables.len();
        tied.left = tied.left.saturating_sub(1);
        if is_first || tied.left == 1 {
            self.ready.offer(tied, self.bound.as_slice())?;
        }
        Ok(())
    }

    /// Binds a variable, if it isn't bound yet.
    fn bind(&mut self, variable: u32) -> Result<bool, AllocError> {
        match self.bound.get_mut(variable as usize) {
            Some(bound) => {
                if *bound {
                    return Ok(false);
                }
                *bound = true;
            }
            None => return Ok(false),
        }
        for number in 0..self.place_count(variable) {
            if let Some(place) = self.place_at(variable, number) {
                self.touch(place)?;
            }
        }
        Ok(true)
    }

    /// How often a variable may be put in.
    fn most(&self) -> usize {
        let mut most = self.bound.len();
        for tied in self.ties.as_slice() {
            most = most.saturating_add(tied.variables.len()).saturating_add(2);
        }
        most
    }
}

/// The variables in the order in which they are bound.
fn binding_order(alloc: Global, tests: &[Equation], width: usize) -> Result<Vec<u32>, AllocError> {
    let mut order = Vec::new(alloc);
    if width > u32::MAX as usize {
        return Ok(order);
    }
    let mut plan = Plan::new(alloc, width as u32)?;
    for test in tests {
        plan.add(alloc, test)?;
    }
    plan.add_variables(width as u32)?;
    for _turn in 0..plan.most() {
        let Some(variable) = plan.ready.pop() else {
            return Ok(order);
        };
        if plan.bind(variable)? {
            order.push(variable)?;
        }
    }
    Ok(order)
}

/// The order in which so many variables of a block are bound, if it isn't their own.
pub(crate) fn order_of(
    alloc: Global,
    tests: &[Equation],
    width: usize,
) -> Result<Option<Order>, AllocError>
    ensures { IfOk result (λ made. IfSome made (λ found. IsOrder width found.order found.places)) }
{
    Order::of(alloc, width, binding_order(alloc, tests, width)?)
}
