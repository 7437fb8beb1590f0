//! Steps between nodes, none of which has the equation of another.
use crate::halt::Halt;
use crate::reading::equation_of;
use crate::terms::Terms;
use cq_base::{Hashing, Seq};
use cq_steps::{Rule, Step};
use std::alloc::Global;
use std::collections::HashMap;

/// Steps so far, and the number of the step between two nodes.
pub struct Steps {
    steps: Vec<Step>,
    numbers: HashMap<(u64, u64), u64, Hashing>,
    alloc: Global,
}

impl Drop for Steps {
    fn drop(self) {
        let Self {
            steps: _,
            numbers: _,
            alloc: _,
        } = self;
    }
}

impl Steps {
    /// No steps. They are found by their nodes, which are hashed as told.
    pub fn new(alloc: Global, hashing: Hashing) -> Steps {
        Steps {
            steps: Vec::new(alloc),
            numbers: HashMap::with_hasher(alloc, hashing),
            alloc,
        }
    }

    /// The steps up to the one of a number.
    pub fn up_to(self, last: u64) -> Vec<Step> {
        let Self {
            mut steps,
            numbers: _,
            alloc: _,
        } = self;
        steps.truncate((last as usize).saturating_add(1));
        steps
    }

    /// The number of the step between two nodes, if there is one.
    fn number(&self, left: u64, right: u64) -> Option<u64> {
        match self.numbers.get(&(left, right)) {
            Some(number) => Some(*number),
            None => None,
        }
    }

    /// One step more, between two nodes.
    pub fn add(
        &mut self,
        terms: &Terms,
        rule: Rule,
        from: Vec<u64>,
        left: u64,
        right: u64,
    ) -> Result<u64, Halt> {
        let number = self.steps.len() as u64;
        let equation = equation_of(self.alloc, terms, left, right)?;
        let from = Seq::from_vec(from);
        self.steps.push(Step {
            rule,
            from,
            equation,
        })?;
        self.numbers.insert((left, right), number)?;
        Ok(number)
    }

    /// The number of the step between a node and itself.
    pub fn reflexivity(&mut self, terms: &Terms, node: u64) -> Result<u64, Halt> {
        match self.number(node, node) {
            Some(number) => Ok(number),
            None => self.add(terms, Rule::Reflexivity, Vec::new(self.alloc), node, node),
        }
    }

    /// The number of the step between two nodes, if there is one, or of one that turns the step the other way round.
    pub fn next(&mut self, terms: &Terms, left: u64, right: u64) -> Result<Option<u64>, Halt> {
        if let Some(number) = self.number(left, right) {
            return Ok(Some(number));
        }
        let Some(turned) = self.number(right, left) else {
            return Ok(None);
        };
        let mut from = Vec::new(self.alloc);
        from.push(turned)?;
        let number = self.add(terms, Rule::Symmetry, from, left, right)?;
        Ok(Some(number))
    }

    /// The number of the step between two nodes, where there is one, this way or the other way round.
    fn between(&mut self, terms: &Terms, left: u64, right: u64) -> Result<u64, Halt> {
        match self.next(terms, left, right)? {
            Some(number) => Ok(number),
            None => Err(Halt::Absent),
        }
    }

    /// The number of the step between the ends of a way, where there are steps between the nodes next to each other.
    pub fn along(&mut self, terms: &Terms, way: &[u64]) -> Result<u64, Halt> {
        let [left, first, rest @ ..] = way else {
            return Err(Halt::Absent);
        };
        let mut here = *first;
        let mut number = self.between(terms, *left, *first)?;
        for node in rest {
            let second = self.between(terms, here, *node)?;
            number = self.joined(terms, number, second, *left, *node)?;
            here = *node;
        }
        Ok(number)
    }

    /// The number of the step between two nodes that joins two steps.
    fn joined(
        &mut self,
        terms: &Terms,
        first: u64,
        second: u64,
        left: u64,
        right: u64,
    ) -> Result<u64, Halt> {
        if let Some(number) = self.number(left, right) {
            return Ok(number);
        }
        let mut from = Vec::new(self.alloc);
        from.push(first)?;
        from.push(second)?;
        self.add(terms, Rule::Transitivity, from, left, right)
    }
}
