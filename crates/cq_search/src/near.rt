//! The part of a presentation that lies near an equation.
use cq_theory::{Con, EntTerm, Equation, Presentation, TypeTerm};
use std::alloc::{AllocError, Global};

/// A presentation with fewer equations is searched whole at once.
const LEAST_EQUATIONS: usize = 10_000;

/// The most equations of a part, and the most of those that one generator or constant stands in.
const MOST_EQUATIONS: usize = 1_000;

const MOST_USES: usize = 100;

/// Generators and equations of a presentation, by their numbers, in order.
#[derive(Drop)]
pub struct Near {
    pub generators: Vec<u32>,
    pub equations: Vec<u32>,
}

/// The generators and the equations that are met first on the way from an equation: those with a constant of it or a
/// generator in it, those with a generator in one of these, and so on, to a bound. Why two terms are equal is mostly
/// found among them. There is none of a presentation that is small.
pub fn part_near(
    alloc: Global,
    presentation: &Presentation,
    equation: &Equation,
) -> Result<Option<Near>, AllocError> {
    let equations = presentation.equations.as_slice();
    if equations.len() < LEAST_EQUATIONS {
        return Ok(None);
    }
    let uses = Uses::of(alloc, presentation)?;
    let mut walk = Walk::new(alloc, presentation)?;
    walk.meet(alloc, equation)?;
    walk.take_with_constants(alloc, equations, equation)?;
    walk.go_on(alloc, equations, &uses)?;
    Ok(Some(walk.into_part()))
}

/// An equation that a generator stands in, and the place of the one that was noted before.
#[derive(Clone, Copy)]
struct Use {
    equation: u32,
    before: Option<u32>,
}

/// In which equations each generator stands: the place of the one that was noted last.
#[derive(Drop)]
struct Uses {
    last: Vec<Option<u32>>,
    uses: Vec<Use>,
}

impl Uses {
    fn of(alloc: Global, presentation: &Presentation) -> Result<Uses, AllocError> {
        let mut uses = Uses {
            last: vec![in alloc; None; presentation.generators.len()]?,
            uses: Vec::with_capacity(alloc, presentation.equations.len())?,
        };
        let mut met = Vec::new(alloc);
        for (number, equation) in presentation.equations.as_slice().iter().enumerate() {
            let Ok(number) = u32::try_from(number) else {
                return Ok(uses);
            };
            push_generators(equation, &mut met)?;
            uses.note_all(met.as_slice(), number)?;
            met.clear();
        }
        Ok(uses)
    }

    fn note_all(&mut self, generators: &[u32], equation: u32) -> Result<(), AllocError> {
        for generator in generators {
            self.note(*generator, equation)?;
        }
        Ok(())
    }

    fn note(&mut self, generator: u32, equation: u32) -> Result<(), AllocError> {
        let (Some(last), Ok(place)) = (
            self.last.get_mut(generator as usize),
            u32::try_from(self.uses.len()),
        ) else {
            return Ok(());
        };
        let before = *last;
        *last = Some(place);
        self.uses.push(Use { equation, before })?;
        Ok(())
    }

    /// The use that was noted last of a generator.
    fn last(&self, generator: u32) -> Option<Use> {
        match self.last.get(generator as usize) {
            Some(Some(place)) => self.at(*place),
            _ => None,
        }
    }

    /// The one that was noted before another.
    fn before(&self, other: Use) -> Option<Use> {
        match other.before {
            Some(place) => self.at(place),
            None => None,
        }
    }

    fn at(&self, place: u32) -> Option<Use> {
        match self.uses.get(place as usize) {
            Some(found) => Some(*found),
            None => None,
        }
    }
}

/// What was met so far: generators in the order in which they were met, and equations.
#[derive(Drop)]
struct Walk {
    is_met: Vec<bool>,
    generators: Vec<u32>,
    is_taken: Vec<bool>,
    taken: Vec<u32>,
}

impl Walk {
    fn new(alloc: Global, presentation: &Presentation) -> Result<Walk, AllocError> {
        Ok(Walk {
            is_met: vec![in alloc; false; presentation.generators.len()]?,
            generators: Vec::new(alloc),
            is_taken: vec![in alloc; false; presentation.equations.len()]?,
            taken: Vec::new(alloc),
        })
    }

    /// Meets the generators of an equation.
    fn meet(&mut self, alloc: Global, equation: &Equation) -> Result<(), AllocError> {
        let mut found = Vec::new(alloc);
        push_generators(equation, &mut found)?;
        for generator in found {
            self.meet_one(generator)?;
        }
        Ok(())
    }

    fn meet_one(&mut self, generator: u32) -> Result<(), AllocError> {
        let Some(is_met) = self.is_met.get_mut(generator as usize) else {
            return Ok(());
        };
        if !*is_met {
            *is_met = true;
            self.generators.push(generator)?;
        }
        Ok(())
    }

    /// Takes an equation, unless it was taken or there are enough, and meets its generators.
    fn take(
        &mut self,
        alloc: Global,
        equations: &[Equation],
        number: u32,
    ) -> Result<(), AllocError> {
        if self.taken.len() >= MOST_EQUATIONS {
            return Ok(());
        }
        let (Some(is_taken), Some(equation)) = (
            self.is_taken.get_mut(number as usize),
            equations.get(number as usize),
        ) else {
            return Ok(());
        };
        if *is_taken {
            return Ok(());
        }
        *is_taken = true;
        self.taken.push(number)?;
        self.meet(alloc, equation)
    }

    /// Takes the first equations with the constants of an equation.
    fn take_with_constants(
        &mut self,
        alloc: Global,
        equations: &[Equation],
        wanted: &Equation,
    ) -> Result<(), AllocError> {
        if let Equation::Typ(left, right) = wanted {
            self.take_with(alloc, equations, left)?;
            self.take_with(alloc, equations, right)?;
        }
        Ok(())
    }

    /// Takes the first equations of which a side is this constant.
    fn take_with(
        &mut self,
        alloc: Global,
        equations: &[Equation],
        side: &TypeTerm,
    ) -> Result<(), AllocError> {
        let TypeTerm::Const(constant) = side else {
            return Ok(());
        };
        let mut room = MOST_USES;
        for (number, equation) in equations.iter().enumerate() {
            if has_side(equation, constant) {
                let Ok(number) = u32::try_from(number) else {
                    return Ok(());
                };
                self.take(alloc, equations, number)?;
                room = room.saturating_sub(1);
            }
            if room == 0 {
                return Ok(());
            }
        }
        Ok(())
    }

    /// Takes the equations of each generator that was met, and of those met by that.
    fn go_on(
        &mut self,
        alloc: Global,
        equations: &[Equation],
        uses: &Uses,
    ) -> Result<(), AllocError> {
        for place in 0..usize::MAX {
            let generator = match self.generators.get(place) {
                Some(generator) => *generator,
                None => return Ok(()),
            };
            self.take_uses(alloc, equations, uses, generator)?;
        }
        Ok(())
    }

    fn take_uses(
        &mut self,
        alloc: Global,
        equations: &[Equation],
        uses: &Uses,
        generator: u32,
    ) -> Result<(), AllocError> {
        let mut next = uses.last(generator);
        for _turn in 0..MOST_USES {
            let Some(found) = next else {
                return Ok(());
            };
            self.take(alloc, equations, found.equation)?;
            next = uses.before(found);
        }
        Ok(())
    }

    fn into_part(self) -> Near {
        let Walk {
            is_met: _,
            mut generators,
            is_taken: _,
            mut taken,
        } = self;
        generators.sort_unstable();
        taken.sort_unstable();
        Near {
            generators,
            equations: taken,
        }
    }
}

/// Whether a side of an equation is this constant.
fn has_side(equation: &Equation, constant: &Con) -> bool {
    match equation {
        Equation::Ent(_, _) => false,
        Equation::Typ(left, right) => is_constant(left, constant) || is_constant(right, constant),
    }
}

fn is_constant(side: &TypeTerm, constant: &Con) -> bool {
    match side {
        TypeTerm::Const(found) => found == constant,
        _ => false,
    }
}

/// Appends the generators of an equation.
fn push_generators(equation: &Equation, found: &mut Vec<u32>) -> Result<(), AllocError> {
    match equation {
        Equation::Ent(left, right) => {
            push_generator(left, found)?;
            push_generator(right, found)
        }
        Equation::Typ(left, right) => {
            push_generators_of(left, found)?;
            push_generators_of(right, found)
        }
    }
}

fn push_generator(term: &EntTerm, found: &mut Vec<u32>) -> Result<(), AllocError> {
    found.push(term.generator)?;
    Ok(())
}

fn push_generators_of(term: &TypeTerm, found: &mut Vec<u32>) -> Result<(), AllocError> {
    match term {
        TypeTerm::Gen(generator) => {
            found.push(*generator)?;
            Ok(())
        }
        TypeTerm::Const(_) => Ok(()),
        TypeTerm::Att(_, term) => push_generator(term, found),
        TypeTerm::Fun(_, arguments) => {
            for argument in arguments.as_slice() {
                push_generators_of(argument, found)?;
            }
            Ok(())
        }
    }
}
