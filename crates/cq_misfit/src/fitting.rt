//! Whether the sorts in terms fit together.
use crate::misfit::{Halt, Misfit};
use crate::signature::Signature;
use crate::sorted::{Arrow, NamedSort};
use cq_base::{Name, Raw};
use cq_known::Kind;
use cq_syntax::ObsSyn;

impl Signature {
    /// Whether two terms are of one sort, and each argument in them is of that which it has to be of.
    pub fn check_sides(&self, left: &Raw, right: &Raw) -> Result<(), Halt> {
        self.check_term(left)?;
        self.check_term(right)?;
        let Some(left) = self.sort_of(left) else {
            return Err(Halt::Lost);
        };
        let Some(right) = self.sort_of(right) else {
            return Err(Halt::Lost);
        };
        if left.is_same(right) {
            return Ok(());
        }
        Err(Halt::Found(Misfit::Sides(left.copy()?, right.copy()?)))
    }

    /// Whether a term is of the sort of what it is given for, and each argument in it of that which it has to be of.
    pub fn check_given(&self, name: &Name, wanted: &NamedSort, term: &Raw) -> Result<(), Halt> {
        self.check_term(term)?;
        let Some(found) = self.sort_of(term) else {
            return Err(Halt::Lost);
        };
        if found.is_same(wanted) {
            return Ok(());
        }
        Err(Halt::Found(Misfit::Given(name.clone()?, wanted.copy()?, found.copy()?)))
    }

    fn check_term(&self, term: &Raw) -> Result<(), Halt> {
        match term {
            Raw::Word(_) | Raw::Text(_) => Ok(()),
            Raw::App(name, args) => {
                self.check_arguments(name, args.as_slice())?;
                for arg in args.as_slice() {
                    self.check_term(arg)?;
                }
                Ok(())
            }
        }
    }

    fn check_arguments(&self, name: &Name, args: &[Raw]) -> Result<(), Halt> {
        let Some(arrow) = self.find_arrow(name) else {
            return Err(Halt::Lost);
        };
        for (place, arg) in args.iter().enumerate() {
            self.check_argument(arrow, place, arg)?;
        }
        Ok(())
    }

    fn check_argument(&self, arrow: &Arrow, place: usize, arg: &Raw) -> Result<(), Halt> {
        let Some(wanted) = arrow.takes.as_slice().get(place) else {
            return Err(Halt::Lost);
        };
        let Some(found) = self.sort_of(arg) else {
            return Err(Halt::Lost);
        };
        if found.is_same(wanted) {
            return Ok(());
        }
        Err(Halt::Found(Misfit::Argument(
            arrow.name.clone()?,
            number_of_argument(arrow, place),
            wanted.copy()?,
            found.copy()?,
        )))
    }

    /// Whether the sides of an equation for each member of an entity are of one type.
    pub fn check_observation(&mut self, equation: &ObsSyn) -> Result<(), Halt> {
        let entity = self.entity_of_variable(equation)?;
        self.add_generator(&equation.variable, entity)?;
        self.check_sides(&equation.left.raw, &equation.right.raw)?;
        match self.sort_of(&equation.left.raw) {
            Some(sort) if sort.kind == Kind::Entity => {
                Err(Halt::Found(Misfit::Members(sort.copy()?)))
            }
            _ => Ok(()),
        }
    }

    /// The entity of a variable: the one that is said, else that of its first use.
    fn entity_of_variable(&self, equation: &ObsSyn) -> Result<NamedSort, Halt> {
        if let Some(name) = &equation.entity {
            let entity = self.entity(name)?;
            return Ok(entity.copy()?);
        }
        match self.entity_by_use(equation) {
            Some(entity) => Ok(entity.copy()?),
            None => Err(Halt::Found(Misfit::Loose(equation.variable.clone()?))),
        }
    }

    fn entity_by_use(&self, equation: &ObsSyn) -> Option<&NamedSort> {
        match self.applied_to(&equation.variable, &equation.left.raw) {
            Some(entity) => Some(entity),
            None => self.applied_to(&equation.variable, &equation.right.raw),
        }
    }

    /// The entity from which the first foreign key or attribute goes that is applied to the variable itself.
    fn applied_to<'a>(&'a self, variable: &Name, term: &Raw) -> Option<&'a NamedSort> {
        match term {
            Raw::Word(_) | Raw::Text(_) => None,
            Raw::App(name, args) => {
                if let Some(entity) = self.source_at(variable, name, args.as_slice()) {
                    return Some(entity);
                }
                for arg in args.as_slice() {
                    if let Some(entity) = self.applied_to(variable, arg) {
                        return Some(entity);
                    }
                }
                None
            }
        }
    }

    fn source_at<'a>(
        &'a self,
        variable: &Name,
        name: &Name,
        args: &[Raw],
    ) -> Option<&'a NamedSort> {
        match args {
            [arg] if is_word(arg, variable) => self.find_arrow(name)?.source(),
            _ => None,
        }
    }
}

fn is_word(term: &Raw, name: &Name) -> bool {
    match term {
        Raw::Word(word) => *word == *name,
        Raw::Text(_) | Raw::App(_, _) => false,
    }
}

/// The number of an argument, from 1, where there are several.
fn number_of_argument(arrow: &Arrow, place: usize) -> Option<u64> {
    if arrow.takes.len() > 1 {
        Some((place as u64).saturating_add(1))
    } else {
        None
    }
}
