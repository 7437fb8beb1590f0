//! The symbol of a part that is applied to another number of arguments than it takes.
use crate::over::terms_over;
use crate::part::{Part, part_at};
use crate::signature::Signature;
use cq_base::{Name, Place, Raw};
use cq_environment::Environment;
use cq_syntax::{AttSyn, Body};
use std::alloc::{AllocError, Global};

/// A symbol, how many arguments it takes, and to how many it is applied.
#[derive(Drop)]
pub struct Miscounted {
    pub name: Name,
    pub takes: u64,
    pub has: u64,
}

/// The first symbol of the part at a place that is applied to another number of arguments than it takes. None: each is
/// applied to as many, or none stands there.
pub fn miscounted_in_part(
    alloc: Global,
    env: &Environment,
    body: &Body,
    place: Place,
) -> Result<Option<Miscounted>, AllocError> {
    let Some(part) = part_at(body, place) else {
        return Ok(None);
    };
    let names = terms_over(alloc, env, body)?;
    miscounted_over(&names, part)
}

fn miscounted_over(names: &Signature, part: Part<'_>) -> Result<Option<Miscounted>, AllocError> {
    match part {
        Part::Observation(equation) => {
            names.miscounted_side(&equation.left.raw, &equation.right.raw)
        }
        Part::Equation(equation) | Part::Test(_, equation) => {
            names.miscounted_side(&equation.left.raw, &equation.right.raw)
        }
        Part::AttributeImage(_, _, image) => match &image.image {
            AttSyn::Path(_) => Ok(None),
            AttSyn::Lambda(_, _, term) => names.miscounted(&term.raw),
        },
        Part::Attribute(_, bind) | Part::Assigned(_, _, _, bind) | Part::Image(bind) => {
            names.miscounted(&bind.term.raw)
        }
        _ => Ok(None),
    }
}

impl Signature {
    fn miscounted_side(&self, left: &Raw, right: &Raw) -> Result<Option<Miscounted>, AllocError> {
        match self.miscounted(left)? {
            Some(found) => Ok(Some(found)),
            None => self.miscounted(right),
        }
    }

    /// The first symbol in a term that is applied to another number of arguments than it takes.
    fn miscounted(&self, term: &Raw) -> Result<Option<Miscounted>, AllocError> {
        match term {
            Raw::Word(_) | Raw::Text(_) => Ok(None),
            Raw::App(name, args) => {
                if let Some(found) = self.miscounted_symbol(name, args.len())? {
                    return Ok(Some(found));
                }
                for arg in args.as_slice() {
                    if let Some(found) = self.miscounted(arg)? {
                        return Ok(Some(found));
                    }
                }
                Ok(None)
            }
        }
    }

    fn miscounted_symbol(
        &self,
        name: &Name,
        count: usize,
    ) -> Result<Option<Miscounted>, AllocError> {
        let Some(arrow) = self.find_arrow(name) else {
            return Ok(None);
        };
        if arrow.takes.len() == count {
            return Ok(None);
        }
        Ok(Some(Miscounted {
            name: name.clone()?,
            takes: arrow.takes.len() as u64,
            has: count as u64,
        }))
    }
}
