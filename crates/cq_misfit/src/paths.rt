//! Whether the names of paths fit together.
use crate::misfit::{Ends, Halt, Misfit};
use crate::signature::Signature;
use crate::sorted::Arrow;
use cq_base::Name;
use cq_known::Kind;
use cq_syntax::PathEqSyn;

impl Signature {
    /// Whether two paths of foreign keys begin at one entity and end at one.
    pub fn check_paths(&self, equation: &PathEqSyn) -> Result<(), Halt> {
        let left = self.ends_of(equation.left.names.as_slice(), false)?;
        let right = self.ends_of(equation.right.names.as_slice(), false)?;
        if left.are_same(&right) {
            return Ok(());
        }
        Err(Halt::Found(Misfit::Paths(left, right)))
    }

    /// Whether a path that is given for a name goes where it has to go.
    pub fn check_route(&self, name: &Name, wanted: Ends, path: &[Name]) -> Result<(), Halt> {
        let found = self.ends_of(path, true)?;
        if found.are_same(&wanted) {
            return Ok(());
        }
        Err(Halt::Found(Misfit::Route(name.clone()?, wanted, found)))
    }

    /// Where a path begins and ends, the last name of which may be that of an attribute, if this is said.
    fn ends_of(&self, path: &[Name], takes_attribute: bool) -> Result<Ends, Halt> {
        let last = path.len().saturating_sub(1);
        let mut ends = self.beginning(path, takes_attribute && last == 0)?;
        for (place, name) in path.iter().enumerate() {
            self.follow(&mut ends, name, takes_attribute && place == last)?;
        }
        Ok(ends)
    }

    /// The entity where a path begins, which has come no further yet.
    fn beginning(&self, path: &[Name], takes_attribute: bool) -> Result<Ends, Halt> {
        let Some(name) = path.first() else {
            return Err(Halt::Lost);
        };
        let step = self.step(name, takes_attribute)?;
        let to = step.from.copy()?;
        Ok(Ends {
            from: step.from.copy()?,
            to,
        })
    }

    /// Follows a name from where a path has come.
    fn follow(&self, ends: &mut Ends, name: &Name, takes_attribute: bool) -> Result<(), Halt> {
        let Ends { from, to } = self.step(name, takes_attribute)?;
        if !from.is_same(&ends.to) {
            return Err(Halt::Found(Misfit::Step(name.clone()?, from, ends.to.copy()?)));
        }
        ends.to = to;
        Ok(())
    }

    /// From where to where a name of a path leads: a foreign key, an entity, which stays where it is, or an attribute.
    fn step(&self, name: &Name, takes_attribute: bool) -> Result<Ends, Halt> {
        if let Some(arrow) = self.find_arrow(name) {
            if arrow.kind == Kind::Key || (takes_attribute && arrow.kind == Kind::Attribute) {
                return ends_of_arrow(arrow);
            }
        }
        match self.find_sort(name) {
            Some(sort) if sort.kind == Kind::Entity => Ok(Ends {
                from: sort.copy()?,
                to: sort.copy()?,
            }),
            _ => self.refuse_step(name),
        }
    }

    /// Answers that a name stands for something that can't stand in a path.
    fn refuse_step(&self, name: &Name) -> Result<Ends, Halt> {
        match self.kind_of(name) {
            Some(kind) => Err(Halt::Found(Misfit::Kinds(name.clone()?, kind, Kind::Key))),
            None => Err(Halt::Lost),
        }
    }

    /// The kind of what a name stands for, of symbols before sorts.
    fn kind_of(&self, name: &Name) -> Option<Kind> {
        match self.find_arrow(name) {
            Some(arrow) => Some(arrow.kind),
            None => match self.find_sort(name) {
                Some(sort) => Some(sort.kind),
                None => None,
            },
        }
    }
}

fn ends_of_arrow(arrow: &Arrow) -> Result<Ends, Halt> {
    let Some(from) = arrow.source() else {
        return Err(Halt::Lost);
    };
    Ok(Ends {
        from: from.copy()?,
        to: arrow.gives.copy()?,
    })
}
