//! Presentations that are glued together, part by part.
ghost use Rattle.std.specs.Prelude.{◌≡◌, ◌≤◌, ◌<◌, ◌+◌, ◌++◌, ◌⊎◌, [], true, false, IfOk, IfErr, OnOk, length};
ghost use Rattle.std.specs.Prelude.{map};
ghost use Rattle.cq_theory.specs.Presentation.{is_oversized};
ghost use Rattle.cq_transform.specs.Shifted.{shifted_equation};
ghost use Rattle.cq_transform.specs.Gluing.{presented};

use crate::generators::push_sorts;
use crate::shifting::push_shifted;
use cq_base::Seq;
use cq_terms::name_generators;
use cq_theory::{Equation, MOST_GENERATORS, Presentation, SizeRefusal, Sort, has_long_sides};
use std::alloc::{AllocError, Global};

/// The sorts of the generators so far, and the equations between terms over them.
pub(crate) struct Gluing {
    pub(crate) sorts: Vec<Sort>,
    pub(crate) equations: Vec<Equation>,
}

impl Drop for Gluing {
    fn drop(self) {
        let Self {
            sorts: _,
            equations: _,
        } = self;
    }
}

impl Gluing {
    /// No generators and no equations.
    pub(crate) fn new(alloc: Global) -> Gluing
        ensures sorts { result.sorts.items ≡ [] }
        ensures equations { result.equations.items ≡ [] }
    {
        Gluing {
            sorts: Vec::new(alloc),
            equations: Vec::new(alloc),
        }
    }

    /// Adds a presentation, whose generators stand behind those so far. `TooLarge` is answered exactly where there
    /// would be over 16,000,000 generators, and `Memory` for want of memory.
    pub(crate) fn add(
        &mut self,
        alloc: Global,
        presentation: &Presentation,
    ) -> Result<(), SizeRefusal>
        requires { length self.old.sorts.items ≤ 16000000 }
        ensures sorts { OnOk result (self.new.sorts.items
            ≡ self.old.sorts.items ++ map (λ g. g.1) presentation.now.generators) }
        ensures equations { OnOk result (self.new.equations.items
            ≡ self.old.equations.items
            ++ map (shifted_equation (length self.old.sorts.items)) presentation.now.equations) }
        ensures few { OnOk result (length self.old.sorts.items + length presentation.now.generators ≤ 16000000) }
        ensures refused { IfErr result (λ refusal. (refusal ≡ SizeRefusal.Memory)
            ⊎ ((refusal ≡ SizeRefusal.TooLarge)
            × (16000000 < length self.old.sorts.items + length presentation.now.generators))) }
    {
        let first = self.sorts.len() as u32;
        if presentation.generators.len() > (MOST_GENERATORS - first) as usize {
            return Err(SizeRefusal::TooLarge);
        }
        self.append(alloc, first, presentation)?;
        Ok(())
    }

    /// Appends the sorts of a presentation's generators, and its equations, with their generators behind `first`
    /// others.
    fn append(
        &mut self,
        alloc: Global,
        first: u32,
        presentation: &Presentation,
    ) -> Result<(), AllocError>
        ensures sorts { OnOk result (self.new.sorts.items
            ≡ self.old.sorts.items ++ map (λ g. g.1) presentation.now.generators) }
        ensures equations { OnOk result (self.new.equations.items
            ≡ self.old.equations.items
            ++ map (shifted_equation first) presentation.now.equations) }
    {
        push_sorts(presentation.generators.as_slice(), &mut self.sorts)?;
        push_shifted(
            alloc,
            first,
            presentation.equations.as_slice(),
            &mut self.equations,
        )
    }

    /// The presentation, whose generators are named `g1`, `g2` and so on. `TooLarge` is answered exactly where a side
    /// of an equation has over 1,024 symbols, and `Memory` for want of memory.
    pub(crate) fn into_presentation(self, alloc: Global) -> Result<Presentation, SizeRefusal>
        requires { length self.sorts.items ≤ 16000000 }
        ensures accepted { IfOk result (λ _. is_oversized (presented self.sorts.items self.equations.items) ≡ false) }
        ensures made { IfOk result (λ made. made ≡ presented self.sorts.items self.equations.items) }
        ensures refused { IfErr result (λ refusal. (refusal ≡ SizeRefusal.Memory)
            ⊎ ((refusal ≡ SizeRefusal.TooLarge)
            × (is_oversized (presented self.sorts.items self.equations.items) ≡ true))) }
    {
        let Gluing { sorts, equations } = self;
        if has_long_sides(equations.as_slice()) {
            return Err(SizeRefusal::TooLarge);
        }
        let generators = name_generators(alloc, sorts.as_slice())?;
        Ok(Presentation {
            generators: Seq::from_vec(generators),
            equations: Seq::from_vec(equations),
        })
    }
}
