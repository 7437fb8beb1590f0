//! What terms mean in an instance.
ghost use Rattle.std.specs.Prelude.{ℕ, ◌≡◌, ◌<◌, IfOk, Some, length, map, slice_index_or};
ghost use Rattle.cq_theory.specs.declared.term.Term.TheVariants.{Ent, Typ};
ghost use Rattle.cq_theory.specs.Sorts.{entity_of, IsGround};
ghost use Rattle.cq_theory.specs.Tables.{AtRow, count_of, row_from, row_of as row_named, value_of as value_meant};
ghost use Rattle.cq_theory.specs.Tables.{applied as value_applied};
ghost use Rattle.cq_instance.specs.Standing.{meaning};
ghost use Rattle.cq_instance.specs.Terms.{IsOnWay, IsEntTermOf, IsTypeTermOf};

use crate::instance::Instance;
use crate::standing::{Standing, row_in, value_in};
use crate::values::copied;
use cq_theory::{EntTerm, TypeTerm, Value};
use std::alloc::{AllocError, Global};

/// What a generator stands for.
fn standing_of(standings: &[Standing], generator: u32) -> &Standing
    requires { generator < length standings.now }
    ensures { meaning result.now ≡ slice_index_or (map meaning standings.now) generator (AtRow 0) }
{
    &standings[generator as usize]
}

impl Instance {
    /// The row to which a path of foreign keys leads from a row.
    pub fn row_along(&self, path: &[u32], row: u32) -> u32
        requires { (target : ℕ) × IsOnWay self.now.schema self.now.tables path.now row target }
        ensures row { result ≡ row_from self.now.tables row path.now }
        ensures within { (target : ℕ) → IsOnWay self.now.schema self.now.tables path.now row target
            → result < count_of self.now.tables target }
    {
        self.is_instance();
        let mut reached = row;
        for key in path {
            reached = self.key(*key, reached);
        }
        reached
    }

    /// The row that an entity term names whose generators stand for these rows and values.
    pub fn row_over(&self, standings: &[Standing], term: &EntTerm) -> u32
        requires { (entity : ℕ) × IsEntTermOf self.now.schema self.now.tables (map meaning standings.now)
            term.now entity }
        ensures row { result ≡ row_named self.now.tables (map meaning standings.now) term.now }
        ensures within { (entity : ℕ) → IsEntTermOf self.now.schema self.now.tables (map meaning standings.now) term.now
            entity → result < count_of self.now.tables entity }
    {
        let start = row_in(standing_of(standings, term.generator));
        self.row_along(term.path.as_slice(), start)
    }

    /// The value of a type term whose generators stand for these rows and values. A function without an entry for its
    /// arguments gives the value that is built of them.
    pub fn value_over(
        &self,
        alloc: Global,
        standings: &[Standing],
        term: &TypeTerm,
    ) -> Result<Value, AllocError>
        requires { (type : ℕ) × IsTypeTermOf self.now.schema self.now.tables (map meaning standings.now) term.now type }
        ensures { IfOk result (λ value. value ≡ value_meant self.now.tables (map meaning standings.now) term.now) }
    {
        match term {
            TypeTerm::Gen(generator) => value_in(alloc, standing_of(standings, *generator)),
            TypeTerm::Const(constant) => Ok(Value::Const(constant.clone()?)),
            TypeTerm::Att(attribute, term) => copied(
                alloc,
                self.cell(*attribute, self.row_over(standings, term)),
            ),
            TypeTerm::Fun(function, args) => {
                let mut values = Vec::new(alloc);
                for arg in args.as_slice() {
                    values.push(self.value_over(alloc, standings, arg)?)?;
                }
                self.entry_table().applied(alloc, *function, values)
            }
        }
    }

    /// The value of a function at values: that of the first entry for it, or the value that is built where there is
    /// none. The entry is found by a table, in one step.
    pub fn applied(
        &self,
        alloc: Global,
        function: u32,
        args: Vec<Value>,
    ) -> Result<Value, AllocError>
        ensures { IfOk result (λ value. value ≡ value_applied self.now.tables function args.items) }
    {
        self.entry_table().applied(alloc, function, args)
    }

    /// The row that an entity term over the presentation names.
    pub fn row_of(&self, term: &EntTerm) -> u32
        requires { IsGround self.now.schema self.now.presentation (Ent term.now) }
        ensures row { result ≡ row_named self.now.tables self.now.assignment term.now }
        ensures within { (entity : ℕ) → entity_of self.now.schema self.now.presentation.generators term.now
            ≡ Some entity → result < count_of self.now.tables entity }
    {
        self.row_over(self.standings(), term)
    }

    /// The value of a type term over the presentation. A function without an entry for its arguments gives the value
    /// that is built of them.
    pub fn value_of(&self, alloc: Global, term: &TypeTerm) -> Result<Value, AllocError>
        requires { IsGround self.now.schema self.now.presentation (Typ term.now) }
        ensures { IfOk result (λ value. value ≡ value_meant self.now.tables self.now.assignment term.now) }
    {
        self.value_over(alloc, self.standings(), term)
    }
}
