//! The least name of each row, by one walk from the rows of the generators.
ghost use Rattle.std.specs.Prelude.{ℕ, List, ◌≡◌, ◌<◌, ◌+◌, ◌^◌, [], true, false, length, map, replicate, slice_get};
ghost use Rattle.std.specs.Prelude.{slice_index, slice_index_or, IfOk, OnOk, Some};
ghost use Rattle.cq_tables.specs.Content.{made_of, live_of, keys_of, IsWhole};
ghost use Rattle.cq_rows.specs.Plain.{ends_of};
ghost use Rattle.cq_rows.specs.Saturated.{HasEntries};
ghost use Rattle.cq_theory.specs.SchemaData.{SchemaData as Over};
ghost use Rattle.cq_theory.specs.Presentation.{IsPresentation};
ghost use Rattle.cq_theory.specs.declared.presentation.Presentation.{Presentation as Presented};
ghost use Rattle.cq_theory.specs.declared.term.EntTerm.{EntTerm as Term};
ghost use Rattle.cq_names.specs.Closed.{AreClosed};
ghost use Rattle.cq_instance.specs.TermOrder.{generator_term, one_further};
ghost use Rattle.cq_names.specs.Walking.{Meets, IsWalked, IsWalkOf};

use cq_tables::Tables;
use cq_theory::{EntTerm, Path, Presentation, Schema, Sort};
use std::alloc::{AllocError, Global};
use std::marker::Model;

/// Rows of tables in the order in which they are named, their names, and which rows have one.
#[derive(Drop)]
pub struct Walk {
    rows: Vec<u64>,
    names: Vec<EntTerm>,
    met: Vec<bool>,
}

impl Model for Walk {
    ghost use Rattle.std.specs.Coded.{codes};
    ghost use Rattle.cq_names.specs.Walking.{Listing};

    ghost Value = { Listing };

    ghost coded = { Prim.hlevel codes };

    ghost view = { λ walk. record { rows = walk.rows.items; names = walk.names.items; met = walk.met.items } };
}

impl Walk {
    /// No names, over this many rows.
    fn new(alloc: Global, made: u64) -> Result<Walk, AllocError>
        ensures { IfOk result (λ walk. walk ≡ record { rows = []; names = []; met = replicate made false }) }
    {
        let met = vec![in alloc; false; made as usize]?;
        Ok(Walk {
            rows: Vec::new(alloc),
            names: Vec::new(alloc),
            met,
        })
    }

    /// Names a row by a generator, if it has no name.
    fn meet_generator(&mut self, row: u64, generator: u32) -> Result<(), AllocError>
        requires { row < length self.old.met }
        ensures { OnOk result (Meets self.old self.new row (generator_term generator)) }
    {
        if self.met[row as usize] {
            return Ok(());
        }
        let path = Path::empty();
        self.add(row, EntTerm { generator, path })
    }

    /// Names a row by the step along a key from the row at a place of the list, if it has no name.
    fn meet_step(&mut self, alloc: Global, row: u64, at: usize, key: u32) -> Result<(), AllocError>
        requires row { row < length self.old.met }
        requires at { at < length self.old.names }
        ensures { OnOk result ((name : Term) → slice_get self.old.names at ≡ Some name
            → Meets self.old self.new row (one_further name key)) }
    {
        if self.met[row as usize] {
            return Ok(());
        }
        let name = further(alloc, &self.names[at], key)?;
        self.add(row, name)
    }

    /// Names a row that has no name.
    fn add(&mut self, row: u64, name: EntTerm) -> Result<(), AllocError>
        requires row { row < length self.old.met }
        requires new { slice_index_or self.old.met row false ≡ false }
        ensures { OnOk result (Meets self.old self.new row name) }
    {
        self.rows.push(row)?;
        self.names.push(name)?;
        self.met[row as usize] = true;
        Ok(())
    }
}

/// A term and one key more.
fn further(alloc: Global, term: &EntTerm, key: u32) -> Result<EntTerm, AllocError>
    ensures { IfOk result (λ made. made ≡ one_further term.now key) }
{
    Ok(EntTerm {
        generator: term.generator,
        path: term.path.followed_by(alloc, &[key])?,
    })
}

/// Names the rows of the generators, in their order.
fn begin(
    alloc: Global,
    presentation: &Presentation,
    tables: &Tables,
    entries: &[u64],
) -> Result<Walk, AllocError>
    requires whole { IsWhole tables.now }
    requires entries { HasEntries presentation.now tables.now entries.now }
    requires few { length presentation.now.generators < 2 ^ 32 }
    ensures { IfOk result (λ walk. (S : Over) → keys_of tables.now ≡ map ends_of S.keys
        → IsWalked S presentation.now tables.now entries.now walk (length presentation.now.generators) 0 0) }
{
    let mut walk = Walk::new(alloc, tables.made())?;
    for (number, generator) in presentation.generators.as_slice().iter().enumerate() {
        let Sort::Entity(_entity) = generator.1 else {
            continue;
        };
        walk.meet_generator(entries[number], number as u32)?;
    }
    Ok(walk)
}

/// Names the rows to which the keys lead from the row at a place of the list.
fn expand(
    alloc: Global,
    schema: &Schema,
    tables: &Tables,
    walk: &mut Walk,
    at: usize,
) -> Result<(), AllocError>
    requires whole { IsWhole tables.now }
    requires keys { keys_of tables.now ≡ map ends_of schema.now.keys }
    requires marks { length walk.old.met ≡ made_of tables.now }
    requires at { at < length walk.old.rows }
    requires names { length walk.old.names ≡ length walk.old.rows }
    requires live { live_of tables.now (slice_index walk.old.rows at) ≡ true }
    ensures { OnOk result ((P : Presented) (entries : List ℕ) (g : ℕ)
        → IsWalked schema.now P tables.now entries walk.old g at 0
        → IsWalked schema.now P tables.now entries walk.new g (at + 1) 0) }
{
    let row = walk.rows[at];
    let entity = tables.entity(row);
    for key in tables.keys_from(entity) {
        if let Some(to) = tables.cell(row, *key) {
            walk.meet_step(alloc, to, at, *key)?;
        }
    }
    Ok(())
}

/// All rows of closed tables in the order of their least names, and these names. The first term that reaches a row,
/// in a walk that takes shorter terms first, and among those of one length goes by the generators and then by the
/// keys in order, is the least name of the row.
pub(crate) fn least_names(
    alloc: Global,
    schema: &Schema,
    presentation: &Presentation,
    tables: &Tables,
    entries: &[u64],
) -> Result<(Vec<u64>, Vec<EntTerm>), AllocError>
    requires presentation { IsPresentation schema.now presentation.now }
    requires closed { AreClosed schema.now presentation.now tables.now entries.now }
    ensures { IfOk result (λ w. IsWalkOf schema.now presentation.now tables.now entries.now w.0.items w.1.items) }
{
    let mut walk = begin(alloc, presentation, tables, entries)?;
    let mut next = 0;
    'rows: while next < walk.rows.len() {
        expand(alloc, schema, tables, &mut walk, next)?;
        next += 1;
    }
    let Walk {
        rows,
        names,
        met: _met,
    } = walk;
    Ok((rows, names))
}
