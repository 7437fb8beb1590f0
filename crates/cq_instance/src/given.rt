//! Instances of given tables.
ghost use Rattle.std.specs.Prelude.{◌≡◌, ◌+◌, ◌<◌, ◌≤◌, ◌↔◌, IfOk, Err, length, map, nat_lt, sum};
ghost use Rattle.cq_theory.specs.Tables.{Initial};
ghost use Rattle.cq_theory.specs.Canonical.{canonical_assignment};
ghost use Rattle.cq_instance.specs.Given.{IsModel, HasLeastNames, tables, size_of, given};
ghost use Rattle.cq_instance.specs.Standing.{meaning};

use crate::canonical::canonical_presentation;
use crate::canonical::generators::{row_names, standings};
use crate::entries::EntryTable;
use crate::instance::Instance;
use crate::refusal::TablesRefusal;
use crate::standing::Standing;
use crate::values::copied_algebra;
use cq_base::{Seq, number_at};
use cq_theory::{Algebra, EntTerm, Presentation, Schema, Sheet};
use std::alloc::{AllocError, Global};
use std::rc::Rc;

/// The most rows and nulls of an instance.
const MOST_GENERATORS: u64 = cq_theory::MOST_GENERATORS as u64;

/// Whether there are over 16,000,000 rows and nulls together.
fn is_too_large(counts: &[u32], nulls: usize) -> bool
    ensures { result ≡ nat_lt 16000000 (sum counts.now + nulls) }
{
    let mut room = MOST_GENERATORS;
    if nulls as u64 > room {
        return true;
    }
    room -= nulls as u64;
    for entity in 0..counts.len() {
        let count = number_at(counts, entity) as u64;
        if count > room {
            return true;
        }
        room -= count;
    }
    false
}

/// The parts of an instance that are made of its tables.
#[derive(Drop)]
struct GivenParts {
    presentation: Presentation,
    names: Seq<Seq<EntTerm>>,
    algebra: EntryTable,
    standings: Seq<Standing>,
}

/// The canonical presentation of tables, the names of their rows, the table of their entries, and what the generators
/// stand for.
fn given_parts(
    alloc: Global,
    schema: &Schema,
    sheet: &Sheet,
    algebra: Algebra,
) -> Result<GivenParts, AllocError>
    requires model { IsModel schema.now (tables sheet.now algebra) }
    requires few { size_of (tables sheet.now algebra) ≤ 16000000 }
    ensures presentation { IfOk result (λ parts. parts.presentation
        ≡ (given schema.now (tables sheet.now algebra)).presentation) }
    ensures names { IfOk result (λ parts. parts.names ≡ (given schema.now (tables sheet.now algebra)).names) }
    ensures algebra { IfOk result (λ parts. parts.algebra ≡ algebra) }
    ensures standings { IfOk result (λ parts. map meaning parts.standings ≡ canonical_assignment schema.now
        (tables sheet.now algebra)) }
{
    let presentation = canonical_presentation(alloc, schema, sheet, &algebra)?;
    let names = row_names(alloc, sheet.counts.as_slice())?;
    let standings = standings(alloc, sheet.counts.as_slice(), algebra.nulls.len() as u32)?;
    Ok(GivenParts {
        presentation,
        names,
        algebra: EntryTable::new(alloc, algebra)?,
        standings: Seq::from_vec(standings),
    })
}

impl Instance {
    /// The instance of these tables, with their canonical presentation: one generator for each row and each null, and
    /// an equation for each cell, foreign key and entry. The name of each row is its own generator. `TooLarge` is
    /// answered exactly where there are over 16,000,000 rows and nulls together, and `Memory` for want of memory.
    pub fn of_tables(
        alloc: Global,
        schema: Rc<Schema>,
        sheet: Sheet,
        algebra: Algebra,
    ) -> Result<Instance, TablesRefusal>
        requires { IsModel schema.value (tables sheet algebra) }
        ensures instance { IfOk result (λ instance. instance ≡ given schema.value (tables sheet algebra)) }
        ensures initial { IfOk result (λ instance. Initial instance.schema instance.presentation instance.tables
            instance.assignment) }
        ensures least { IfOk result (λ instance. HasLeastNames instance) }
        ensures large { (result ≡ Err TablesRefusal.TooLarge) ↔ (16000000 < size_of (tables sheet algebra)) }
    {
        schema.is_well_sorted();
        if is_too_large(sheet.counts.as_slice(), algebra.nulls.len()) {
            return Err(TablesRefusal::TooLarge);
        }
        let parts = given_parts(alloc, &schema, &sheet, algebra)?;
        Ok(Instance::from_given(
            schema,
            parts.presentation,
            parts.names,
            sheet,
            parts.algebra,
            parts.standings,
        ))
    }

    /// The instance of a sheet over a schema, with the nulls and the entries of this instance. Over 16,000,000 rows
    /// and nulls together, for which callers test first, are told as want of memory.
    pub fn with_sheet(
        &self,
        alloc: Global,
        schema: Rc<Schema>,
        sheet: Sheet,
    ) -> Result<Instance, AllocError>
        requires { IsModel schema.value (tables sheet self.now.tables.algebra) }
        ensures instance { IfOk result (λ made. made ≡ given schema.value (tables sheet self.now.tables.algebra)) }
        ensures initial { IfOk result (λ made. Initial made.schema made.presentation made.tables made.assignment) }
        ensures least { IfOk result (λ made. HasLeastNames made) }
    {
        let algebra = copied_algebra(alloc, self.algebra())?;
        match Instance::of_tables(alloc, schema, sheet, algebra) {
            Ok(made) => Ok(made),
            Err(TablesRefusal::TooLarge) => Err(AllocError),
            Err(TablesRefusal::Memory) => Err(AllocError),
        }
    }
}
