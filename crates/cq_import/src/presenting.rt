//! The presentation of files that are read and tested.
ghost use Rattle.std.specs.Prelude.{◌≡◌, ◌+◌, ◌-◌, ◌≤◌, ◌<◌, ◌^◌, ◌++◌, [], Some, None, IfOk, OnOk, IfErr, MatchOption};
ghost use Rattle.std.specs.Prelude.{length, map, sum};
ghost use Rattle.std.specs.List.{flat_map};
ghost use Rattle.cq_theory.specs.Canonical.{below, named};
ghost use Rattle.cq_theory.specs.Presentation.{IsPresentation};
ghost use Rattle.cq_theory.specs.declared.presentation.Sort.TheVariants.{Plain};
ghost use Rattle.cq_import.specs.Cells.{all_cells, cell_uses, cells_fault, counts, equations_from, start_of};
ghost use Rattle.cq_import.specs.Columns.{AreColumns};
ghost use Rattle.cq_import.specs.Context.{IsContext, sheet_in, sheets_in, typeside_in};
ghost use Rattle.cq_import.specs.Faults.{Tells};
ghost use Rattle.cq_import.specs.Imports.{entity_sorts, presented, sheets_fault};
ghost use Rattle.cq_import.specs.Labels.{with_uses};

use crate::capacities::count_generators;
use crate::cells::{Context, Made};
use crate::columns::Column;
use crate::entity_file::{EntityFile, hashing_of};
use crate::generators::push_row_sorts;
use crate::labels::Labels;
use crate::refusal::CsvRefusal;
use crate::tables::read_cells;
use cq_base::{Name, Seq};
use cq_terms::name_generators;
use cq_theory::{MOST_GENERATORS, Presentation, Schema, Sort};
use std::alloc::{AllocError, Global};

/// The generator of the first record of each file, and how many records there are; None where they are too many.
pub fn find_starts(
    alloc: Global,
    files: &[EntityFile],
) -> Result<Option<(Vec<u32>, u32)>, AllocError>
    ensures { IfOk result (λ found. MatchOption found (16000000 < sum (counts (map sheet_in files.now)))
        (λ f. (f.0.items ≡ map (start_of (map sheet_in files.now)) (below (length files.now)))
        × (f.1 ≡ sum (counts (map sheet_in files.now))) × (f.1 ≤ 16000000))) }
{
    let mut starts = Vec::new(alloc);
    let mut total = 0;
    for file in files {
        starts.push(total)?;
        let count = file.ids.len();
        if count > MOST_GENERATORS - total {
            return Ok(None);
        }
        total += count;
    }
    Ok(Some((starts, total)))
}

/// The generators of the records and of the labels, with their names.
fn generators_of(context: &Context, labels: &Labels) -> Result<Vec<(Name, Sort)>, AllocError>
    requires { length context.now.files.now < 2 ^ 32 }
    ensures { IfOk result (λ generators. generators.items ≡ named
        (flat_map (entity_sorts (sheets_in context.now)) (below (length context.now.files.now))
        ++ map (λ u. Plain u.1) labels.now)) }
{
    let mut sorts = Vec::with_capacity(context.alloc, count_generators(context, labels))?;
    push_row_sorts(context.files, &mut sorts)?;
    labels.push_sorts(&mut sorts)?;
    // There are at most 16,000,000.
    if sorts.len() > 1 << 31 {
        return Err(AllocError);
    }
    name_generators(context.alloc, sorts.as_slice())
}

/// The presentation of what was read.
pub fn finish(context: &Context, made: Made) -> Result<Presentation, AllocError>
    requires { length context.now.files.now < 2 ^ 32 }
    ensures generators { IfOk result (λ p. p.generators ≡ named
        (flat_map (entity_sorts (sheets_in context.now)) (below (length context.now.files.now))
        ++ map (λ u. Plain u.1) made.labels)) }
    ensures equations { IfOk result (λ p. p.equations ≡ made.equations.items) }
{
    let (labels, mut equations) = made.into_parts();
    // Cells that are empty have no equation.
    equations.shrink_to_fit();
    let generators = generators_of(context, &labels)?;
    Ok(Presentation {
        generators: Seq::from_vec(generators),
        equations: Seq::from_vec(equations),
    })
}

/// The presentation of the cells.
fn present_cells(context: &Context) -> Result<Presentation, CsvRefusal>
    requires context { IsContext context.now }
    requires few { length context.now.files.now < 2 ^ 32 }
    ensures passed { OnOk result (cells_fault (sheets_in context.now) (typeside_in context.now) context.now.room []
        (all_cells context.now.schema.now (sheets_in context.now)) ≡ None) }
    ensures generators { IfOk result (λ p. p.generators ≡ named
        (flat_map (entity_sorts (sheets_in context.now)) (below (length context.now.files.now))
        ++ map (λ u. Plain u.1) (with_uses [] (flat_map (cell_uses (typeside_in context.now))
        (all_cells context.now.schema.now (sheets_in context.now)))))) }
    ensures equations { IfOk result (λ p. p.equations ≡ equations_from (sheets_in context.now) (typeside_in context.now)
        context.now.first [] (all_cells context.now.schema.now (sheets_in context.now))) }
    ensures refused { IfErr result (λ r. Tells r (cells_fault (sheets_in context.now) (typeside_in context.now)
        context.now.room [] (all_cells context.now.schema.now (sheets_in context.now)))) }
{
    let mut made = Made::new(context, hashing_of(context.files))?;
    if let Err(refusal) = read_cells(context, &mut made) {
        return Err(refusal);
    }
    Ok(finish(context, made)?)
}

/// The presentation of files that are read and tested, one for each entity.
pub fn present(
    alloc: Global,
    schema: &Schema,
    columns: &[Vec<Column>],
    files: &[EntityFile],
) -> Result<Presentation, CsvRefusal>
    requires columns { AreColumns schema.now columns.now }
    requires files { length files.now ≡ length schema.now.entities }
    ensures passed { OnOk result (sheets_fault schema.now (map sheet_in files.now) ≡ None) }
    ensures made { IfOk result (λ made. made ≡ presented schema.now (map sheet_in files.now)) }
    ensures presentation { IfOk result (IsPresentation schema.now) }
    ensures refused { IfErr result (λ r. Tells r (sheets_fault schema.now (map sheet_in files.now))) }
{
    schema.is_well_sorted();
    let Some((starts, total)) = find_starts(alloc, files)? else {
        return Err(CsvRefusal::TooLarge);
    };
    let context = Context {
        alloc,
        schema,
        files,
        columns,
        starts: starts.as_slice(),
        first: total,
        room: Some(MOST_GENERATORS - total),
    };
    present_cells(&context)
}
