//! The stages.
ghost use Rattle.std.specs.Prelude.{◌≡◌, ◌<◌, ◌≤◌, length, map, Err, IfOk, MatchBool, false};
ghost use Rattle.cq_tables.specs.Content.{keys_of, entities_of, made_of, IsWhole};
ghost use Rattle.cq_theory.specs.Presentation.{IsPresentation};
ghost use Rattle.cq_theory.specs.Schema.{IsSchema};
ghost use Rattle.cq_rows.specs.Theory.{IsTheory};
ghost use Rattle.cq_rows.specs.Origin.{theory_at};
ghost use Rattle.cq_rows.specs.Outline.{HasFrame, HasEntity, IsOutline, IsOutlineFor};
ghost use Rattle.cq_rows.specs.Plain.{ends_of};
ghost use Rattle.cq_rows.specs.Rows as rows;
ghost use Rattle.cq_rows.specs.Entries.{rows_of};
ghost use Rattle.cq_rows.specs.Stage.{IsStage};
ghost use Rattle.cq_rows.specs.Saturated as saturated;
ghost use Rattle.cq_rows.specs.declared.refusal.RowsRefusal.TheVariants.{TooManyRows, Memory};

use crate::ahead::{is_wide, weight};
use crate::entries::Entries;
use crate::fill::{all_filled, count_live, fill};
use crate::origin::Origin;
use crate::outline::Outline;
use crate::refusal::RowsRefusal;
use crate::settle::settle;
use cq_base::Seq;
use cq_tables::Tables;
use cq_theory::{Presentation, Schema, Sort};
use std::alloc::{AllocError, Global};

/// The most live rows at the end of a stage.
pub const MOST_ROWS: u64 = 200_000;

// The most that the new rows of a stage may take, in cells of 24 bytes.
const MOST_CELLS: u64 = 1 << 26;

/// Rows that were made up to some depth. The entry of a generator of an entity is its row, that of a generator of a
/// type is `u64::MAX`. It is closed exactly where all cells are filled.
pub struct Partial {
    pub tables: Tables,
    pub generator_rows: Seq<u64>,
    pub closed: bool,
}

impl Drop for Partial {
    fn drop(self) {
        let Self {
            tables: _,
            generator_rows: _,
            closed: _,
        } = self;
    }
}

// One row for each generator of an entity.
fn begin(alloc: Global, origin: &Origin) -> Result<(Tables, Vec<u64>), AllocError>
    requires theory { IsTheory (theory_at origin.now) }
    requires frame { HasFrame origin.now.schema.now origin.now.outline.now }
    ensures begun { IfOk result (λ p. rows.HasBegun (theory_at origin.now) p.0 p.1.items) }
    ensures some { IfOk result (λ p. 0 < made_of p.0 → HasEntity origin.now.presentation.now) }
{
    let mut tables = origin.outline.tables.blank()?;
    let mut entries = Vec::new(alloc);
    for generator in origin.presentation.generators.as_slice() {
        let Sort::Entity(entity) = generator.1 else {
            entries.push(u64::MAX)?;
            continue;
        };
        let row = tables.add_row(entity)?;
        entries.push(row)?;
    }
    Ok((tables, entries))
}

// Refuses the stages ahead where they are too wide by keys that no equation reads, or where the next one takes too
// much. Where it takes little, paths aren't counted.
fn look_ahead(
    alloc: Global,
    origin: &Origin,
    tables: &Tables,
    depth: u32,
) -> Result<(), RowsRefusal>
    requires schema { IsSchema origin.now.schema.now }
    requires frame { HasFrame origin.now.schema.now origin.now.outline.now }
    requires keys { keys_of tables.now ≡ (theory_at origin.now).keys }
    requires entities { entities_of tables.now ≡ length origin.now.schema.now.entities }
    requires whole { IsWhole tables.now }
    ensures { result ≡ Err TooManyRows → rows.SomeWide (theory_at origin.now) depth MOST_ROWS }
{
    let cells = weight(&origin.outline.keys, tables);
    if cells <= MOST_ROWS {
        return Ok(());
    }
    if is_wide(alloc, origin, depth, MOST_ROWS)? {
        return Err(RowsRefusal::TooManyRows);
    }
    if cells > MOST_CELLS {
        return Err(RowsRefusal::Memory);
    }
    Ok(())
}

// The tables at the end of the last stage, the rows of the generators, and whether all cells are filled.
fn grow(alloc: Global, origin: &Origin, depth: u32) -> Result<(Tables, Entries, bool), RowsRefusal>
    requires schema { IsSchema origin.now.schema.now }
    requires theory { IsTheory (theory_at origin.now) }
    requires outline { IsOutlineFor origin.now.schema.now origin.now.presentation.now origin.now.outline.now }
    ensures stage { IfOk result (λ p. IsStage (theory_at origin.now) p.0 (rows_of p.1) depth) }
    ensures closed { IfOk result (λ p. MatchBool p.2 (rows.AllFilled p.0) (rows.AllFilled p.0 → ⊥)) }
    ensures unclosed { IfOk result (λ p. p.2 ≡ false → rows.NoneCloses (theory_at origin.now) depth) }
    ensures many { result ≡ Err TooManyRows → rows.SomeWide (theory_at origin.now) depth MOST_ROWS }
{
    let (mut tables, first) = begin(alloc, origin)?;
    let mut rows = Entries::new(alloc, first);
    settle(alloc, origin, &mut tables, &mut rows)?;
    if count_live(&tables) > MOST_ROWS {
        return Err(RowsRefusal::TooManyRows);
    }
    for _stage in 0..depth {
        if all_filled(&tables) {
            return Ok((tables, rows, true));
        }
        look_ahead(alloc, origin, &tables, depth)?;
        fill(&origin.outline.keys, &mut tables)?;
        settle(alloc, origin, &mut tables, &mut rows)?;
        if count_live(&tables) > MOST_ROWS {
            return Err(RowsRefusal::TooManyRows);
        }
    }
    let closed = all_filled(&tables);
    Ok((tables, rows, closed))
}

// The rows of a presentation up to a depth, as `saturate` says.
fn saturate_from(alloc: Global, origin: &Origin, depth: u32) -> Result<Partial, RowsRefusal>
    requires presentation { IsPresentation origin.now.schema.now origin.now.presentation.now }
    requires outline { IsOutlineFor origin.now.schema.now origin.now.presentation.now origin.now.outline.now }
    requires depth { depth ≤ 64 }
    ensures made { IfOk result (saturated.IsSaturated origin.now.schema.now origin.now.presentation.now depth) }
    ensures many { result ≡ Err TooManyRows
        → saturated.SomeWide origin.now.schema.now origin.now.presentation.now depth }
{
    let schema: &Schema = origin.schema;
    schema.is_well_sorted();
    let (tables, rows, closed) = grow(alloc, origin, depth)?;
    Ok(Partial {
        tables,
        generator_rows: Seq::from_vec(rows.into_rows()),
        closed,
    })
}

/// Makes the rows of a term model stage by stage. Stage 0 makes a row for each generator of an entity; each further
/// stage fills each empty cell of each live row with a new row; at the end of every stage rows are merged until no
/// equation joins two. The work stops where all cells are filled, or after stage `depth`. The answer is Ok also where
/// cells are empty then.
///
/// `TooManyRows` says that a stage ended with more than 200,000 live rows, or that the last one would, by paths of keys
/// that no equation reads. A stage that would take too much isn't begun: there is no memory for it.
pub fn saturate(
    alloc: Global,
    schema: &Schema,
    presentation: &Presentation,
    depth: u32,
) -> Result<Partial, RowsRefusal>
    requires presentation { IsPresentation schema.now presentation.now }
    requires depth { depth ≤ 64 }

    // The tables are over the schema, and each generator has its entry.
    ensures whole { IfOk result (λ p. IsWhole p.tables) }
    ensures keys { IfOk result (λ p. keys_of p.tables ≡ map ends_of schema.now.keys) }
    ensures entities { IfOk result (λ p. entities_of p.tables ≡ length schema.now.entities) }
    ensures entries { IfOk result (λ p. saturated.HasEntries presentation.now p.tables p.generator_rows) }

    // Two terms of one row are derivably equal.
    ensures sound { IfOk result (λ p. saturated.OneRowIsEqual schema.now presentation.now p.tables p.generator_rows) }

    // Terms within the depth have rows, one for those that are equal within it, and each row is named by such a term.
    ensures traced { IfOk result (λ p. saturated.AllTraced schema.now presentation.now p.tables
        p.generator_rows depth) }
    ensures within { IfOk result (λ p. saturated.WithinIsOneRow schema.now presentation.now p.tables
        p.generator_rows depth) }
    ensures named { IfOk result (λ p. saturated.AllNamed schema.now presentation.now p.tables p.generator_rows depth) }

    // It is closed exactly where all cells are filled. The equations hold at all rows, also where it is not closed.
    ensures closed { IfOk result (λ p. MatchBool p.closed (rows.AllFilled p.tables) (rows.AllFilled p.tables → ⊥)) }
    ensures rules { IfOk result (λ p. saturated.PathEquationsHold schema.now p.tables) }
    ensures given { IfOk result (λ p. saturated.EntityEquationsHold presentation.now p.tables p.generator_rows) }

    // When it is not closed, and when there are too many rows.
    ensures unclosed { IfOk result (λ p. p.closed ≡ false → saturated.NoneCloses schema.now presentation.now depth) }
    ensures many { result ≡ Err TooManyRows → saturated.SomeWide schema.now presentation.now depth }
{
    let outline = Outline::of_presentation(alloc, schema, presentation)?;
    let origin = Origin {
        schema,
        presentation,
        outline: &outline,
    };
    saturate_from(alloc, &origin, depth)
}

/// Makes the rows of a term model as `saturate` does, by the outline of its schema. What the schema alone asks for is
/// in the outline, so that this costs no more where the schema is large and the rows are few.
pub fn saturate_over(
    alloc: Global,
    outline: &Outline,
    schema: &Schema,
    presentation: &Presentation,
    depth: u32,
) -> Result<Partial, RowsRefusal>
    requires outline { IsOutline schema.now outline.now }
    requires presentation { IsPresentation schema.now presentation.now }
    requires depth { depth ≤ 64 }
    ensures made { IfOk result (saturated.IsSaturated schema.now presentation.now depth) }
    ensures many { result ≡ Err TooManyRows → saturated.SomeWide schema.now presentation.now depth }
{
    let origin = Origin {
        schema,
        presentation,
        outline,
    };
    saturate_from(alloc, &origin, depth)
}
