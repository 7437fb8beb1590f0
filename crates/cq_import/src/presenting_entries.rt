//! The presentation of files that are read and tested, with the file of the nulls and the entries.
ghost use Rattle.std.specs.Prelude.{◌≡◌, ◌+◌, ◌≤◌, ◌<◌, ◌^◌, ◌++◌, [], None, IfOk, OnOk, IfErr, filter, length, map};
ghost use Rattle.std.specs.Prelude.{string_bytes};
ghost use Rattle.std.specs.List.{flat_map};
ghost use Rattle.cq_theory.specs.Canonical.{below, named};
ghost use Rattle.cq_theory.specs.declared.presentation.Sort.TheVariants.{Plain};
ghost use Rattle.cq_theory.specs.Presentation.{IsPresentation};
ghost use Rattle.cq_import.specs.Columns.{AreColumns};
ghost use Rattle.cq_import.specs.Context.{IsContext, sheet_in, sheets_in, typeside_in};
ghost use Rattle.cq_import.specs.Entries.{contents2_fault, is_null, labels2_of, presented2, rest_equations, rest_fault};
ghost use Rattle.cq_import.specs.Entries.{sheets2_fault};
ghost use Rattle.cq_import.specs.Faults.{Tells};
ghost use Rattle.cq_import.specs.Imports.{entity_sorts};
ghost use Rattle.cq_import.specs.Rows.{rows_of};

use crate::cells::{Context, Made};
use crate::columns::Column;
use crate::entity_file::EntityFile;
use crate::entries::{Over, read_entries};
use crate::entries_text::EntriesFile;
use crate::nulls::read_nulls;
use crate::presenting::{find_starts, finish};
use crate::refusal::CsvRefusal;
use crate::tables::read_cells;
use cq_base::Hashing;
use cq_theory::{MOST_GENERATORS, Presentation, Schema, Typeside};
use std::alloc::Global;

/// Reads the cells of the other files, then the entries.
fn read_rest(context: &Context, over: &Over, text: &[u8], made: &mut Made) -> Result<(), CsvRefusal>
    requires context { IsContext context.now }
    requires given { context.now.room ≡ None }
    requires typeside { over.now.typeside.now ≡ typeside_in context.now }
    requires first { over.now.first ≡ context.now.first }
    requires room { context.now.first + length made.old.labels ≤ 16000000 }
    ensures passed { OnOk result (rest_fault context.now.schema.now (sheets_in context.now)
        (rows_of text.now) made.old.labels over.now.file.now ≡ None) }
    ensures labels { OnOk result (made.new.labels ≡ made.old.labels) }
    ensures equations { OnOk result (made.new.equations.items ≡ made.old.equations.items
        ++ rest_equations context.now.schema.now (sheets_in context.now) (rows_of text.now) context.now.first
        made.old.labels) }
    ensures refused { IfErr result (λ r. Tells r (rest_fault context.now.schema.now (sheets_in context.now)
        (rows_of text.now) made.old.labels over.now.file.now)) }
{
    if let Err(refusal) = read_cells(context, made) {
        return Err(refusal);
    }
    read_entries(over, text, made)
}

/// Reads the nulls, then the cells of the other files, then the entries.
fn read_all(context: &Context, over: &Over, text: &[u8], made: &mut Made) -> Result<(), CsvRefusal>
    requires context { IsContext context.now }
    requires given { context.now.room ≡ None }
    requires typeside { over.now.typeside.now ≡ typeside_in context.now }
    requires first { over.now.first ≡ context.now.first }
    requires room { context.now.first + length (filter is_null (rows_of text.now)) ≤ 16000000 }
    requires labels { made.old.labels ≡ [] }
    ensures passed { OnOk result (contents2_fault context.now.schema.now (sheets_in context.now)
        (rows_of text.now) over.now.file.now ≡ None) }
    ensures labels { OnOk result (made.new.labels ≡ labels2_of context.now.schema.now (sheets_in context.now)
        (rows_of text.now)) }
    ensures equations { OnOk result (made.new.equations.items ≡ made.old.equations.items
        ++ rest_equations context.now.schema.now (sheets_in context.now) (rows_of text.now) context.now.first
        (labels2_of context.now.schema.now (sheets_in context.now) (rows_of text.now))) }
    ensures refused { IfErr result (λ r. Tells r (contents2_fault context.now.schema.now (sheets_in context.now)
        (rows_of text.now) over.now.file.now)) }
{
    if let Err(refusal) = read_nulls(over.alloc, over.typeside, over.file, text, &mut made.labels) {
        return Err(refusal);
    }
    read_rest(context, over, text, made)
}

/// The presentation of the records.
fn present_all(context: &Context, over: &Over, text: &[u8]) -> Result<Presentation, CsvRefusal>
    requires context { IsContext context.now }
    requires few { length context.now.files.now < 2 ^ 32 }
    requires given { context.now.room ≡ None }
    requires typeside { over.now.typeside.now ≡ typeside_in context.now }
    requires first { over.now.first ≡ context.now.first }
    requires room { context.now.first + length (filter is_null (rows_of text.now)) ≤ 16000000 }
    ensures passed { OnOk result (contents2_fault context.now.schema.now (sheets_in context.now)
        (rows_of text.now) over.now.file.now ≡ None) }
    ensures generators { IfOk result (λ p. p.generators ≡ named
        (flat_map (entity_sorts (sheets_in context.now)) (below (length context.now.files.now))
        ++ map (λ u. Plain u.1) (labels2_of context.now.schema.now (sheets_in context.now) (rows_of text.now)))) }
    ensures equations { IfOk result (λ p. p.equations
        ≡ rest_equations context.now.schema.now (sheets_in context.now) (rows_of text.now) context.now.first
        (labels2_of context.now.schema.now (sheets_in context.now) (rows_of text.now))) }
    ensures refused { IfErr result (λ r. Tells r (contents2_fault context.now.schema.now (sheets_in context.now)
        (rows_of text.now) over.now.file.now)) }
{
    let mut made = Made::new(context, Hashing::of_text(text))?;
    if let Err(refusal) = read_all(context, over, text, &mut made) {
        return Err(refusal);
    }
    Ok(finish(context, made)?)
}

/// The presentation of files that are read and tested: one for each entity, and that of the nulls and the entries.
pub fn present_entries(
    alloc: Global,
    schema: &Schema,
    columns: &[Vec<Column>],
    files: &[EntityFile],
    entries: &EntriesFile,
) -> Result<Presentation, CsvRefusal>
    requires columns { AreColumns schema.now columns.now }
    requires files { length files.now ≡ length schema.now.entities }
    ensures passed { OnOk result (sheets2_fault schema.now (map sheet_in files.now) (rows_of entries.now.text.items)
        (string_bytes entries.now.name) ≡ None) }
    ensures made { IfOk result (λ made. made ≡ presented2 schema.now (map sheet_in files.now)
        (rows_of entries.now.text.items)) }
    ensures presentation { IfOk result (IsPresentation schema.now) }
    ensures refused { IfErr result (λ r. Tells r (sheets2_fault schema.now (map sheet_in files.now)
        (rows_of entries.now.text.items) (string_bytes entries.now.name))) }
{
    schema.is_well_sorted();
    let Some((starts, total)) = find_starts(alloc, files)? else {
        return Err(CsvRefusal::TooLarge);
    };
    let nulls = entries.nulls;
    if nulls > MOST_GENERATORS - total {
        return Err(CsvRefusal::TooLarge);
    }
    let context = Context {
        alloc,
        schema,
        files,
        columns,
        starts: starts.as_slice(),
        first: total,
        room: None,
    };
    let typeside: &Typeside = &schema.typeside;
    let file = entries.name.as_str();
    let text = entries.text.as_slice();
    let over = Over {
        alloc,
        typeside,
        file,
        first: total,
    };
    present_all(&context, &over, text)
}
