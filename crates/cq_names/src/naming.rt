//! The rows of closed tables, named and numbered.
ghost use Rattle.std.specs.Prelude.{IfOk};
ghost use Rattle.cq_theory.specs.Presentation.{IsPresentation};
ghost use Rattle.cq_names.specs.Closed.{AreClosed};
ghost use Rattle.cq_names.specs.LeastNames.{AreNumbered};
ghost use Rattle.cq_names.specs.NamedRows.{AreNamedRows};

use crate::numbers::{NumberedRows, number_rows};
use crate::walk::least_names;
use cq_tables::Tables;
use cq_theory::{Presentation, Schema};
use std::alloc::{AllocError, Global};

/// The rows of closed tables, numbered by entity in the order of their least names, and these names: no lesser term
/// leads to the row. There is want of memory also where there are 2^32 rows or more.
pub fn name_rows(
    alloc: Global,
    schema: &Schema,
    presentation: &Presentation,
    tables: &Tables,
    entries: &[u64],
) -> Result<NumberedRows, AllocError>
    requires presentation { IsPresentation schema.now presentation.now }
    requires closed { AreClosed schema.now presentation.now tables.now entries.now }
    ensures least { IfOk result (λ numbered. AreNumbered schema.now presentation.now tables.now entries.now
        numbered.order numbered.names numbered.numbers) }
    ensures rows { IfOk result (λ numbered. AreNamedRows schema.now presentation.now tables.now entries.now numbered) }
{
    let (rows, names) = least_names(alloc, schema, presentation, tables, entries)?;
    number_rows(alloc, schema.entities.len(), tables, rows, names)
}
