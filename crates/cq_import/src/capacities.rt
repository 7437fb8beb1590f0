//! Room for what is read, which is asked for once, by the numbers of records and columns.
ghost use Rattle.std.specs.Prelude.{◌≡◌, []};

use crate::cells::Context;
use crate::labels::Labels;
use cq_theory::Equation;

/// How many cells the files have.
fn count_cells(context: &Context) -> usize {
    let mut count = 0usize;
    for (file, columns) in context.files.iter().zip(context.columns) {
        count = count.saturating_add((file.ids.len() as usize).saturating_mul(columns.len()));
    }
    count
}

/// How many generators there are.
pub fn count_generators(context: &Context, labels: &Labels) -> usize {
    (context.first as usize).saturating_add(labels.len())
}

/// No equations, with room for one for each cell. Where there is no memory for as many, since most cells may be empty,
/// the list grows with what is read.
pub fn empty_equations(context: &Context) -> Vec<Equation>
    ensures { result.items ≡ [] }
{
    match Vec::with_capacity(context.alloc, count_cells(context)) {
        Ok(equations) => equations,
        Err(_) => Vec::new(context.alloc),
    }
}
