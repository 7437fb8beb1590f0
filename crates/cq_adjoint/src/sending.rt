//! Where a transform sends what generators stand for.
ghost use Rattle.std.specs.Prelude.{◌≡◌, [], IfOk, slice_index, slice_index_or};
ghost use Rattle.cq_theory.specs.declared.term.Term.TheVariants.{Ent, Typ};
ghost use Rattle.cq_theory.specs.declared.term.TypeTerm.TheVariants as term;
ghost use Rattle.cq_theory.specs.Sorts.{IsGround};
ghost use Rattle.cq_theory.specs.Tables.{AtRow, row_in, value_in};
ghost use Rattle.cq_transform.specs.Sent.{value_sent};

use cq_base::number_at;
use cq_instance::{Instance, Transform};
use cq_theory::{TypeTerm, Value, alone};
use cq_transform::value_then;
use std::alloc::{AllocError, Global};

/// The row to which the row of a generator goes, where `rows` has that of each row of the entity.
pub(crate) fn sent_row(alloc: Global, from: &Instance, rows: &[u32], generator: u32) -> u32
    requires { IsGround from.now.schema from.now.presentation (Ent (record { generator = generator; path = [] })) }
    ensures { result ≡ slice_index rows.now (row_in (slice_index_or from.now.assignment generator (AtRow 0))) }
{
    let row = from.row_of(&alone(alloc, generator));
    number_at(rows, row as usize)
}

/// The value to which the value of a generator goes, in `to`.
pub(crate) fn sent_value(
    alloc: Global,
    from: &Instance,
    to: &Instance,
    h: &Transform,
    generator: u32,
) -> Result<Value, AllocError>
    requires { IsGround from.now.schema from.now.presentation (Typ (term.Gen generator)) }
    ensures { IfOk result (λ made. made ≡ value_sent to.now.tables.algebra.entries h.now.nulls
        (value_in (slice_index_or from.now.assignment generator (AtRow 0)))) }
{
    let value = from.value_of(alloc, &TypeTerm::Gen(generator))?;
    value_then(alloc, to, h, &value)
}
