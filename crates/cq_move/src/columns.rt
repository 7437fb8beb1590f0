//! Columns that are made row by row from an instance.
ghost use Rattle.std.specs.Prelude.{ℕ, [], ◌∷◌, ◌++◌, ◌≡◌, ◌<◌, false, map, IfOk, IfErr, OnOk, nat_lt};
ghost use Rattle.std.specs.List.{list_any};
ghost use Rattle.cq_theory.specs.Canonical.{below};
ghost use Rattle.cq_theory.specs.Tables.{AtRow, row_from, value_of};
ghost use Rattle.cq_theory.specs.Value.{symbols_of};
ghost use Rattle.cq_instance.specs.Terms.{IsOnWay, IsTypeTermOf};
ghost use Rattle.cq_move.specs.Pulling.{TellsSize};

use cq_base::Seq;
use cq_model::{Instance, Standing};
use cq_theory::{SizeRefusal, TypeTerm, Value, is_long_value};
use std::alloc::{AllocError, Global};

/// The rows to which a path leads from the first rows of its entity.
pub fn row_column(
    alloc: Global,
    instance: &Instance,
    path: &[u32],
    count: u32,
) -> Result<Seq<u32>, AllocError>
    requires { (target : ℕ) × ((row : ℕ) → row < count
        → IsOnWay instance.now.schema instance.now.tables path.now row target) }
    ensures { IfOk result (λ column. column ≡ map (λ row. row_from instance.now.tables row path.now) (below count)) }
{
    let mut column = Vec::with_capacity(alloc, count as usize)?;
    for row in 0..count {
        column.push(instance.row_along(path, row))?;
    }
    Ok(Seq::from_vec(column))
}

/// The value of a term over one variable at a row, which has at most 1,024 symbols.
fn value_at(
    alloc: Global,
    instance: &Instance,
    term: &TypeTerm,
    row: u32,
) -> Result<Value, SizeRefusal>
    requires { (type : ℕ) × IsTypeTermOf instance.now.schema instance.now.tables (AtRow row ∷ []) term.now type }
    ensures value { IfOk result (λ value. value ≡ value_of instance.now.tables (AtRow row ∷ []) term.now) }
    ensures fits { IfOk result (λ value. nat_lt 1024 (symbols_of value) ≡ false) }
    ensures refused { IfErr result (TellsSize (nat_lt 1024
        (symbols_of (value_of instance.now.tables (AtRow row ∷ []) term.now)))) }
{
    let standings = [Standing::Row(row)];
    match instance.value_over(alloc, &standings, term) {
        Ok(value) => {
            if is_long_value(&value) {
                Err(SizeRefusal::TooLarge)
            } else {
                Ok(value)
            }
        }
        Err(_) => Err(SizeRefusal::Memory),
    }
}

/// Puts the value of a term over one variable at a row behind a column. It has at most 1,024 symbols.
fn push_value(
    alloc: Global,
    instance: &Instance,
    term: &TypeTerm,
    row: u32,
    column: &mut Vec<Value>,
) -> Result<(), SizeRefusal>
    requires { (type : ℕ) × IsTypeTermOf instance.now.schema instance.now.tables (AtRow row ∷ []) term.now type }
    ensures value { OnOk result (column.new.items ≡ column.old.items
        ++ value_of instance.now.tables (AtRow row ∷ []) term.now ∷ []) }
    ensures fits { OnOk result (nat_lt 1024 (symbols_of
        (value_of instance.now.tables (AtRow row ∷ []) term.now)) ≡ false) }
    ensures refused { IfErr result (TellsSize (nat_lt 1024
        (symbols_of (value_of instance.now.tables (AtRow row ∷ []) term.now)))) }
{
    match value_at(alloc, instance, term, row) {
        Ok(value) => match column.push(value) {
            Ok(()) => Ok(()),
            Err(_) => Err(SizeRefusal::Memory),
        },
        Err(refusal) => Err(refusal),
    }
}

/// The values of a term over one variable at the first rows of its entity, each of which has at most 1,024 symbols.
pub fn value_column(
    alloc: Global,
    instance: &Instance,
    term: &TypeTerm,
    count: u32,
) -> Result<Seq<Value>, SizeRefusal>
    requires { (type : ℕ) × ((row : ℕ) → row < count
        → IsTypeTermOf instance.now.schema instance.now.tables (AtRow row ∷ []) term.now type) }
    ensures values { IfOk result (λ column. column ≡ map (λ row. value_of instance.now.tables (AtRow row ∷ []) term.now)
        (below count)) }
    ensures fits { IfOk result (λ column. list_any (λ v. nat_lt 1024 (symbols_of v)) column ≡ false) }
    ensures refused { IfErr result (TellsSize (list_any (λ v. nat_lt 1024 (symbols_of v))
        (map (λ row. value_of instance.now.tables (AtRow row ∷ []) term.now) (below count)))) }
{
    let Ok(mut column) = Vec::with_capacity(alloc, count as usize) else {
        return Err(SizeRefusal::Memory);
    };
    for row in 0..count {
        if let Err(refusal) = push_value(alloc, instance, term, row, &mut column) {
            return Err(refusal);
        }
    }
    Ok(Seq::from_vec(column))
}
