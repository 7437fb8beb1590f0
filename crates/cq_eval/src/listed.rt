//! The rows that an index lists where variables are bound.
ghost use Rattle.std.specs.Prelude.{ℕ, ◌≡◌, IfOk, IfSome, map};
ghost use Rattle.cq_theory.specs.Tables.{AtRow, value_of};
ghost use Rattle.cq_instance.specs.Terms.{IsTypeTermOf};
ghost use Rattle.cq_eval.specs.Index.{rows_of_value, listed_rows};
ghost use Rattle.cq_eval.specs.Testing.{IsTestAt};

use crate::choice::Choice;
use crate::index::TestIndex;
use cq_instance::Instance;
use cq_theory::{Equation, TypeTerm};
use std::alloc::{AllocError, Global};

/// The rows that an index lists for the value of a term.
fn cell_rows<'b>(
    alloc: Global,
    instance: &Instance,
    choice: &Choice,
    other: &TypeTerm,
    index: &'b TestIndex,
) -> Result<Option<&'b [u32]>, AllocError>
    requires { (type : ℕ) × IsTypeTermOf instance.now.schema instance.now.tables (map AtRow choice.now) other.now type }
    ensures { IfOk result (λ found. IfSome found (λ rows. rows.now
        ≡ rows_of_value index.now.lists (value_of instance.now.tables (map AtRow choice.now) other.now))) }
{
    let value = instance.value_over(alloc, choice.standings(), other)?;
    Ok(index.lists.for_value(&value))
}

/// The rows that an index lists for the other side of its where equation.
pub(crate) fn indexed<'b>(
    alloc: Global,
    instance: &Instance,
    choice: &Choice,
    test: &Equation,
    index: &'b TestIndex,
) -> Result<Option<&'b [u32]>, AllocError>
    requires test { IsTestAt instance.now.schema instance.now.tables choice.now test.now }
    ensures { IfOk result (λ found. IfSome found (λ rows.
        rows.now ≡ listed_rows instance.now.tables choice.now test.now index.now)) }
{
    let standings = choice.standings();
    match test {
        Equation::Ent(left, right) => {
            let row = instance.row_over(standings, if index.turned { left } else { right });
            Ok(index.lists.for_row(row))
        }
        Equation::Typ(left, right) => {
            if index.turned {
                cell_rows(alloc, instance, choice, left, index)
            } else {
                cell_rows(alloc, instance, choice, right, index)
            }
        }
    }
}
