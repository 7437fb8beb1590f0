//! The instance of all answers of a query.
ghost use Rattle.std.specs.Prelude.{◌≡◌, ◌+◌, ◌<◌, ◌≤◌, All, false, IfOk, IfErr, length, map, nat_lt, sum};
ghost use Rattle.cq_theory.specs.Canonical.{below};
ghost use Rattle.cq_theory.specs.Tables.{Initial};
ghost use Rattle.cq_instance.specs.Given.{HasLeastNames, given, is_oversized};
ghost use Rattle.cq_query.specs.Answers.{IsEval};
ghost use Rattle.cq_query.specs.Duties.{Sound};
ghost use Rattle.cq_eval.specs.Made.{answers_of, made_tables};
ghost use Rattle.cq_eval.specs.Refused.{NoneHasMany, TellsEval, TellsLarge};

use crate::cells::cell_columns;
use crate::keys::key_columns;
use crate::refusal::EvalRefusal;
use crate::table::{Answers, all_answers};
use cq_base::Seq;
use cq_instance::Instance;
use cq_query::Query;
use cq_theory::Sheet;
use std::alloc::{AllocError, Global};

/// The most rows and nulls of an instance.
const MOST_GENERATORS: u64 = cq_theory::MOST_GENERATORS as u64;

/// The instance of the tables of all answers, with their canonical presentation. An entity has a row for each answer,
/// in their order, and equal cells merge nothing; a foreign key leads to the answer that its terms give, and a cell
/// has the value of its attribute's term. Nulls and entries are those of `instance`. `TooManyAnswers` is answered
/// exactly where an entity has over 1,000,000 answers, with the first such entity; then `TooLarge` exactly where there
/// are over 16,000,000 rows and nulls together or a cell has over 1,024 symbols; and `Memory` for want of memory.
pub fn eval(alloc: Global, query: &Query, instance: &Instance) -> Result<Instance, EvalRefusal>
    requires sound { Sound query.now }
    requires over { instance.now.schema ≡ query.now.source }
    ensures tables { IfOk result (λ made. IsEval query.now instance.now.tables made.tables) }
    ensures instance { IfOk result (λ made. made ≡ given query.now.target made.tables) }
    ensures initial { IfOk result (λ made. Initial made.schema made.presentation made.tables made.assignment) }
    ensures least { IfOk result (λ made. HasLeastNames made) }
    ensures few { IfOk result (λ _. NoneHasMany query.now instance.now.tables) }
    ensures fits { IfOk result (λ made. is_oversized made.tables ≡ false) }
    ensures refused { IfErr result (TellsEval query.now instance.now.tables) }
{
    query.is_well_sorted();
    instance.is_instance();
    let answers = match all_answers(alloc, query, instance) {
        Ok(answers) => answers,
        Err(refusal) => return Err(refusal),
    };
    let sheet = match made_sheet(alloc, query, instance, answers.as_slice()) {
        Ok(sheet) => sheet,
        Err(refusal) => return Err(refusal),
    };
    match made_instance(alloc, query, instance, sheet) {
        Ok(made) => Ok(made),
        Err(_) => Err(EvalRefusal::Memory),
    }
}

/// Whether there are over 16,000,000 answers and nulls together.
fn has_many_rows(answers: &[Answers], nulls: usize) -> bool
    ensures { result ≡ nat_lt 16000000 (sum (map length answers.now) + nulls) }
{
    if nulls as u64 > MOST_GENERATORS {
        return true;
    }
    let mut room = MOST_GENERATORS - nulls as u64;
    for found in answers {
        let count = found.len() as u64;
        if count > room {
            return true;
        }
        room -= count;
    }
    false
}

/// How many answers there are for each entity.
fn counts(alloc: Global, answers: &[Answers]) -> Result<Seq<u32>, AllocError>
    requires { All (λ answers. length answers ≤ 1000000) answers.now }
    ensures { IfOk result (λ counts. counts ≡ map length answers.now) }
{
    let mut counts = Vec::with_capacity(alloc, answers.len())?;
    for found in answers {
        counts.push(found.len() as u32)?;
    }
    Ok(Seq::from_vec(counts))
}

/// The sheet of all answers.
fn made_sheet(
    alloc: Global,
    query: &Query,
    instance: &Instance,
    answers: &[Answers],
) -> Result<Sheet, EvalRefusal>
    requires over { instance.now.schema ≡ query.now.source }
    requires answers { answers.now ≡ map (answers_of query.now instance.now.tables)
        (below (length query.now.target.entities)) }
    requires few { All (λ answers. length answers ≤ 1000000) answers.now }
    ensures sheet { IfOk result (λ sheet. sheet ≡ (made_tables query.now instance.now.tables).sheet) }
    ensures fits { IfOk result (λ _. is_oversized (made_tables query.now instance.now.tables) ≡ false) }
    ensures refused { IfErr result (TellsLarge (is_oversized (made_tables query.now instance.now.tables))) }
{
    if has_many_rows(answers, instance.algebra().nulls.len()) {
        return Err(EvalRefusal::TooLarge);
    }
    let counts = counts(alloc, answers)?;
    let keys = key_columns(alloc, query, instance, answers)?;
    match cell_columns(alloc, query, instance, answers) {
        Ok(cells) => Ok(Sheet {
            counts,
            keys,
            cells,
        }),
        Err(refusal) => Err(refusal),
    }
}

/// The instance of the sheet of all answers.
fn made_instance(
    alloc: Global,
    query: &Query,
    instance: &Instance,
    sheet: Sheet,
) -> Result<Instance, AllocError>
    requires sound { Sound query.now }
    requires over { instance.now.schema ≡ query.now.source }
    requires sheet { sheet ≡ (made_tables query.now instance.now.tables).sheet }
    requires fits { is_oversized (made_tables query.now instance.now.tables) ≡ false }
    ensures instance { IfOk result (λ made. made ≡ given query.now.target (made_tables query.now instance.now.tables)) }
    ensures initial { IfOk result (λ made. Initial made.schema made.presentation made.tables made.assignment) }
    ensures least { IfOk result (λ made. HasLeastNames made) }
{
    query.is_well_sorted();
    instance.is_instance();
    let target = query.target.clone()?;
    instance.with_sheet(alloc, target, sheet)
}
