//! Borders of a search: behind how many bound variables no where equation that is left reads one of them.
ghost use Rattle.std.specs.Prelude.{ℕ, ◌≡◌, ◌<◌, ◌≤◌, ◌+◌, ◌^◌, true, false, IfOk, Some, length, replicate};
ghost use Rattle.std.specs.Prelude.{slice_get, slice_index, slice_set};
ghost use Rattle.cq_eval.specs.Border.{AreLeast, IsBorder, first_of as type_first, first_variable as equation_first};

use crate::reaches::reach;
use cq_base::Seq;
use cq_theory::{Equation, TypeTerm};
use std::alloc::{AllocError, Global};

/// The first variable of a type term, and the number of variables where it has none.
fn first_of(width: usize, term: &TypeTerm) -> usize
    ensures { result ≡ type_first width term.now }
{
    match term {
        TypeTerm::Gen(generator) => *generator as usize,
        TypeTerm::Const(_) => width,
        TypeTerm::Att(_, term) => term.generator as usize,
        TypeTerm::Fun(_, args) => {
            let mut first = usize::MAX;
            for arg in args.as_slice() {
                first = first_of(width, arg).min(first);
            }
            first.min(width)
        }
    }
}

/// The first variable of a where equation, and the number of variables where it has none.
fn first_variable(width: usize, test: &Equation) -> usize
    ensures { result ≡ equation_first width test.now }
{
    match test {
        Equation::Ent(left, right) => (left.generator as usize).min(right.generator as usize),
        Equation::Typ(left, right) => first_of(width, left).min(first_of(width, right)),
    }
}

/// Lowers a number to another one, if that is less.
fn lower(numbers: &mut Vec<usize>, place: usize, to: usize)
    requires { place < length numbers.old.items }
    ensures long { length numbers.new.items ≡ length numbers.old.items }
    ensures here { slice_index numbers.new.items place ≤ to }
    ensures falls { (n : ℕ) → slice_index numbers.new.items n ≤ slice_index numbers.old.items n }
{
    if to < numbers[place] {
        numbers[place] = to;
    }
}

/// For each number of bound variables the number of variables.
fn widths(alloc: Global, width: usize) -> Result<Vec<usize>, AllocError>
    requires { width < 2 ^ 63 }
    ensures { IfOk result (λ made. made.items ≡ replicate (width + 1) width) }
{
    Ok(vec![in alloc; width; width + 1]?)
}

/// No border at all.
fn none_yet(alloc: Global, width: usize) -> Result<Vec<bool>, AllocError>
    ensures { IfOk result (λ made. made.items ≡ replicate width false) }
{
    Ok(vec![in alloc; false; width]?)
}

/// Says of one number of bound variables whether it is a border.
fn mark(borders: &mut Vec<bool>, bound: usize, is: bool)
    requires { bound < length borders.old.items }
    ensures { borders.new.items ≡ slice_set borders.old.items bound is }
{
    borders[bound] = is;
}

/// For each number of bound variables the first variable that is read by a where equation that is tested then.
fn least_firsts(alloc: Global, tests: &[Equation], width: usize) -> Result<Vec<usize>, AllocError>
    requires { width < 2 ^ 63 }
    ensures { IfOk result (λ firsts. AreLeast width tests.now firsts.items) }
{
    let mut firsts = widths(alloc, width)?;
    for test in tests {
        lower(
            &mut firsts,
            width.min(reach(test)),
            first_variable(width, test),
        );
    }
    Ok(firsts)
}

/// For each number of bound variables whether it is a border.
pub(crate) fn borders(
    alloc: Global,
    tests: &[Equation],
    counts: &[u32],
) -> Result<Seq<bool>, AllocError>
    ensures long { IfOk result (λ borders. length borders ≡ length counts.now) }
    ensures borders { IfOk result (λ borders. (bound : ℕ) → slice_get borders bound ≡ Some true
        → IsBorder (length counts.now) tests.now bound) }
{
    let width = counts.len();
    let firsts = least_firsts(alloc, tests, width)?;
    let mut borders = none_yet(alloc, width)?;
    let mut first = width;
    for step in 0..width {
        let bound = width - 1 - step;
        first = first.min(firsts[bound + 1]);
        mark(&mut borders, bound, first >= bound);
    }
    Ok(Seq::from_vec(borders))
}
