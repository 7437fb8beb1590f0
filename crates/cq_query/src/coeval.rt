//! The presentation of coeval.
ghost use Rattle.std.specs.Prelude.{ℕ, ◌≡◌, ◌+◌, ◌*◌, ◌++◌, ◌∷◌, ◌<◌, ◌≤◌, ◌^◌, ◌⊎◌, ◌||◌, [], true, false, IfOk};
ghost use Rattle.std.specs.Prelude.{IfErr, MatchOption, length, map, sum};
ghost use Rattle.std.specs.List.{list_any};
ghost use Rattle.cq_theory.specs.Presentation.{IsPresentation, has_long_side, is_oversized};
ghost use Rattle.cq_theory.specs.Tables.{Tables, IsWellFormed};
ghost use Rattle.cq_query.specs.Coeval.{start_of, size_of, starts as starts_of, null_start, coeval_of};
ghost use Rattle.cq_query.specs.Layout.{IsLayout};

use crate::query::Query;
use crate::rows::{Layout, push_rows};
use crate::sorts::build_generators;
use cq_base::{Seq, number_at};
use cq_terms::push_entries;
use cq_theory::{Algebra, MOST_GENERATORS, Presentation, Sheet, SizeRefusal, has_long_sides};
use std::alloc::{AllocError, Global};

impl Query {
    /// The presentation of coeval, over tables of the target: a generator for each row and each variable of its
    /// block, and then one for each null; the where equations on each row's generators, and what the foreign keys and
    /// the attributes of the row say of them; then the entries. `TooLarge` is answered exactly where a term would
    /// have over 1,024 symbols or there would be over 16,000,000 generators, and `Memory` for want of memory.
    pub fn coeval_presentation(
        &self,
        alloc: Global,
        sheet: &Sheet,
        algebra: &Algebra,
    ) -> Result<Presentation, SizeRefusal>
        requires { IsWellFormed self.now.target (record { sheet = sheet.now; algebra = algebra.now }) }
        ensures accepted { IfOk result (λ _. is_oversized
            (coeval_of self.now (record { sheet = sheet.now; algebra = algebra.now })) ≡ false) }
        ensures made { IfOk result (λ made. made ≡ coeval_of self.now
            (record { sheet = sheet.now; algebra = algebra.now })) }
        ensures presentation { IfOk result (λ made. IsPresentation self.now.source made) }
        ensures refused { IfErr result (λ refusal. (refusal ≡ SizeRefusal.Memory)
            ⊎ ((refusal ≡ SizeRefusal.TooLarge) × (is_oversized
            (coeval_of self.now (record { sheet = sheet.now; algebra = algebra.now })) ≡ true))) }
    {
        self.is_well_sorted();
        match find_starts(alloc, self, sheet.counts.as_slice()) {
            Ok((starts, first)) => {
                coeval_from(alloc, self, sheet, algebra, starts.as_slice(), first)
            }
            Err(refusal) => Err(refusal),
        }
    }
}

/// The end of the generators of an entity's rows, where those of all rows up to there are not too many.
fn end_of(start: u32, count: u32, width: u32) -> Option<u32>
    requires { start ≤ 16000000 }
    ensures { MatchOption result (16000000 < start + count * width)
        (λ end. (end ≡ start + count * width) × (end ≤ 16000000)) }
{
    let size = count as u64 * width as u64;
    if size > (MOST_GENERATORS - start) as u64 {
        None
    } else {
        Some(start + size as u32)
    }
}

/// The first generator of each entity's rows, and that of the nulls.
fn find_starts(alloc: Global, query: &Query, counts: &[u32]) -> Result<(Vec<u32>, u32), SizeRefusal>
    ensures small { IfOk result (λ _. null_start query.now counts.now ≤ 16000000) }
    ensures made { IfOk result (λ made. (made.0.items ≡ starts_of query.now counts.now)
        × (made.1 ≡ null_start query.now counts.now)) }
    ensures refused { IfErr result (λ refusal. (refusal ≡ SizeRefusal.Memory)
        ⊎ ((refusal ≡ SizeRefusal.TooLarge) × (16000000 < null_start query.now counts.now))) }
{
    let mut starts = Vec::new(alloc);
    let mut total = 0;
    for entity in 0..query.entity_count() {
        starts.push(total)?;
        let count = number_at(counts, entity as usize);
        let Some(end) = end_of(total, count, query.variable_count(entity)) else {
            return Err(SizeRefusal::TooLarge);
        };
        total = end;
    }
    Ok((starts, total))
}

/// The presentation, where the generators of the rows are not too many.
fn coeval_from(
    alloc: Global,
    query: &Query,
    sheet: &Sheet,
    algebra: &Algebra,
    starts: &[u32],
    first: u32,
) -> Result<Presentation, SizeRefusal>
    requires starts { starts.now ≡ starts_of query.now sheet.now.counts }
    requires first { first ≡ null_start query.now sheet.now.counts }
    requires small { first ≤ 16000000 }
    ensures accepted { IfOk result (λ _. is_oversized
        (coeval_of query.now (record { sheet = sheet.now; algebra = algebra.now })) ≡ false) }
    ensures made { IfOk result (λ made. made ≡ coeval_of query.now
        (record { sheet = sheet.now; algebra = algebra.now })) }
    ensures refused { IfErr result (λ refusal. (refusal ≡ SizeRefusal.Memory)
        ⊎ ((refusal ≡ SizeRefusal.TooLarge) × (is_oversized
        (coeval_of query.now (record { sheet = sheet.now; algebra = algebra.now })) ≡ true))) }
{
    let nulls = algebra.nulls.len();
    if nulls > (MOST_GENERATORS - first) as usize {
        return Err(SizeRefusal::TooLarge);
    }
    let layout = Layout {
        query,
        sheet,
        starts,
        first,
        nulls: nulls as u32,
    };
    let made = build_coeval(alloc, &layout, algebra)?;
    check_size(made)
}

/// The presentation over this layout.
fn build_coeval(
    alloc: Global,
    layout: &Layout,
    algebra: &Algebra,
) -> Result<Presentation, AllocError>
    requires layout { IsLayout layout.now }
    requires nulls { layout.now.nulls ≡ length algebra.now.nulls }
    ensures { IfOk result (λ made. made ≡ coeval_of layout.now.query.now
        (record { sheet = layout.now.sheet.now; algebra = algebra.now })) }
{
    let generators = build_generators(
        alloc,
        layout.query,
        layout.sheet.counts.as_slice(),
        algebra.nulls.as_slice(),
    )?;
    let mut equations = Vec::new(alloc);
    push_rows(alloc, layout, &mut equations)?;
    push_entries(
        alloc,
        layout.first,
        layout.nulls,
        algebra.entries.as_slice(),
        &mut equations,
    )?;
    Ok(Presentation {
        generators: Seq::from_vec(generators),
        equations: Seq::from_vec(equations),
    })
}

/// The presentation, where its terms are not too large.
fn check_size(made: Presentation) -> Result<Presentation, SizeRefusal>
    ensures ok { IfOk result (λ same. (same ≡ made) × (list_any has_long_side made.equations ≡ false)) }
    ensures refused { IfErr result (λ refusal. (refusal ≡ SizeRefusal.TooLarge)
        × (list_any has_long_side made.equations ≡ true)) }
{
    if has_long_sides(made.equations.as_slice()) {
        Err(SizeRefusal::TooLarge)
    } else {
        Ok(made)
    }
}
