//! The search for answers, one variable at a time.
ghost use Rattle.std.specs.Prelude.{ℕ, ◌≡◌, ◌+◌, ◌<◌, ◌≤◌, ◌==◌, ◌++◌, ◌∷◌, [], false, true, IfOk, IfSome, OnOk, IfErr};
ghost use Rattle.std.specs.Prelude.{length, map, take, drop, slice_get, slice_index, slice_index_or, option_copied};
ghost use Rattle.std.specs.Prelude.{Some};
ghost use Rattle.std.specs.List.{list_any};
ghost use Rattle.cq_theory.specs.declared.presentation.Equation.{Equation};
ghost use Rattle.cq_query.specs.Answers.{IsTuple};
ghost use Rattle.cq_eval.specs.Join.{IsJoin, IsLast, combinations, test_passes_at, found_from, found_by};
ghost use Rattle.cq_eval.specs.Index.{AreIndexes, IsCover};
ghost use Rattle.cq_eval.specs.Border.{IsBorder};
ghost use Rattle.cq_eval.specs.Known.{between, AreKnown};
ghost use Rattle.cq_eval.specs.Made.{answers_with};
ghost use Rattle.cq_eval.specs.Testing.{holds_at};
ghost use Rattle.cq_eval.specs.Refused.{TellsOver};

use crate::choice::Choice;
use crate::free::{MOST_ANSWERS, is_over};
use crate::index::TestIndex;
use crate::known::{Known, Stretch};
use crate::listed::indexed;
use crate::refusal::EvalRefusal;
use crate::rows::Rows;
use crate::testing::holds;
use cq_base::Seq;
use cq_instance::Instance;
use cq_theory::Equation;
use std::alloc::{AllocError, Global};

/// How many variables can be bound before the system's stack of 8 MiB would be too small.
const MOST_BOUND: usize = 8_000;

/// What the answers for an entity are searched by: the where equations of its block, which of them are tested when so
/// many variables are bound, and how many rows there are for each variable.
pub(crate) struct Join<'a> {
    pub(crate) alloc: Global,
    pub(crate) entity: u32,
    pub(crate) instance: &'a Instance,
    pub(crate) tests: &'a [Equation],
    pub(crate) groups: Seq<Seq<usize>>,
    // When as many variables are bound as this, none is tested any more.
    pub(crate) last: usize,
    pub(crate) counts: Seq<u32>,
    pub(crate) indexes: Seq<Option<TestIndex>>,
}

impl Drop for Join<'_> {
    fn drop(self) {
        let Self {
            alloc: _,
            entity: _,
            instance: _,
            tests: _,
            groups: _,
            last: _,
            counts: _,
            indexes: _,
        } = self;
    }
}

impl Join<'_> {
    /// The places of the where equations that are tested when so many variables are bound.
    fn tested(&self, bound: usize) -> &[usize]
        ensures { result.now ≡ slice_index_or self.now.groups bound [] }
    {
        match self.groups.as_slice().get(bound) {
            Some(places) => places.as_slice(),
            None => &[],
        }
    }

    /// Whether the where equation at a place holds.
    fn is_met(&self, alloc: Global, choice: &Choice, place: usize) -> Result<bool, AllocError>
        requires join { IsJoin self.now.instance.now.schema self.now.instance.now.tables self.now.tests.now
            self.now.groups self.now.counts }
        requires choice { IsTuple choice.now self.now.counts }
        requires place { place < length self.now.tests.now }
        ensures { IfOk result (λ met. (e : Equation) → slice_get self.now.tests.now place ≡ Some e
            → met ≡ holds_at self.now.instance.now.tables choice.now e) }
    {
        let test = &self.tests[place];
        let met = holds(alloc, self.instance, choice, test)?;
        Ok(met)
    }

    /// Whether the where equations hold that are tested when so many variables are bound.
    fn passes(&self, alloc: Global, choice: &Choice, bound: usize) -> Result<bool, AllocError>
        requires join { IsJoin self.now.instance.now.schema self.now.instance.now.tables self.now.tests.now
            self.now.groups self.now.counts }
        requires choice { IsTuple choice.now self.now.counts }
        requires bound { bound ≤ length self.now.counts }
        ensures { IfOk result (λ passes. passes ≡ test_passes_at self.now.instance.now.tables self.now.tests.now
            self.now.counts bound choice.now) }
    {
        let places = self.tested(bound);
        for place in places {
            if !self.is_met(alloc, choice, *place)? {
                return Ok(false);
            }
        }
        Ok(true)
    }

    /// Puts an answer behind others, of which there may be 1,000,000.
    fn push(&self, rows: Rows, found: &mut Vec<Rows>) -> Result<(), EvalRefusal>
        ensures found { OnOk result (found.new.items ≡ found.old.items ++ rows ∷ []) }
        ensures few { OnOk result (length found.new.items ≤ 1000000) }
        ensures refused { IfErr result (TellsOver self.now.entity (length found.old.items + 1)) }
    {
        if found.len() >= MOST_ANSWERS {
            return Err(EvalRefusal::TooManyAnswers(self.entity));
        }
        match found.push(rows) {
            Ok(()) => Ok(()),
            Err(_) => Err(EvalRefusal::Memory),
        }
    }

    /// Puts the rows that are chosen behind other answers.
    fn keep(&self, choice: &Choice, found: &mut Vec<Rows>) -> Result<(), EvalRefusal>
        ensures found { OnOk result (found.new.items ≡ found.old.items ++ choice.now ∷ []) }
        ensures few { OnOk result (length found.new.items ≤ 1000000) }
        ensures refused { IfErr result (TellsOver self.now.entity (length found.old.items + 1)) }
    {
        let rows = choice.rows(self.alloc)?;
        self.push(rows, found)
    }

    /// Puts one of the answers behind the others, with other rows for the first `bound` variables.
    fn repeat_one(
        &self,
        choice: &Choice,
        bound: usize,
        place: usize,
        found: &mut Vec<Rows>,
    ) -> Result<(), EvalRefusal>
        requires place { place < length found.old.items }
        ensures found { OnOk result (found.new.items ≡ found.old.items
            ++ (take bound choice.now ++ drop bound (slice_index_or found.old.items place [])) ∷ []) }
        ensures few { OnOk result (length found.new.items ≤ 1000000) }
        ensures refused { IfErr result (TellsOver self.now.entity (length found.old.items + 1)) }
    {
        let rows = choice.behind(self.alloc, bound, found[place].as_slice())?;
        self.push(rows, found)
    }

    /// Puts answers that stand among the others behind them, with other rows for the first `bound` variables.
    fn repeat(
        &self,
        choice: &Choice,
        bound: usize,
        stretch: Stretch,
        found: &mut Vec<Rows>,
    ) -> Result<(), EvalRefusal>
        requires rises { stretch.start ≤ stretch.end }
        requires within { stretch.end ≤ length found.old.items }
        requires few { length found.old.items ≤ 1000000 }
        ensures found { OnOk result (found.new.items ≡ found.old.items
            ++ map (λ list. take bound choice.now ++ drop bound list) (between stretch found.old.items)) }
        ensures few { OnOk result (length found.new.items ≤ 1000000) }
        ensures refused { IfErr result (TellsOver self.now.entity
            (length found.old.items + length (between stretch found.old.items))) }
    {
        for place in stretch.start..stretch.end {
            if let Err(refusal) = self.repeat_one(choice, bound, place, found) {
                return Err(refusal);
            }
        }
        Ok(())
    }

    /// The index of a where equation, if it has one.
    fn index_at(&self, place: usize) -> Option<&Option<TestIndex>>
        ensures { option_copied result ≡ slice_get self.now.indexes place }
    {
        self.indexes.as_slice().get(place)
    }

    /// The rows for the next variable by the index of one where equation, if they are fewer than those by others.
    fn fewer<'b>(
        &'b self,
        alloc: Global,
        choice: &Choice,
        bound: usize,
        place: usize,
        fewest: Option<&'b [u32]>,
    ) -> Result<Option<&'b [u32]>, AllocError>
        requires join { IsJoin self.now.instance.now.schema self.now.instance.now.tables self.now.tests.now
            self.now.groups self.now.counts }
        requires indexed { AreIndexes self.now.instance.now.tables self.now.counts self.now.tests.now self.now.indexes }
        requires choice { IsTuple choice.now self.now.counts }
        requires place { place < length self.now.tests.now }
        requires fewest { IfSome fewest (λ rows. IsCover self.now.instance.now.tables self.now.tests.now self.now.counts
            (take bound choice.now) (slice_index self.now.counts bound) rows.now) }
        ensures { IfOk result (λ found. IfSome found
            (λ rows. IsCover self.now.instance.now.tables self.now.tests.now self.now.counts (take bound choice.now)
            (slice_index self.now.counts bound) rows.now)) }
    {
        let Some(Some(index)) = self.index_at(place) else {
            return Ok(fewest);
        };
        if index.variable != bound {
            return Ok(fewest);
        }
        let test = &self.tests[place];
        let Some(rows) = indexed(alloc, self.instance, choice, test, index)? else {
            return Ok(fewest);
        };
        match fewest {
            Some(others) => {
                if others.len() <= rows.len() {
                    Ok(Some(others))
                } else {
                    Ok(Some(rows))
                }
            }
            None => Ok(Some(rows)),
        }
    }

    /// The rows for the next variable by an index, the fewest where there are several, or nothing where there is none.
    fn candidates(
        &self,
        alloc: Global,
        choice: &Choice,
        bound: usize,
    ) -> Result<Option<&[u32]>, AllocError>
        requires join { IsJoin self.now.instance.now.schema self.now.instance.now.tables self.now.tests.now
            self.now.groups self.now.counts }
        requires indexed { AreIndexes self.now.instance.now.tables self.now.counts self.now.tests.now self.now.indexes }
        requires choice { IsTuple choice.now self.now.counts }
        requires bound { bound < length self.now.counts }
        ensures { IfOk result (λ found. IfSome found
            (λ rows. IsCover self.now.instance.now.tables self.now.tests.now self.now.counts (take bound choice.now)
            (slice_index self.now.counts bound) rows.now)) }
    {
        // A length fits, and so does the number behind one that is less.
        let _width = self.counts.len();
        // An equation that has an index for this variable is tested as soon as it is bound.
        let places = self.tested(bound + 1);
        let mut fewest = None;
        for place in places {
            fewest = self.fewer(alloc, choice, bound, *place, fewest)?;
        }
        Ok(fewest)
    }

    /// Whether there are over 1,000,000 answers with those that begin so, since no where equation is left to be tested.
    fn has_many(&self, bound: usize, found: usize) -> bool
        requires few { found ≤ 1000000 }
        ensures { result ≡ true → (bound ≡ self.now.last)
            × (1000000 < found + combinations (drop bound self.now.counts)) }
    {
        bound == self.last && is_over(found, self.counts.as_slice(), bound)
    }

    /// Finds all answers that begin with the rows of the first `bound` variables, and puts them behind others.
    /// Variables in no where equation that is left are counted before any of their rows is tried.
    #[cycle(join)]
    fn extend(
        &self,
        choice: &mut Choice,
        bound: usize,
        found: &mut Vec<Rows>,
        known: &mut Known,
    ) -> Result<(), EvalRefusal>
        requires join { IsJoin self.now.instance.now.schema self.now.instance.now.tables self.now.tests.now
            self.now.groups self.now.counts }
        requires indexed { AreIndexes self.now.instance.now.tables self.now.counts self.now.tests.now self.now.indexes }
        requires last { IsLast self.now.tests.now self.now.counts self.now.last }
        requires choice { IsTuple choice.old self.now.counts }
        requires bound { bound ≤ length self.now.counts }
        requires few { length found.old.items ≤ 1000000 }
        requires known { AreKnown self.now.instance.now.tables self.now.tests.now self.now.counts found.old.items
            known.old }
        ensures found { OnOk result (found.new.items ≡ found.old.items
            ++ found_from self.now.instance.now.tables self.now.tests.now self.now.counts (drop bound self.now.counts)
            (take bound choice.old)) }
        ensures few { OnOk result (length found.new.items ≤ 1000000) }
        ensures choice { IsTuple choice.new self.now.counts }
        ensures kept { take bound choice.new ≡ take bound choice.old }
        ensures known { OnOk result (AreKnown self.now.instance.now.tables self.now.tests.now self.now.counts
            found.new.items known.new) }
        ensures refused { IfErr result (TellsOver self.now.entity
            (length found.old.items + length (found_from self.now.instance.now.tables self.now.tests.now self.now.counts
            (drop bound self.now.counts) (take bound choice.old)))) }
    {
        if bound >= self.counts.len() {
            return self.keep(choice, found);
        }
        if self.has_many(bound, found.len()) {
            return Err(EvalRefusal::TooManyAnswers(self.entity));
        }
        if let Some(rows) = self.candidates(self.alloc, choice, bound)? {
            return self.extend_among(choice, bound, rows, found, known);
        }
        for row in 0..self.counts.as_slice()[bound] {
            if let Err(refusal) = self.extend_by(choice, bound, row, found, known) {
                return Err(refusal);
            }
        }
        Ok(())
    }

    /// Finds all answers that begin so, where the next variable has one of these rows.
    #[cycle(join)]
    fn extend_among(
        &self,
        choice: &mut Choice,
        bound: usize,
        rows: &[u32],
        found: &mut Vec<Rows>,
        known: &mut Known,
    ) -> Result<(), EvalRefusal>
        requires join { IsJoin self.now.instance.now.schema self.now.instance.now.tables self.now.tests.now
            self.now.groups self.now.counts }
        requires indexed { AreIndexes self.now.instance.now.tables self.now.counts self.now.tests.now self.now.indexes }
        requires last { IsLast self.now.tests.now self.now.counts self.now.last }
        requires choice { IsTuple choice.old self.now.counts }
        requires bound { bound < length self.now.counts }
        requires cover { IsCover self.now.instance.now.tables self.now.tests.now self.now.counts (take bound choice.old)
            (slice_index self.now.counts bound) rows.now }
        requires few { length found.old.items ≤ 1000000 }
        requires known { AreKnown self.now.instance.now.tables self.now.tests.now self.now.counts found.old.items
            known.old }
        ensures found { OnOk result (found.new.items ≡ found.old.items
            ++ found_from self.now.instance.now.tables self.now.tests.now self.now.counts (drop bound self.now.counts)
            (take bound choice.old)) }
        ensures few { OnOk result (length found.new.items ≤ 1000000) }
        ensures choice { IsTuple choice.new self.now.counts }
        ensures kept { take bound choice.new ≡ take bound choice.old }
        ensures known { OnOk result (AreKnown self.now.instance.now.tables self.now.tests.now self.now.counts
            found.new.items known.new) }
        ensures refused { IfErr result (TellsOver self.now.entity
            (length found.old.items + length (found_from self.now.instance.now.tables self.now.tests.now self.now.counts
            (drop bound self.now.counts) (take bound choice.old)))) }
    {
        for row in rows {
            if let Err(refusal) = self.extend_by(choice, bound, *row, found, known) {
                return Err(refusal);
            }
        }
        Ok(())
    }

    /// Binds one more variable to a row, and finds the answers that begin so.
    #[cycle(join)]
    fn extend_by(
        &self,
        choice: &mut Choice,
        bound: usize,
        row: u32,
        found: &mut Vec<Rows>,
        known: &mut Known,
    ) -> Result<(), EvalRefusal>
        requires join { IsJoin self.now.instance.now.schema self.now.instance.now.tables self.now.tests.now
            self.now.groups self.now.counts }
        requires indexed { AreIndexes self.now.instance.now.tables self.now.counts self.now.tests.now self.now.indexes }
        requires last { IsLast self.now.tests.now self.now.counts self.now.last }
        requires choice { IsTuple choice.old self.now.counts }
        requires bound { bound < length self.now.counts }
        requires row { row < slice_index self.now.counts bound }
        requires few { length found.old.items ≤ 1000000 }
        requires known { AreKnown self.now.instance.now.tables self.now.tests.now self.now.counts found.old.items
            known.old }
        ensures found { OnOk result (found.new.items ≡ found.old.items
            ++ found_by self.now.instance.now.tables self.now.tests.now self.now.counts
            (drop (bound + 1) self.now.counts) (take bound choice.old ++ row ∷ [])) }
        ensures few { OnOk result (length found.new.items ≤ 1000000) }
        ensures choice { IsTuple choice.new self.now.counts }
        ensures kept { take bound choice.new ≡ take bound choice.old }
        ensures known { OnOk result (AreKnown self.now.instance.now.tables self.now.tests.now self.now.counts
            found.new.items known.new) }
        ensures refused { IfErr result (TellsOver self.now.entity
            (length found.old.items + length (found_by self.now.instance.now.tables self.now.tests.now self.now.counts
            (drop (bound + 1) self.now.counts) (take bound choice.old ++ row ∷ [])))) }
    {
        // A length fits, and so does the number behind one that is less.
        let _width = self.counts.len();
        if known.is_vain(bound + 1) {
            return Ok(());
        }
        choice.set(bound, row);
        if !self.passes(self.alloc, choice, bound + 1)? {
            return Ok(());
        }
        self.extend_once(choice, bound + 1, found, known)
    }

    /// Finds all answers that begin with the rows of the first `bound` variables, and puts them behind others. Behind a
    /// border they are searched once, and then known. Each variable more takes some of the system's stack, whose end is
    /// want of memory too.
    #[cycle(join)]
    fn extend_once(
        &self,
        choice: &mut Choice,
        bound: usize,
        found: &mut Vec<Rows>,
        known: &mut Known,
    ) -> Result<(), EvalRefusal>
        requires join { IsJoin self.now.instance.now.schema self.now.instance.now.tables self.now.tests.now
            self.now.groups self.now.counts }
        requires indexed { AreIndexes self.now.instance.now.tables self.now.counts self.now.tests.now self.now.indexes }
        requires last { IsLast self.now.tests.now self.now.counts self.now.last }
        requires choice { IsTuple choice.old self.now.counts }
        requires bound { bound ≤ length self.now.counts }
        requires few { length found.old.items ≤ 1000000 }
        requires known { AreKnown self.now.instance.now.tables self.now.tests.now self.now.counts found.old.items
            known.old }
        ensures found { OnOk result (found.new.items ≡ found.old.items
            ++ found_from self.now.instance.now.tables self.now.tests.now self.now.counts (drop bound self.now.counts)
            (take bound choice.old)) }
        ensures few { OnOk result (length found.new.items ≤ 1000000) }
        ensures choice { IsTuple choice.new self.now.counts }
        ensures kept { take bound choice.new ≡ take bound choice.old }
        ensures known { OnOk result (AreKnown self.now.instance.now.tables self.now.tests.now self.now.counts
            found.new.items known.new) }
        ensures refused { IfErr result (TellsOver self.now.entity
            (length found.old.items + length (found_from self.now.instance.now.tables self.now.tests.now self.now.counts
            (drop bound self.now.counts) (take bound choice.old)))) }
    {
        if bound > MOST_BOUND {
            return Err(EvalRefusal::Memory);
        }
        if let Some(stretch) = known.at(bound) {
            return self.repeat(choice, bound, stretch, found);
        }
        let start = found.len();
        if let Err(refusal) = self.extend(choice, bound, found, known) {
            return Err(refusal);
        }
        if !known.is_border(bound) {
            return Ok(());
        }
        let end = found.len();
        known.note(bound, Stretch { start, end });
        Ok(())
    }

    /// All answers, in lexicographic order.
    pub(crate) fn answers(&self, borders: Seq<bool>) -> Result<Vec<Rows>, EvalRefusal>
        requires join { IsJoin self.now.instance.now.schema self.now.instance.now.tables self.now.tests.now
            self.now.groups self.now.counts }
        requires indexed { AreIndexes self.now.instance.now.tables self.now.counts self.now.tests.now self.now.indexes }
        requires last { IsLast self.now.tests.now self.now.counts self.now.last }
        requires rows { list_any (λ count. count == 0) self.now.counts ≡ false }
        requires long { length borders ≡ length self.now.counts }
        requires borders { (bound : ℕ) → slice_get borders bound ≡ Some true
            → IsBorder (length self.now.counts) self.now.tests.now bound }
        ensures answers { IfOk result (λ found. found.items ≡ answers_with self.now.instance.now.tables
            self.now.tests.now self.now.counts) }
        ensures few { IfOk result (λ found. length found.items ≤ 1000000) }
        ensures refused { IfErr result (TellsOver self.now.entity
            (length (answers_with self.now.instance.now.tables self.now.tests.now self.now.counts))) }
    {
        let mut choice = Choice::first(self.alloc, self.counts.as_slice())?;
        let mut found = Vec::new(self.alloc);
        if !self.passes(self.alloc, &choice, 0)? {
            return Ok(found);
        }
        let mut known = Known::new(self.alloc, borders)?;
        match self.extend(&mut choice, 0, &mut found, &mut known) {
            Ok(()) => Ok(found),
            Err(refusal) => Err(refusal),
        }
    }
}
