//! What a search knows of the answers behind borders.
ghost use Rattle.std.specs.Prelude.{ℕ, ◌≡◌, ◌⊎◌, ◌<◌, ◌≤◌, ◌+◌, true, IfOk, IfSome, Some, length, slice_get};
ghost use Rattle.cq_eval.specs.declared.known.Stretch.{Stretch as AnyStretch};

use cq_base::Seq;
use std::alloc::{AllocError, Global};

/// The places of some answers that stand behind one another, from the first up to the one behind the last.
#[derive(Clone, Copy)]
pub(crate) struct Stretch {
    pub(crate) start: usize,
    pub(crate) end: usize,
}

/// Which numbers of bound variables are borders, where the answers stand that were found behind each, and below how
/// many bound variables it is known that there are none.
pub(crate) struct Known {
    pub(crate) borders: Seq<bool>,
    pub(crate) noted: Vec<Option<Stretch>>,
    pub(crate) vain: usize,
}

impl Drop for Known {
    fn drop(self) {
        let Self {
            borders: _,
            noted: _,
            vain: _,
        } = self;
    }
}

impl Known {
    /// These borders, behind which nothing is found yet.
    pub(crate) fn new(alloc: Global, borders: Seq<bool>) -> Result<Known, AllocError>
        ensures borders { IfOk result (λ known. known.borders ≡ borders) }
        ensures noted { IfOk result (λ known. (bound : ℕ) (stretch : AnyStretch)
            → slice_get known.noted.items bound ≡ Some (Some stretch) → ⊥) }
        ensures vain { IfOk result (λ known. known.vain ≡ 0) }
    {
        let mut noted = Vec::with_capacity(alloc, borders.len())?;
        for _border in borders.as_slice() {
            noted.push(None)?;
        }
        Ok(Known {
            borders,
            noted,
            vain: 0,
        })
    }

    /// Whether so many bound variables are a border.
    pub(crate) fn is_border(&self, bound: usize) -> bool
        ensures { result ≡ true → slice_get self.now.borders bound ≡ Some true }
    {
        match self.borders.as_slice().get(bound) {
            Some(border) => *border,
            None => false,
        }
    }

    /// The answers that were found behind so many bound variables.
    pub(crate) fn at(&self, bound: usize) -> Option<Stretch>
        ensures { IfSome result (λ stretch. slice_get self.now.noted.items bound ≡ Some (Some stretch)) }
    {
        match self.noted.get(bound) {
            Some(stretch) => *stretch,
            None => None,
        }
    }

    /// Whether it is known that there are no answers, where so many variables are bound.
    pub(crate) fn is_vain(&self, bound: usize) -> bool
        ensures { result ≡ true → bound < self.now.vain }
    {
        bound < self.vain
    }

    /// Takes note of the answers that were found behind so many bound variables. Where there are none, there is none.
    pub(crate) fn note(&mut self, bound: usize, stretch: Stretch)
        requires { bound < length self.old.borders }
        ensures borders { self.new.borders ≡ self.old.borders }
        ensures noted { (place : ℕ) (other : AnyStretch) → slice_get self.new.noted.items place ≡ Some (Some other)
            → (slice_get self.old.noted.items place ≡ Some (Some other)) ⊎ ((place ≡ bound) × (other ≡ stretch)) }
        ensures vain { (place : ℕ) → place < self.new.vain
            → (place < self.old.vain) ⊎ ((stretch.start ≡ stretch.end) × (place ≤ bound)) }
    {
        // A length fits, and so does the number behind one that is less.
        let _width = self.borders.len();
        self.set(bound, stretch);
        if stretch.start == stretch.end {
            self.vain = self.vain.max(bound + 1);
        }
    }

    /// Puts the answers where they are looked up.
    fn set(&mut self, bound: usize, stretch: Stretch)
        ensures borders { self.new.borders ≡ self.old.borders }
        ensures noted { (place : ℕ) (other : AnyStretch) → slice_get self.new.noted.items place ≡ Some (Some other)
            → (slice_get self.old.noted.items place ≡ Some (Some other)) ⊎ ((place ≡ bound) × (other ≡ stretch)) }
        ensures vain { self.new.vain ≡ self.old.vain }
    {
        if bound < self.noted.len() {
            self.noted[bound] = Some(stretch);
        }
    }
}
