//! Tables of texts.
ghost use Rattle.std.specs.Prelude.{◌≡◌, ◌||◌, ◌++◌, ◌∷◌, [], IfOk, OnOk, map};
ghost use Rattle.cq_base.specs.Names.{same_name};
ghost use Rattle.cq_base.specs.declared.name.Name.{Name as AnyName};
ghost use Rattle.cq_theory.specs.Paths.{is_among};

use crate::text::Text;
use cq_base::{Hashing, Name};
use cq_theory::Fun;
use indexmap::IndexSet;
use std::alloc::{AllocError, Global};
use std::marker::Model;

/// Texts. Contracts see the list of those that were added, each once.
pub(crate) struct Texts {
    // Hashed as its first text wants it.
    texts: IndexSet<Text, Hashing>,
    alloc: Global,
}

impl Model for Texts {
    ghost use Rattle.std.specs.Prelude.{ℕ, List};

    ghost Value = { List (List ℕ) };

    ghost view = { λ table. table.texts.keys };
}

impl Drop for Texts {
    fn drop(self) {
        let Self { texts: _, alloc: _ } = self;
    }
}

impl Texts {
    /// No texts.
    fn new(alloc: Global) -> Texts
        ensures { result ≡ [] }
    {
        Texts {
            texts: IndexSet::with_hasher(alloc, Hashing::new()),
            alloc,
        }
    }

    /// Adds a text.
    #[tactic(auto, using(crate::proofs::Among::among_inserted))]
    fn add(&mut self, text: Text) -> Result<(), AllocError>
        ensures { (name : AnyName) → OnOk result (
            is_among self.new name ≡ (is_among self.old name || same_name name text)) }
    {
        if self.texts.is_empty() {
            self.texts = IndexSet::with_hasher(self.alloc, text.hashing());
        }
        match self.texts.insert(text) {
            Ok(_) => Ok(()),
            Err(_) => Err(AllocError),
        }
    }

    /// Whether a text is there.
    pub(crate) fn has(&self, text: &Text) -> bool
        ensures { result ≡ is_among self.now text.now }
    {
        self.texts.get_index_of(text).is_some()
    }

    /// The texts of names.
    pub(crate) fn of_names(alloc: Global, names: &[Name]) -> Result<Texts, AllocError>
        ensures { (name : AnyName) → IfOk result (λ made. is_among made name ≡ is_among names.now name) }
    {
        let mut made = Texts::new(alloc);
        for name in names {
            made.add(Text::of_name(alloc, name)?)?;
        }
        Ok(made)
    }

    /// The texts of the names of functions.
    pub(crate) fn of_functions(alloc: Global, functions: &[Fun]) -> Result<Texts, AllocError>
        ensures { (name : AnyName) → IfOk result (λ made.
            is_among made name ≡ is_among (map (λ f. f.name) functions.now) name) }
    {
        let mut made = Texts::new(alloc);
        for function in functions {
            made.add(Text::of_name(alloc, &function.name)?)?;
        }
        Ok(made)
    }
}
