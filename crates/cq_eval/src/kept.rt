//! The indexes that a run has made, each once.
ghost use Rattle.std.specs.Prelude.{ℕ, ◌≡◌, ◌<◌, ◌∷◌, [], Some, IfOk, OnOk, length, map, slice_index_or};
ghost use Rattle.cq_theory.specs.Canonical.{below};
ghost use Rattle.cq_theory.specs.Tables.{Tables, row_from};
ghost use Rattle.cq_theory.specs.declared.value.Value.{Value};
ghost use Rattle.cq_instance.specs.CellRows.{rows_with, indexed_rows};
ghost use Rattle.cq_theory.specs.Groups.{positions};
ghost use Rattle.cq_instance.specs.Terms.{IsOnWay};
ghost use Rattle.cq_eval.specs.Kept.{AreKept, IsOfCells, IsOfKeys};

use cq_instance::{CellIndex, Instance, KeyIndex};
use std::alloc::{AllocError, Global};
use std::rc::Rc;

/// The index of an attribute's cells.
#[derive(Drop)]
pub(crate) struct OfCells {
    pub(crate) attribute: u32,
    pub(crate) index: Rc<CellIndex>,
}

/// The index of a foreign key over this many rows.
#[derive(Drop)]
pub(crate) struct OfKeys {
    pub(crate) key: u32,
    pub(crate) count: u32,
    pub(crate) index: Rc<KeyIndex>,
}

/// The indexes that a run has made so far: a slot for each attribute and for each foreign key, filled where an index is
/// first asked for.
pub(crate) struct Kept {
    pub(crate) cells: Vec<Option<OfCells>>,
    pub(crate) keys: Vec<Option<OfKeys>>,
}

impl Drop for Kept {
    fn drop(self) {
        let Self { cells: _, keys: _ } = self;
    }
}

impl Kept {
    /// No index yet.
    pub(crate) fn new(alloc: Global) -> Kept
        ensures { (M : Tables) → AreKept M result }
    {
        Kept {
            cells: Vec::new(alloc),
            keys: Vec::new(alloc),
        }
    }

    /// Keeps the index of an attribute's cells.
    fn keep_cells(&mut self, made: OfCells) -> Result<(), AllocError>
        ensures { OnOk result ((M : Tables) → AreKept M self.old → IsOfCells M (Some made) → AreKept M self.new) }
    {
        let place = made.attribute as usize;
        for _slot in self.cells.len()..place + 1 {
            self.cells.push(None)?;
        }
        self.cells[place] = Some(made);
        Ok(())
    }

    /// Keeps the index of a foreign key.
    fn keep_keys(&mut self, made: OfKeys) -> Result<(), AllocError>
        ensures { OnOk result ((M : Tables) → AreKept M self.old → IsOfKeys M (Some made) → AreKept M self.new) }
    {
        let place = made.key as usize;
        for _slot in self.keys.len()..place + 1 {
            self.keys.push(None)?;
        }
        self.keys[place] = Some(made);
        Ok(())
    }

    /// The index of an attribute's cells, made where it isn't kept yet.
    pub(crate) fn of_cells(
        &mut self,
        alloc: Global,
        instance: &Instance,
        attribute: u32,
    ) -> Result<Rc<CellIndex>, AllocError>
        requires attribute { attribute < length instance.now.schema.attributes }
        requires kept { AreKept instance.now.tables self.old }
        ensures kept { OnOk result (AreKept instance.now.tables self.new) }
        ensures index { IfOk result (λ index. (value : Value) → indexed_rows index.value value
            ≡ rows_with (slice_index_or instance.now.tables.sheet.cells attribute []) value) }
    {
        if let Some(Some(kept)) = self.cells.get(attribute as usize) {
            if kept.attribute == attribute {
                return kept.index.clone();
            }
        }
        let index = Rc::new(alloc, CellIndex::new(alloc, instance, attribute)?)?;
        let made = OfCells {
            attribute,
            index: index.clone()?,
        };
        self.keep_cells(made)?;
        Ok(index)
    }

    /// The index of a foreign key over so many rows, made where it isn't kept yet.
    pub(crate) fn of_keys(
        &mut self,
        alloc: Global,
        instance: &Instance,
        key: u32,
        count: u32,
    ) -> Result<Rc<KeyIndex>, AllocError>
        requires way { (row : ℕ) → row < count → (target : ℕ)
            × IsOnWay instance.now.schema instance.now.tables (key ∷ []) row target }
        requires kept { AreKept instance.now.tables self.old }
        ensures kept { OnOk result (AreKept instance.now.tables self.new) }
        ensures index { IfOk result (λ index. (row : ℕ) → slice_index_or index.value row []
            ≡ positions (map (λ start. row_from instance.now.tables start (key ∷ [])) (below count)) row) }
    {
        if let Some(Some(kept)) = self.keys.get(key as usize) {
            if kept.key == key && kept.count == count {
                return kept.index.clone();
            }
        }
        let index = Rc::new(alloc, KeyIndex::along(alloc, instance, &[key], count)?)?;
        let made = OfKeys {
            key,
            count,
            index: index.clone()?,
        };
        self.keep_keys(made)?;
        Ok(index)
    }

    /// The index of a path over so many rows. That of one foreign key is kept.
    pub(crate) fn along(
        &mut self,
        alloc: Global,
        instance: &Instance,
        path: &[u32],
        count: u32,
    ) -> Result<Rc<KeyIndex>, AllocError>
        requires way { (row : ℕ) → row < count → (target : ℕ)
            × IsOnWay instance.now.schema instance.now.tables path.now row target }
        requires kept { AreKept instance.now.tables self.old }
        ensures kept { OnOk result (AreKept instance.now.tables self.new) }
        ensures index { IfOk result (λ index. (row : ℕ) → slice_index_or index.value row []
            ≡ positions (map (λ start. row_from instance.now.tables start path.now) (below count)) row) }
    {
        match path {
            [key] => self.of_keys(alloc, instance, *key, count),
            _ => Ok(Rc::new(alloc, KeyIndex::along(alloc, instance, path, count)?)?),
        }
    }
}
