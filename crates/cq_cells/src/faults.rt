//! Faults by their places, and lists of them.
ghost use Rattle.std.specs.Prelude.{◌≡◌, ◌==◌, ◌≤◌, ◌↔◌, [], IsTrue, OnOk, length};
ghost use Rattle.cq_cells.specs.Shown.{Lists, listed, most_faults};

use std::alloc::{AllocError, Global};
use std::marker::Model;

/// The most faults that are listed.
pub const MOST_FAULTS: usize = 100;

/// What is wrong, as an import tells it.
#[derive(Clone, Copy, Debug, PartialEq, Eq)]
pub enum Kind {
    Absent,
    TooLong,
    NotCsv,
    BadHeader,
    BadCell,
    DoubleId,
    NoSuchId,
    TooLarge,
}

/// A fault: the file by the number of its entity, from 0, and the numbers of the record and of the column in it, from
/// 1; 0 where the fault is that of the whole file, or of the whole record. `before` is, of a fault in a record that is
/// tested by itself, the first record before it that has the same id, from 0.
#[derive(Clone, Copy, Debug)]
pub struct Fault {
    pub kind: Kind,
    pub file: u32,
    pub number: u32,
    pub column: u32,
    pub before: Option<u32>,
}

/// The first faults that were found, at most 100. Contracts see the list.
#[derive(Drop)]
pub struct Faults {
    faults: Vec<Fault>,
}

impl Model for Faults {
    ghost use Rattle.std.specs.Prelude.{List, length, ◌≤◌};
    ghost use Rattle.cq_cells.specs.declared.faults.Fault.{Fault as OneFault};

    ghost Value = { List OneFault };

    ghost view = { λ list. list.faults.items };

    ghost invariant = { λ list. length list.faults.items ≤ 100 };
}

impl Faults {
    /// No faults.
    pub fn new(alloc: Global) -> Faults
        ensures { result ≡ [] }
    {
        Faults {
            faults: Vec::new(alloc),
        }
    }

    /// Adds a fault, if there is one, and room for it.
    pub fn add(&mut self, found: Option<Fault>) -> Result<(), AllocError>
        ensures { OnOk result (Lists self.old self.new (λ name. listed name found)) }
    {
        let Some(fault) = found else {
            return Ok(());
        };
        if self.faults.len() >= MOST_FAULTS {
            return Ok(());
        }
        self.faults.push(fault)?;
        Ok(())
    }

    /// Whether there are none.
    pub fn is_empty(&self) -> bool
        ensures { result ≡ (length self.now == 0) }
    {
        self.faults.is_empty()
    }

    /// Whether no more are listed.
    pub fn is_full(&self) -> bool
        ensures { IsTrue result ↔ (most_faults ≤ length self.now) }
    {
        self.faults.len() >= MOST_FAULTS
    }

    /// The faults.
    pub fn into_list(self) -> Vec<Fault>
        ensures list { result.items ≡ self }
        ensures few { length result.items ≤ 100 }
    {
        self.faults
    }
}
