//! Which equations wait for cells, and which of them may go on. It is only the order in which equations are tried:
//! merging ends where no equation joins two rows, whatever is kept here.
use std::alloc::{AllocError, Global};

/// A path equation by its number, and a row at which it is looked at.
#[derive(Clone, Copy)]
pub struct RuleAt {
    pub row: u64,
    pub place: u32,
}

/// An equation of the presentation by its number, or a path equation at a row.
#[derive(Clone, Copy)]
pub enum Stopped {
    Given(usize),
    Rule(RuleAt),
}

impl Stopped {
    // Whether it is a path equation at this row.
    fn is_at(self, row: u64) -> bool {
        match self {
            Stopped::Given(_) => false,
            Stopped::Rule(at) => at.row == row,
        }
    }
}

/// What waits for the cells of a row.
#[derive(Clone, Copy)]
enum Cells {
    /// Nothing, since the row has them.
    Filled,
    /// The equations of a list.
    Awaited(Option<usize>),
}

/// An equation in its list, with the place of the one behind it; behind the last one stands the first.
#[derive(Clone, Copy)]
struct Entry {
    stopped: Stopped,
    next: usize,
}

/// Lists of equations. A list is known by the place of its last equation, of which the next one is its first, or by
/// none if it is empty; so two lists are joined in one step.
pub struct Waiting {
    rows: Vec<Cells>,
    entries: Vec<Entry>,
    ready: Option<usize>,
    open: bool,
}

impl Drop for Waiting {
    fn drop(self) {
        let Self {
            rows: _,
            entries: _,
            ready: _,
            open: _,
        } = self;
    }
}

impl Waiting {
    /// Where the first rows, as many as `filled`, have all their cells, and the other ones none.
    pub fn new(alloc: Global, filled: u64, made: u64) -> Result<Waiting, AllocError> {
        let mut rows = Vec::new(alloc);
        for row in 0..made {
            rows.push(if row < filled {
                Cells::Filled
            } else {
                Cells::Awaited(None)
            })?;
        }
        Ok(Waiting {
            rows,
            entries: Vec::new(alloc),
            ready: None,
            open: filled > 0,
        })
    }

    /// Whether equations are to be listed.
    pub fn is_open(&self) -> bool {
        self.open
    }

    /// No equation is listed from now on.
    pub fn close(&mut self) {
        self.open = false;
    }

    /// Lists an equation where it stops, if it does.
    pub fn list(&mut self, stop: Option<u64>, stopped: Stopped) -> Result<(), AllocError> {
        match stop {
            Some(row) => self.wait(row, stopped),
            None => Ok(()),
        }
    }

    /// Lists an equation that stopped at a row. A path equation that stopped at its first row isn't listed: if that
    /// row gets cells, they are those of a row at which the path equation is looked at.
    pub fn wait(&mut self, row: u64, stopped: Stopped) -> Result<(), AllocError> {
        if stopped.is_at(row) {
            return Ok(());
        }
        let Cells::Awaited(list) = self.cells(row) else {
            return Ok(());
        };
        let place = self.entries.len();
        self.entries.push(Entry {
            stopped,
            next: place,
        })?;
        let joined = self.join(list, Some(place));
        self.set_cells(row, Cells::Awaited(joined));
        Ok(())
    }

    /// What waits for cells of a row waits for those of the row to which it is renamed; it may go on if one of them
    /// has cells.
    pub fn renamed(&mut self, from: u64, to: u64) {
        match (self.cells(from), self.cells(to)) {
            (Cells::Filled, Cells::Filled) => {}
            (Cells::Filled, Cells::Awaited(list)) => {
                self.set_cells(to, Cells::Filled);
                self.may_go_on(list);
            }
            (Cells::Awaited(list), Cells::Filled) => self.may_go_on(list),
            (Cells::Awaited(gone), Cells::Awaited(kept)) => {
                let joined = self.join(kept, gone);
                self.set_cells(to, Cells::Awaited(joined));
            }
        }
    }

    /// Takes the first equation that may go on.
    pub fn take(&mut self) -> Option<Stopped> {
        let last = self.ready?;
        let first = self.next(last)?;
        let entry = *self.entries.get(first)?;
        if first == last {
            self.ready = None;
        } else {
            self.set_next(last, entry.next);
        }
        Some(entry.stopped)
    }

    fn may_go_on(&mut self, list: Option<usize>) {
        let ready = self.ready;
        self.ready = self.join(ready, list);
    }

    // What waits for the cells of a row. A row that is made later has none, and nothing is kept for it.
    fn cells(&self, row: u64) -> Cells {
        match self.rows.get(row as usize) {
            Some(cells) => *cells,
            None => Cells::Awaited(None),
        }
    }

    fn set_cells(&mut self, row: u64, cells: Cells) {
        if let Some(place) = self.rows.get_mut(row as usize) {
            *place = cells;
        }
    }

    // The place of the equation behind the one at a place.
    fn next(&self, place: usize) -> Option<usize> {
        match self.entries.get(place) {
            Some(entry) => Some(entry.next),
            None => None,
        }
    }

    fn set_next(&mut self, place: usize, next: usize) {
        if let Some(entry) = self.entries.get_mut(place) {
            entry.next = next;
        }
    }

    // One list behind another.
    fn join(&mut self, list: Option<usize>, behind: Option<usize>) -> Option<usize> {
        let Some(last) = list else {
            return behind;
        };
        let Some(end) = behind else {
            return list;
        };
        if let (Some(first), Some(second)) = (self.next(last), self.next(end)) {
            self.set_next(last, second);
            self.set_next(end, first);
        }
        behind
    }
}
