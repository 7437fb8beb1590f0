//! What is found of a table.
use std::alloc::{AllocError, Global};

/// How many cases were tried, and the lines that say which of them end otherwise than is told.
#[derive(Drop)]
pub struct Tally {
    cases: u64,
    deviations: String,
}

impl Tally {
    /// No case was tried yet.
    pub fn new(alloc: Global) -> Tally {
        Tally {
            cases: 0,
            deviations: String::new(alloc),
        }
    }

    /// How many cases were tried.
    pub fn cases(&self) -> u64 {
        self.cases
    }

    /// The lines that say what is not as told.
    pub fn deviations(&self) -> &str {
        self.deviations.as_str()
    }

    /// Whether there were cases, and all is as told.
    pub fn is_as_told(&self) -> bool {
        self.cases > 0 && self.deviations.is_empty()
    }

    /// Counts a case, and keeps what was told and what came where these are not the same.
    pub fn add(
        &mut self,
        alloc: Global,
        title: &str,
        told: &str,
        came: &str,
    ) -> Result<(), AllocError> {
        self.cases = self.cases.saturating_add(1);
        if told == came {
            return Ok(());
        }
        let number = self.cases;
        let lines = format!(in alloc; "case {number}: {title}\ntold: {told}\ncame: {came}\n")?;
        self.deviations.push_str(lines.as_str())
    }

    /// Keeps what is wrong with an entry.
    pub fn refuse(&mut self, alloc: Global, title: &str, why: &str) -> Result<(), AllocError> {
        let number = self.cases;
        let line = format!(in alloc; "behind case {number}: {title}\n{why}\n")?;
        self.deviations.push_str(line.as_str())
    }
}
