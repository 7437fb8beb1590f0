//! The lengths of terms, where keys and attributes stand for terms of these lengths. What is over 1,024 isn't told.
ghost use Rattle.std.specs.Prelude.{ℕ, ◌≡◌, ◌+◌, ◌*◌, ◌≤◌, IfSome};
ghost use Rattle.cq_lazy.specs.Lengths.{path_length as length_of_path, length_at};

use crate::lengths::Lengths;
use cq_theory::{EntTerm, TypeTerm};

/// The most symbols of a term.
pub(crate) const MOST_SYMBOLS: u64 = 1_024;

/// How long a type term is: so many symbols, and the keys that its variables have followed already so often.
#[derive(Clone, Copy)]
pub(crate) struct Line {
    pub symbols: u32,
    pub leaves: u32,
}

/// The number, if it is at most 1,024.
fn small(number: u64) -> Option<u32>
    ensures { IfSome result (λ n. (n ≡ number) × (n ≤ 1024)) }
{
    if number > MOST_SYMBOLS {
        None
    } else {
        Some(number as u32)
    }
}

/// How many keys what stands for a path follows.
pub(crate) fn path_length(under: &Lengths, path: &[u32]) -> Option<u32>
    ensures { IfSome result (λ n. (n ≡ length_of_path under.now path.now) × (n ≤ 1024)) }
{
    let count = small(path.len() as u64)?;
    small(under.keys as u64 * count as u64)
}

/// The length of what stands for an attribute of an entity term.
fn attribute_length(under: &Lengths, at: &EntTerm) -> Option<Line>
    ensures { IfSome result (λ line. (x : ℕ) → under.now.symbols + under.now.leaves
        * (length_of_path under.now at.now.path + x) ≡ line.symbols + line.leaves * x) }
{
    let keys = path_length(under, at.path.as_slice())?;
    let symbols = small(under.symbols as u64 + under.leaves as u64 * keys as u64)?;
    Some(Line {
        symbols,
        leaves: under.leaves,
    })
}

/// The length of two terms together.
fn add_lines(first: Line, second: Line) -> Option<Line>
    ensures { IfSome result (λ line. (line.symbols ≡ first.symbols + second.symbols)
        × (line.leaves ≡ first.leaves + second.leaves)) }
{
    let symbols = small(first.symbols as u64 + second.symbols as u64)?;
    let leaves = small(first.leaves as u64 + second.leaves as u64)?;
    Some(Line { symbols, leaves })
}

/// The length of a type term.
pub(crate) fn type_length(under: &Lengths, term: &TypeTerm) -> Option<Line>
    ensures { IfSome result (λ line. (x : ℕ) → length_at under.now x term.now ≡ line.symbols + line.leaves * x) }
{
    match term {
        TypeTerm::Gen(_) => Some(Line {
            symbols: 1,
            leaves: 0,
        }),
        TypeTerm::Const(_) => Some(Line {
            symbols: 1,
            leaves: 0,
        }),
        TypeTerm::Att(_, at) => attribute_length(under, at),
        TypeTerm::Fun(_, args) => {
            let mut line = Line {
                symbols: 1,
                leaves: 0,
            };
            for arg in args.as_slice() {
                let next = type_length(under, arg)?;
                line = add_lines(line, next)?;
            }
            Some(line)
        }
    }
}
