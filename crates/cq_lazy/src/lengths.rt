//! How long the terms of a query can be, and those of a composite, without making it.
ghost use Rattle.std.specs.Prelude.{◌≡◌, ◌≤◌, ◌+◌, All, IfSome};
ghost use Rattle.cq_lazy.specs.Plan.{query_of};
ghost use Rattle.cq_lazy.specs.Lengths.{AreLengths, AreWider, IsShortAttribute, IsShortBlock, IsShortKey, IsShortTest};
ghost use Rattle.cq_lazy.specs.Lengths.{plain as plain_lengths};

use crate::plan::Plan;
use crate::terms::{MOST_SYMBOLS, path_length, type_length};
use cq_base::Seq;
use cq_query::{Block, Query};
use cq_theory::{EntTerm, Equation, TypeTerm};

/// Bounds on what a query has for its target: how many foreign keys the terms for a key follow, how many symbols the
/// term for an attribute has and how often its variables occur in it, and how many symbols any of its terms has.
#[derive(Clone, Copy)]
pub(crate) struct Lengths {
    pub keys: u32,
    pub symbols: u32,
    pub leaves: u32,
    pub most: u32,
}

/// Each key follows one key, and each attribute is one of its variable.
pub(crate) fn plain() -> Lengths
    ensures { result ≡ plain_lengths }
{
    Lengths {
        keys: 1,
        symbols: 2,
        leaves: 1,
        most: 2,
    }
}

/// Bounds that hold of a term for a key too.
fn widen_by_term(under: &Lengths, found: Lengths, term: &EntTerm) -> Option<Lengths>
    ensures { IfSome result (λ wide. AreWider found wide × IsShortKey under.now wide term.now) }
{
    let keys = path_length(under, term.path.as_slice())?;
    Some(Lengths {
        keys: found.keys.max(keys),
        symbols: found.symbols,
        leaves: found.leaves,
        most: found.most,
    })
}

/// The same of terms for a key.
fn widen_by_terms(under: &Lengths, found: Lengths, terms: &[EntTerm]) -> Option<Lengths>
    ensures { IfSome result (λ wide. AreWider found wide × All (IsShortKey under.now wide) terms.now) }
{
    let mut wide = found;
    for term in terms {
        wide = widen_by_term(under, wide, term)?;
    }
    Some(wide)
}

/// The same of the terms for each of several keys.
fn widen_by_keys(under: &Lengths, found: Lengths, keys: &[Seq<EntTerm>]) -> Option<Lengths>
    ensures { IfSome result (λ wide. AreWider found wide × All (All (IsShortKey under.now wide)) keys.now) }
{
    let mut wide = found;
    for terms in keys {
        wide = widen_by_terms(under, wide, terms.as_slice())?;
    }
    Some(wide)
}

/// Bounds that hold of the term for an attribute too.
fn widen_by_attribute(under: &Lengths, found: Lengths, term: &TypeTerm) -> Option<Lengths>
    ensures { IfSome result (λ wide. AreWider found wide × IsShortAttribute under.now wide term.now) }
{
    let line = type_length(under, term)?;
    Some(Lengths {
        keys: found.keys,
        symbols: found.symbols.max(line.symbols),
        leaves: found.leaves.max(line.leaves),
        most: found.most,
    })
}

/// The same of the terms for attributes.
fn widen_by_attributes(under: &Lengths, found: Lengths, terms: &[TypeTerm]) -> Option<Lengths>
    ensures { IfSome result (λ wide. AreWider found wide × All (IsShortAttribute under.now wide) terms.now) }
{
    let mut wide = found;
    for term in terms {
        wide = widen_by_attribute(under, wide, term)?;
    }
    Some(wide)
}

/// How many symbols the longer side of a where equation has.
fn test_length(under: &Lengths, test: &Equation) -> Option<u32>
    ensures { IfSome result (λ most. IsShortTest under.now most test.now) }
{
    match test {
        Equation::Ent(left, right) => {
            let left = path_length(under, left.path.as_slice())?;
            let right = path_length(under, right.path.as_slice())?;
            Some(left.max(right) + 1)
        }
        Equation::Typ(left, right) => {
            let left = type_length(under, left)?;
            let right = type_length(under, right)?;
            Some(left.symbols.max(right.symbols))
        }
    }
}

/// Bounds that hold of a where equation too.
fn widen_by_test(under: &Lengths, found: Lengths, test: &Equation) -> Option<Lengths>
    ensures { IfSome result (λ wide. AreWider found wide × IsShortTest under.now wide.most test.now) }
{
    let most = test_length(under, test)?;
    Some(Lengths {
        keys: found.keys,
        symbols: found.symbols,
        leaves: found.leaves,
        most: found.most.max(most),
    })
}

/// The same of where equations.
fn widen_by_tests(under: &Lengths, found: Lengths, tests: &[Equation]) -> Option<Lengths>
    ensures { IfSome result (λ wide. AreWider found wide × All (IsShortTest under.now wide.most) tests.now) }
{
    let mut wide = found;
    for test in tests {
        wide = widen_by_test(under, wide, test)?;
    }
    Some(wide)
}

/// Bounds that hold of a block too.
fn widen_by_block(under: &Lengths, found: Lengths, block: &Block) -> Option<Lengths>
    ensures { IfSome result (λ wide. AreWider found wide × IsShortBlock under.now wide block.now) }
{
    let by_tests = widen_by_tests(under, found, block.tests.as_slice())?;
    let by_attributes = widen_by_attributes(under, by_tests, block.attributes.as_slice())?;
    widen_by_keys(under, by_attributes, block.keys.as_slice())
}

/// The same of blocks.
fn widen_by_blocks(under: &Lengths, found: Lengths, blocks: &[Block]) -> Option<Lengths>
    ensures { IfSome result (λ wide. AreWider found wide × All (IsShortBlock under.now wide) blocks.now) }
{
    let mut wide = found;
    for block in blocks {
        wide = widen_by_block(under, wide, block)?;
    }
    Some(wide)
}

/// The bounds, where no term has over 1,024 symbols.
fn close(found: Lengths) -> Option<Lengths>
    ensures { IfSome result (λ closed. AreWider found closed × (closed.symbols ≤ closed.most)
        × (closed.keys + 1 ≤ closed.most) × (closed.most ≤ 1024)) }
{
    let most = found
        .most
        .max(found.symbols)
        .max(found.keys.saturating_add(1));
    if most as u64 > MOST_SYMBOLS {
        return None;
    }
    Some(Lengths {
        keys: found.keys,
        symbols: found.symbols,
        leaves: found.leaves,
        most,
    })
}

/// The bounds of a query, where what it asks has these. They are told only where no term has over 1,024 symbols.
fn bound_query(under: &Lengths, query: &Query) -> Option<Lengths>
    ensures { IfSome result (λ found. AreLengths under.now query.now found × (under.now.most ≤ found.most)
        × (found.most ≤ 1024)) }
{
    let none = Lengths {
        keys: 0,
        symbols: 1,
        leaves: 0,
        most: under.most,
    };
    let found = widen_by_blocks(under, none, query.blocks.as_slice())?;
    close(found)
}

/// The bounds of the query of a plan. Those of a first query are such for what the second asks, and then these are the
/// bounds of the composite.
pub(crate) fn bound(plan: &Plan, under: &Lengths) -> Option<Lengths>
    ensures { IfSome result (λ found. AreLengths under.now (query_of plan.now) found
        × (under.now.most ≤ found.most) × (found.most ≤ 1024)) }
{
    match plan {
        Plan::Made(query) => bound_query(under, query),
        Plan::Composite(first, second) => {
            let inner = bound(first, under)?;
            bound(second, &inner)
        }
    }
}
