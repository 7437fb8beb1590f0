//! Clauses that give what an earlier one gives.
ghost use Rattle.std.specs.Prelude.{ℕ, List, ◌≡◌, ◌++◌, ◌∷◌, [], true, cond, IfOk, OnOk};
ghost use Rattle.std.specs.List.{list_any};
ghost use Rattle.cq_base.specs.declared.name.Name.{Name};
ghost use Rattle.cq_base.specs.Names.{same_name};
ghost use Rattle.cq_blocks.specs.declared.parts.Clause.{Clause};
ghost use Rattle.cq_blocks.specs.Given.{same_pair, HasGiven};
ghost use Rattle.cq_blocks.specs.Blocks.{gives_same};

use crate::parts::Clause;
use cq_base::{Hashing, Name};
use std::alloc::AllocError;
use std::collections::HashSet;

/// Adds the name of an attribute or foreign key, and tells whether it was there.
fn add_symbol(symbols: &mut HashSet<Name, Hashing>, name: &Name) -> Result<bool, AllocError>
    ensures taken { IfOk result (λ taken. taken ≡ list_any (same_name name.now) symbols.old.keys) }
    ensures added { OnOk result ((q : List ℕ) → list_any (same_name q) symbols.new.keys ≡ cond
        (same_name name.now q) true (list_any (same_name q) symbols.old.keys)) }
{
    let is_new = symbols.insert(name.clone()?)?;
    Ok(!is_new)
}

/// Adds a variable with the foreign key that assigns a term to it, and tells whether it was there.
fn add_assigned(
    assigned: &mut HashSet<(Name, Name), Hashing>,
    key: &Name,
    variable: &Name,
) -> Result<bool, AllocError>
    ensures taken { IfOk result (λ taken. taken ≡ list_any (same_pair (key.now, variable.now)) assigned.old.keys) }
    ensures added { OnOk result ((q : List ℕ × List ℕ)
        → list_any (same_pair q) assigned.new.keys ≡ cond (same_pair (key.now, variable.now) q) true
        (list_any (same_pair q) assigned.old.keys)) }
{
    let is_new = assigned.insert((key.clone()?, variable.clone()?))?;
    Ok(!is_new)
}

/// Adds what a clause gives, and tells whether an earlier one gives it.
pub(crate) fn add_clause(
    symbols: &mut HashSet<Name, Hashing>,
    assigned: &mut HashSet<(Name, Name), Hashing>,
    part: &Clause,
) -> Result<bool, AllocError>
    ensures taken { (earlier : List (ℕ × Clause)) → HasGiven earlier symbols.old.keys assigned.old.keys
        → IfOk result (λ taken. taken ≡ list_any (λ c. gives_same part.now c.1) earlier) }
    ensures added { (earlier : List (ℕ × Clause)) (block : ℕ) → HasGiven earlier symbols.old.keys assigned.old.keys
        → OnOk result (HasGiven (earlier ++ (block, part.now) ∷ []) symbols.new.keys assigned.new.keys) }
{
    match part {
        Clause::Test(_, _) => Ok(false),
        Clause::Att(name, _) => add_symbol(symbols, name),
        Clause::Key(name) => add_symbol(symbols, name),
        Clause::Assign(key, variable, _) => add_assigned(assigned, key, variable),
    }
}
