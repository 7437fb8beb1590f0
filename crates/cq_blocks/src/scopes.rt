//! The variables of the blocks.
ghost use Rattle.std.specs.Prelude.{ℕ, ◌≡◌, ◌+◌, ◌-◌, ◌<◌, ◌^◌, ◌⊎◌, ◌++◌, ◌∷◌, [], All, IfOk, OnOk, IfErr, Some, None};
ghost use Rattle.std.specs.Prelude.{length, map, option_map};
ghost use Rattle.cq_theory.specs.ArrowRefusals.{of_arrow as refusal_of_arrow};
ghost use Rattle.cq_theory.specs.Canonical.{below};
ghost use Rattle.cq_blocks.specs.Blocks.{entity_named as number_named, names_in};
ghost use Rattle.cq_blocks.specs.Blocks.{variables_in, scopes_of, variable_fault_after, variable_fault};
ghost use Rattle.cq_blocks.specs.Blocks.{variables_fault, names_of, sorts_of};

use crate::owners::{entity_fault, entity_named};
use cq_base::{Name, Names, Seq};
use cq_theory::lookup::of_arrow;
use cq_theory::{ArrowRefusal, Schema, Sort, TheoryRefusal};
use std::alloc::{AllocError, Global};
use std::marker::Model;

/// The most variables of a block.
const MOST_VARIABLES: u32 = 16_000_000;

/// The variables of a block, with a table of their names. Contracts see the variables.
pub(crate) struct Scope {
    vars: Seq<(Name, u32)>,
    names: Names,
    sorts: Seq<Sort>,
}

impl Model for Scope {
    ghost use Rattle.std.specs.Prelude.{ℕ, List, ◌≡◌};
    ghost use Rattle.cq_base.specs.declared.name.Name.{Name};
    ghost use Rattle.cq_blocks.specs.Blocks.{names_of, sorts_of};

    ghost Value = { List (Name × ℕ) };

    ghost view = { λ scope. scope.vars };

    ghost invariant = { λ scope. (scope.names ≡ names_of scope.vars) × (scope.sorts ≡ sorts_of scope.vars) };
}

impl Drop for Scope {
    fn drop(self) {
        let Self {
            vars: _,
            names: _,
            sorts: _,
        } = self;
    }
}

impl Scope {
    /// The variables with their table.
    pub(crate) fn new(alloc: Global, vars: Vec<(Name, u32)>) -> Result<Scope, AllocError>
        requires { length vars.items < 2 ^ 32 }
        ensures { IfOk result (λ scope. scope ≡ vars.items) }
    {
        let names = table_of_names(alloc, vars.as_slice())?;
        let sorts = build_sorts(alloc, vars.as_slice())?;
        Ok(Scope {
            vars: Seq::from_vec(vars),
            names,
            sorts: Seq::from_vec(sorts),
        })
    }

    /// The variables.
    pub(crate) fn vars(&self) -> &[(Name, u32)]
        ensures { result.now ≡ self.now }
    {
        self.vars.as_slice()
    }

    /// Their names.
    pub(crate) fn names(&self) -> &Names
        ensures { result.now ≡ names_of self.now }
    {
        &self.names
    }

    /// Their sorts.
    pub(crate) fn sorts(&self) -> &[Sort]
        ensures { result.now ≡ sorts_of self.now }
    {
        self.sorts.as_slice()
    }
}

/// Adds a name that stands once among the names of a block.
fn add_name(table: &mut Names, name: &Name) -> Result<(), AllocError>
    requires { length table.old < 2 ^ 32 - 1 }
    ensures { IfOk result (λ _. table.new ≡ table.old ++ name.now ∷ []) }
{
    match table.add(name.clone()?) {
        Ok(_) => Ok(()),
        Err(_) => Err(AllocError),
    }
}

fn table_of_names(alloc: Global, vars: &[(Name, u32)]) -> Result<Names, AllocError>
    requires { length vars.now < 2 ^ 32 }
    ensures { IfOk result (λ table. table ≡ names_of vars.now) }
{
    let mut table = Names::new(alloc);
    for var in vars {
        add_name(&mut table, &var.0)?;
    }
    Ok(table)
}

fn build_sorts(alloc: Global, vars: &[(Name, u32)]) -> Result<Vec<Sort>, AllocError>
    ensures { IfOk result (λ sorts. sorts.items ≡ sorts_of vars.now) }
{
    let mut sorts = Vec::new(alloc);
    for var in vars {
        sorts.push(Sort::Entity(var.1))?;
    }
    Ok(sorts)
}

/// That many tables without names.
fn empty_tables(alloc: Global, count: usize) -> Result<Vec<Names>, AllocError>
    ensures { IfOk result (λ tables. tables.items ≡ map (λ _. []) (below count)) }
{
    let mut tables = Vec::new(alloc);
    for _number in 0..count {
        tables.push(Names::new(alloc))?;
    }
    Ok(tables)
}

/// Adds the name of variable `number` to the names of its block.
fn add_variable(
    source: &Schema,
    table: &mut Names,
    number: u32,
    part: &(u32, Name, Name),
) -> Result<(), TheoryRefusal>
    ensures ok { IfOk result (λ _. (variable_fault_after source.now table.old number part.now ≡ None)
        × (table.new ≡ table.old ++ part.now.1 ∷ [])) }
    ensures refused { IfErr result (λ refusal. (refusal ≡ TheoryRefusal.Memory)
        ⊎ (variable_fault_after source.now table.old number part.now ≡ Some refusal)) }
{
    if table.find(&part.1).is_some() {
        return Err(TheoryRefusal::Duplicate(number));
    }
    if let Some(refusal) = entity_fault(source, number, &part.2) {
        return Err(refusal);
    }
    if table.len() >= MOST_VARIABLES {
        return Err(TheoryRefusal::TooLarge(number));
    }
    add_name(table, &part.1)?;
    Ok(())
}

/// Tests the variables, of which the first is part `first`.
fn check_variables(
    alloc: Global,
    source: &Schema,
    entities: &[u32],
    count: usize,
    first: u32,
    parts: &[(u32, Name, Name)],
) -> Result<(), TheoryRefusal>
    requires parts { first + length parts.now < 2 ^ 32 }
    requires entities { All (λ entity. entity < count) entities.now }
    requires blocks { All (λ part. part.0 < length entities.now) parts.now }
    ensures accepted { IfOk result (λ _. variables_fault source.now entities.now first parts.now ≡ None) }
    ensures refused { IfErr result (λ refusal. (refusal ≡ TheoryRefusal.Memory)
        ⊎ (variables_fault source.now entities.now first parts.now ≡ Some refusal)) }
{
    let mut tables = empty_tables(alloc, count)?;
    let mut number = first;
    for part in parts {
        let entity = entities[part.0 as usize];
        add_variable(source, &mut tables[entity as usize], number, part)?;
        number += 1;
    }
    Ok(())
}

/// That many lists without variables.
fn empty_lists(alloc: Global, count: usize) -> Result<Vec<Vec<(Name, u32)>>, AllocError>
    ensures { IfOk result (λ lists. map (λ list. list.items) lists.items ≡ map (λ _. []) (below count)) }
{
    let mut lists = Vec::new(alloc);
    for _number in 0..count {
        lists.push(Vec::new(alloc))?;
    }
    Ok(lists)
}

/// Appends the variable of a part.
fn push_variable(
    source: &Schema,
    part: &(u32, Name, Name),
    made: &mut Vec<(Name, u32)>,
) -> Result<(), AllocError>
    ensures { OnOk result (made.new.items ≡ made.old.items ++ (part.now.1, number_named source.now part.now.2) ∷ []) }
{
    made.push((part.1.clone()?, entity_named(source, &part.2)))?;
    Ok(())
}

/// The variables in the block of each entity.
fn build_variables(
    alloc: Global,
    source: &Schema,
    entities: &[u32],
    count: usize,
    parts: &[(u32, Name, Name)],
) -> Result<Vec<Vec<(Name, u32)>>, AllocError>
    requires entities { All (λ entity. entity < count) entities.now }
    requires blocks { All (λ part. part.0 < length entities.now) parts.now }
    ensures { IfOk result (λ lists. map (λ list. list.items) lists.items ≡ scopes_of source.now entities.now count
        parts.now) }
{
    let mut lists = empty_lists(alloc, count)?;
    for part in parts {
        let entity = entities[part.0 as usize];
        push_variable(source, part, &mut lists[entity as usize])?;
    }
    Ok(lists)
}

/// Each of the lists of variables with its table.
fn table_variables(alloc: Global, lists: Vec<Vec<(Name, u32)>>) -> Result<Vec<Scope>, AllocError>
    requires { All (λ list. length list.items < 2 ^ 32) lists.items }
    ensures { IfOk result (λ scopes. scopes.items ≡ map (λ list. list.items) lists.items) }
{
    let mut scopes = Vec::new(alloc);
    for vars in lists {
        scopes.push(Scope::new(alloc, vars)?)?;
    }
    Ok(scopes)
}

fn build_scopes(
    alloc: Global,
    source: &Schema,
    entities: &[u32],
    count: u32,
    parts: &[(u32, Name, Name)],
) -> Result<Vec<Scope>, AllocError>
    requires parts { length parts.now < 2 ^ 32 }
    requires entities { All (λ entity. entity < count) entities.now }
    requires blocks { All (λ part. part.0 < length entities.now) parts.now }
    ensures { IfOk result (λ scopes. scopes.items ≡ scopes_of source.now entities.now count parts.now) }
{
    let lists = build_variables(alloc, source, entities, count as usize, parts)?;
    let scopes = table_variables(alloc, lists)?;
    Ok(scopes)
}

/// The variables of each block, by parts of which the first is part `first`.
pub(crate) fn make_scopes(
    alloc: Global,
    source: &Schema,
    entities: &[u32],
    count: u32,
    first: u32,
    parts: &[(u32, Name, Name)],
) -> Result<Vec<Scope>, ArrowRefusal>
    requires parts { first + length parts.now < 2 ^ 32 }
    requires entities { All (λ entity. entity < count) entities.now }
    requires blocks { All (λ part. part.0 < length entities.now) parts.now }
    ensures accepted { IfOk result (λ _. variables_fault source.now entities.now first parts.now ≡ None) }
    ensures made { IfOk result (λ scopes. scopes.items ≡ scopes_of source.now entities.now count parts.now) }
    ensures refused { IfErr result (λ refusal. (refusal ≡ ArrowRefusal.Memory)
        ⊎ (option_map refusal_of_arrow (variables_fault source.now entities.now first parts.now) ≡ Some refusal)) }
{
    match check_variables(alloc, source, entities, count as usize, first, parts) {
        Ok(()) => {
            let scopes = build_scopes(alloc, source, entities, count, parts)?;
            Ok(scopes)
        }
        Err(refusal) => Err(of_arrow(refusal)),
    }
}
