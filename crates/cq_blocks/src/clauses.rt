//! The rules of the clauses.
ghost use Rattle.std.specs.Prelude.{ℕ, List, ◌≡◌, ◌&&◌, ◌==◌, ◌+◌, ◌<◌, ◌^◌, ◌⊎◌, IfOk, IfErr, Some, None, length, map};
ghost use Rattle.std.specs.Prelude.{option_map, option_copied, slice_get, is_none};
ghost use Rattle.std.specs.List.{list_any};
ghost use Rattle.cq_theory.specs.ArrowRefusals.{of_arrow as refusal_of_arrow};
ghost use Rattle.cq_theory.specs.Resolve.{has_unknown as unknown_in, in_part, raw_sort};
ghost use Rattle.cq_theory.specs.SchemaData.{SchemaData};
ghost use Rattle.cq_base.specs.declared.name.Name.{Name};
ghost use Rattle.cq_blocks.specs.declared.parts.Clause.{Clause as ClausePart};
ghost use Rattle.cq_blocks.specs.declared.parts.Clause.TheVariants as clause;
ghost use Rattle.cq_blocks.specs.Making.{IsMaking};
ghost use Rattle.cq_blocks.specs.Blocks.{least_rule as rule_least};
ghost use Rattle.cq_blocks.specs.Blocks.{is_from as from_entity, is_right_attribute as right_attribute};
ghost use Rattle.cq_blocks.specs.Blocks.{attribute_edge as edge_of_attribute, key_edge as edge_of_key};
ghost use Rattle.cq_blocks.specs.Blocks.{variable_sort as sort_of_variable, target_sort as sort_of_target};
ghost use Rattle.cq_blocks.specs.Blocks.{clause_rule, rule_over, rule_in, gives_same as same_given, clause_fault};
ghost use Rattle.cq_blocks.specs.Blocks.{clauses_fault, names_of, sorts_of};

use crate::given::add_clause;
use crate::making::Making;
use crate::parts::Clause;
use crate::scopes::Scope;
use cq_base::{Name, Raw, number_at};
use cq_theory::lookup::{
    has_reserved, has_unknown, has_wrong_count, have_one_sort, in_part_of, is_too_large, of_arrow,
    sort_of_raw,
};
use cq_theory::{ArrowRefusal, Edge, Schema, Sort, Symbol, TermRefusal, TheoryRefusal};
use std::alloc::{AllocError, Global};
use std::collections::HashSet;

/// The least rule that is broken.
fn least_rule(
    unknown: bool,
    count: bool,
    sort: bool,
    reserved: bool,
    size: bool,
) -> Option<TermRefusal>
    ensures { result ≡ rule_least unknown count sort reserved size }
{
    if unknown {
        Some(TermRefusal::Unknown)
    } else if count {
        Some(TermRefusal::WrongCount)
    } else if sort {
        Some(TermRefusal::WrongSort)
    } else if reserved {
        Some(TermRefusal::Reserved)
    } else if size {
        Some(TermRefusal::TooLarge)
    } else {
        None
    }
}

/// Whether the edge is there and begins at the entity.
fn is_from(entity: u32, edge: Option<&Edge>) -> bool
    ensures { result ≡ from_entity entity (option_copied edge.entry) }
{
    match edge {
        Some(edge) => edge.from == entity,
        None => false,
    }
}

/// Whether the attribute is there, begins at the entity, and has this sort.
fn is_right_attribute(entity: u32, edge: Option<&Edge>, sort: Option<Sort>) -> bool
    ensures { result ≡ right_attribute entity (option_copied edge.entry) sort }
{
    match edge {
        Some(edge) => edge.from == entity && have_one_sort(sort, Some(Sort::Plain(edge.to))),
        None => false,
    }
}

fn attribute_edge(target: &Schema, symbol: Option<Symbol>) -> Option<&Edge>
    ensures { option_copied result ≡ edge_of_attribute target.now symbol }
{
    match symbol {
        Some(Symbol::Attribute(attribute)) => target.attributes.as_slice().get(attribute as usize),
        Some(Symbol::Key(_)) => None,
        Some(Symbol::Function(_)) => None,
        None => None,
    }
}

fn key_edge(target: &Schema, symbol: Option<Symbol>) -> Option<&Edge>
    ensures { option_copied result ≡ edge_of_key target.now symbol }
{
    match symbol {
        Some(Symbol::Key(key)) => target.keys.as_slice().get(key as usize),
        Some(Symbol::Attribute(_)) => None,
        Some(Symbol::Function(_)) => None,
        None => None,
    }
}

fn variable_sort(scope: &Scope, name: &Name) -> Option<Sort>
    ensures { result ≡ sort_of_variable name.now scope.now }
{
    let number = scope.names().find(name)?;
    scope.sorts().get(number as usize).copied()
}

/// The sort of a variable of the block to which a foreign key leads.
fn target_sort(target: &Schema, scopes: &[Scope], key: &Name, variable: &Name) -> Option<Sort>
    ensures { result ≡ sort_of_target target.now scopes.now key.now variable.now }
{
    let edge = key_edge(target, target.find_symbol(key))?;
    let scope = scopes.get(edge.to as usize)?;
    variable_sort(scope, variable)
}

fn is_unknown(source: &Schema, scope: &Scope, raw: &Raw) -> bool
    ensures { result ≡ unknown_in source.now (names_of scope.now) raw.now }
{
    has_unknown(source, scope.names(), raw)
}

fn sort_in(source: &Schema, scope: &Scope, raw: &Raw) -> Option<Sort>
    ensures { result ≡ raw_sort source.now (names_of scope.now) (sorts_of scope.now) raw.now }
{
    sort_of_raw(source, scope.names(), scope.sorts(), raw)
}

/// The least rule that a where equation breaks.
fn test_rule(source: &Schema, scope: &Scope, left: &Raw, right: &Raw) -> Option<TermRefusal>
    ensures { (T : SchemaData) (scopes : List (List (Name × ℕ))) (entity : ℕ)
        → result ≡ clause_rule source.now T scopes scope.now entity (clause.Test left.now right.now) }
{
    least_rule(
        is_unknown(source, scope, left) || is_unknown(source, scope, right),
        has_wrong_count(source, left) || has_wrong_count(source, right),
        !have_one_sort(sort_in(source, scope, left), sort_in(source, scope, right)),
        has_reserved(source, left) || has_reserved(source, right),
        is_too_large(left) || is_too_large(right),
    )
}

/// The least rule that the term of an attribute breaks.
fn attribute_rule(
    source: &Schema,
    target: &Schema,
    scope: &Scope,
    entity: u32,
    name: &Name,
    raw: &Raw,
) -> Option<TermRefusal>
    ensures { (scopes : List (List (Name × ℕ))) → result ≡ clause_rule source.now target.now scopes scope.now entity
        (clause.Att name.now raw.now) }
{
    let symbol = target.find_symbol(name);
    let sort = sort_in(source, scope, raw);
    least_rule(
        symbol.is_none() || is_unknown(source, scope, raw),
        has_wrong_count(source, raw),
        !is_right_attribute(entity, attribute_edge(target, symbol), sort),
        has_reserved(source, raw),
        is_too_large(raw),
    )
}

/// The least rule that a foreign key's clause breaks.
fn key_rule(target: &Schema, entity: u32, name: &Name) -> Option<TermRefusal>
    ensures { (S : SchemaData) (scopes : List (List (Name × ℕ))) (scope : List (Name × ℕ))
        → result ≡ clause_rule S target.now scopes scope entity (clause.Key name.now) }
{
    let symbol = target.find_symbol(name);
    least_rule(
        symbol.is_none(),
        false,
        !is_from(entity, key_edge(target, symbol)),
        false,
        false,
    )
}

/// The least rule that an assigned term breaks.
fn assign_rule(
    making: &Making,
    scope: &Scope,
    entity: u32,
    key: &Name,
    variable: &Name,
    raw: &Raw,
) -> Option<TermRefusal>
    ensures { result ≡ clause_rule making.now.source.now making.now.target.now making.now.scopes.now scope.now entity
        (clause.Assign key.now variable.now raw.now) }
{
    let source = making.source;
    let target = making.target;
    let wanted = target_sort(target, making.scopes, key, variable);
    let sort = sort_in(source, scope, raw);
    let symbol = target.find_symbol(key);
    least_rule(
        wanted.is_none() || is_unknown(source, scope, raw),
        has_wrong_count(source, raw),
        !(is_from(entity, key_edge(target, symbol)) && have_one_sort(sort, wanted)),
        has_reserved(source, raw),
        is_too_large(raw),
    )
}

/// The least rule that a clause breaks, with these variables.
fn rule_with(making: &Making, scope: &Scope, entity: u32, part: &Clause) -> Option<TermRefusal>
    ensures { result ≡ clause_rule making.now.source.now making.now.target.now making.now.scopes.now scope.now entity
        part.now }
{
    let source = making.source;
    let target = making.target;
    match part {
        Clause::Test(left, right) => test_rule(source, scope, left, right),
        Clause::Att(name, raw) => attribute_rule(source, target, scope, entity, name, raw),
        Clause::Key(name) => key_rule(target, entity, name),
        Clause::Assign(key, variable, raw) => {
            assign_rule(making, scope, entity, key, variable, raw)
        }
    }
}

/// The least rule that a clause in the block of an entity breaks.
#[tactic(auto, unfolding(crate::specs::Blocks::rule_in))]
fn rule_of(making: &Making, entity: u32, part: &Clause) -> Option<TermRefusal>
    ensures { result ≡ rule_in making.now.source.now making.now.target.now making.now.scopes.now entity part.now }
{
    match making.scopes.get(entity as usize) {
        Some(scope) => rule_with(making, scope, entity, part),
        None => Some(TermRefusal::Unknown),
    }
}

/// The fault of clause `number`, which gives what an earlier one gives or not.
fn fault_of_clause(
    making: &Making,
    is_given: bool,
    number: u32,
    part: &(u32, Clause),
) -> Option<TheoryRefusal>
    ensures { (earlier : List (ℕ × ClausePart)) → is_given ≡ list_any (λ c. same_given part.now.1 c.1) earlier
        → result ≡ clause_fault
        making.now.source.now making.now.target.now making.now.entities.now making.now.scopes.now earlier number
        part.now }
{
    if is_given {
        return Some(TheoryRefusal::Duplicate(number));
    }
    let entity = number_at(making.entities, part.0 as usize);
    match rule_of(making, entity, &part.1) {
        Some(rule) => Some(in_part_of(number, rule)),
        None => None,
    }
}

/// The first fault of the clauses.
fn first_clause_fault(alloc: Global, making: &Making) -> Result<Option<TheoryRefusal>, AllocError>
    requires { making.now.first + length making.now.clauses.now < 2 ^ 32 }
    ensures { IfOk result (λ fault. fault ≡ clauses_fault
        making.now.source.now making.now.target.now making.now.entities.now making.now.scopes.now
        making.now.first making.now.clauses.now) }
{
    let hashing = making.target.hashing();
    let mut symbols = HashSet::with_hasher(alloc, hashing);
    let mut assigned = HashSet::with_hasher(alloc, hashing);
    let mut number = making.first;
    for part in making.clauses {
        let is_given = add_clause(&mut symbols, &mut assigned, &part.1)?;
        let fault = fault_of_clause(making, is_given, number, part);
        if fault.is_some() {
            return Ok(fault);
        }
        number += 1;
    }
    Ok(None)
}

/// Tests the clauses.
pub(crate) fn check_clauses(alloc: Global, making: &Making) -> Result<(), ArrowRefusal>
    requires making { IsMaking making.now }
    ensures accepted { IfOk result (λ _. clauses_fault
        making.now.source.now making.now.target.now making.now.entities.now making.now.scopes.now
        making.now.first making.now.clauses.now ≡ None) }
    ensures refused { IfErr result (λ refusal. (refusal ≡ ArrowRefusal.Memory)
        ⊎ (option_map refusal_of_arrow (clauses_fault
        making.now.source.now making.now.target.now making.now.entities.now making.now.scopes.now
        making.now.first making.now.clauses.now) ≡ Some refusal)) }
{
    let fault = first_clause_fault(alloc, making)?;
    match fault {
        Some(refusal) => Err(of_arrow(refusal)),
        None => Ok(()),
    }
}
