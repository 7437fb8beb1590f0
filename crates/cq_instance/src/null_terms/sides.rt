//! The subterms of equations, as terms of nulls.
ghost use Rattle.std.specs.Prelude.{◌≡◌, ◌==◌, ◌<◌, ◌∷◌, [], IfOk, OnOk, filter, length, map, option_copied};
ghost use Rattle.std.specs.List.{flat_map};
ghost use Rattle.cq_theory.specs.Canonical.{below};
ghost use Rattle.cq_theory.specs.Groups.{positions, obs_eq_sources};
ghost use Rattle.cq_theory.specs.Listed.{equation_nodes, observation_nodes, subterms};
ghost use Rattle.cq_theory.specs.Tables.{count_of, value_of as value_meant};
ghost use Rattle.cq_instance.specs.InstanceData.{name_at};
ghost use Rattle.cq_instance.specs.Learning.{IsReadable, learned, learned_from, node_at, nodes_in, observed};
ghost use Rattle.cq_instance.specs.Learning.{side_nodes};
ghost use Rattle.cq_instance.specs.Standing.{meaning};

use crate::instance::Instance;
use crate::null_terms::known::{is_unknown, learn};
use crate::standing::Standing;
use cq_terms::copy_type_term;
use cq_theory::{EntTerm, Equation, TypeTerm, Value, observation_equations_by_entity, substitute};
use std::alloc::{AllocError, Global};

/// Where terms are read: the generators stand for these rows and values, and where they are one variable, a row's name
/// stands in its place in nodes.
#[derive(Clone, Copy)]
struct Site<'a> {
    instance: &'a Instance,
    standings: &'a [Standing],
    name: Option<&'a EntTerm>,
}

/// The node of a term.
fn node(alloc: Global, name: Option<&EntTerm>, term: &TypeTerm) -> Result<TypeTerm, AllocError>
    ensures { IfOk result (λ made. made ≡ node_at (option_copied name.entry) term.now) }
{
    match name {
        Some(name) => substitute(alloc, term, name),
        None => copy_type_term(alloc, term),
    }
}

/// Learns from a term with this value.
fn learn_node(
    alloc: Global,
    name: Option<&EntTerm>,
    known: &mut Vec<Option<TypeTerm>>,
    value: &Value,
    term: &TypeTerm,
) -> Result<(), AllocError>
    ensures { OnOk result (known.new.items ≡ learned value.now (node_at (option_copied name.entry) term.now)
        known.old.items) }
{
    if is_unknown(known.as_slice(), value) {
        learn(known, value, node(alloc, name, term)?);
    }
    Ok(())
}

/// Learns from a term that has no subterms but itself, and gives its value.
fn learn_leaf(
    alloc: Global,
    site: &Site,
    known: &mut Vec<Option<TypeTerm>>,
    term: &TypeTerm,
) -> Result<Value, AllocError>
    requires readable { IsReadable site.now.instance.now (map meaning site.now.standings.now)
        (option_copied site.now.name) term.now }
    requires leaf { subterms term.now ≡ term.now ∷ [] }
    ensures value { IfOk result (λ value. value ≡ value_meant site.now.instance.now.tables
        (map meaning site.now.standings.now) term.now) }
    ensures known { OnOk result (known.new.items ≡ learned_from site.now.instance.now known.old.items
        (nodes_in (option_copied site.now.name) term.now)) }
{
    let value = site.instance.value_over(alloc, site.standings, term)?;
    learn_node(alloc, site.name, known, &value, term)?;
    Ok(value)
}

/// Learns from the subterms of a term, and gives its value.
fn learn_term(
    alloc: Global,
    site: &Site,
    known: &mut Vec<Option<TypeTerm>>,
    term: &TypeTerm,
) -> Result<Value, AllocError>
    requires { IsReadable site.now.instance.now (map meaning site.now.standings.now) (option_copied site.now.name)
        term.now }
    ensures value { IfOk result (λ value. value ≡ value_meant site.now.instance.now.tables
        (map meaning site.now.standings.now) term.now) }
    ensures known { OnOk result (known.new.items ≡ learned_from site.now.instance.now known.old.items
        (nodes_in (option_copied site.now.name) term.now)) }
{
    match term {
        TypeTerm::Gen(_) => learn_leaf(alloc, site, known, term),
        TypeTerm::Const(_) => learn_leaf(alloc, site, known, term),
        TypeTerm::Att(_, _) => learn_leaf(alloc, site, known, term),
        TypeTerm::Fun(function, args) => {
            let mut values = Vec::new(alloc);
            for arg in args.as_slice() {
                values.push(learn_term(alloc, site, known, arg)?)?;
            }
            let value = site.instance.applied(alloc, *function, values)?;
            learn_node(alloc, site.name, known, &value, term)?;
            Ok(value)
        }
    }
}

/// Learns from the subterms of both sides of an equation.
fn learn_sides(
    alloc: Global,
    site: &Site,
    known: &mut Vec<Option<TypeTerm>>,
    left: &TypeTerm,
    right: &TypeTerm,
) -> Result<(), AllocError>
    requires left { IsReadable site.now.instance.now (map meaning site.now.standings.now)
        (option_copied site.now.name) left.now }
    requires right { IsReadable site.now.instance.now (map meaning site.now.standings.now)
        (option_copied site.now.name) right.now }
    ensures { OnOk result (known.new.items ≡ learned_from site.now.instance.now known.old.items
        (side_nodes (option_copied site.now.name) left.now right.now)) }
{
    let _left = learn_term(alloc, site, known, left)?;
    let _right = learn_term(alloc, site, known, right)?;
    Ok(())
}

/// Learns from the equations of the presentation.
pub fn learn_equations(
    alloc: Global,
    instance: &Instance,
    known: &mut Vec<Option<TypeTerm>>,
) -> Result<(), AllocError>
    ensures { OnOk result (known.new.items ≡ learned_from instance.now known.old.items
        (flat_map (equation_nodes instance.now.schema instance.now.presentation instance.now.names)
        instance.now.presentation.equations)) }
{
    let site = Site {
        instance,
        standings: instance.standings(),
        name: None,
    };
    for equation in instance.presentation().equations.as_slice() {
        let Equation::Typ(left, right) = equation else {
            continue;
        };
        learn_sides(alloc, &site, known, left, right)?;
    }
    Ok(())
}

/// Learns from the schema's equations at a row, of whose entity they have these numbers.
fn learn_row(
    alloc: Global,
    instance: &Instance,
    known: &mut Vec<Option<TypeTerm>>,
    entity: u32,
    row: u32,
    numbers: &[u32],
) -> Result<(), AllocError>
    requires entity { entity < length instance.now.schema.entities }
    requires row { row < count_of instance.now.tables entity }
    requires numbers { numbers.now ≡ positions (obs_eq_sources instance.now.schema.obs_eqs) entity }
    ensures { OnOk result (known.new.items ≡ learned_from instance.now known.old.items
        (flat_map (observed (name_at instance.now.names entity row))
        (filter (λ e. e.entity == entity) instance.now.schema.obs_eqs))) }
{
    instance.is_instance();
    let schema = instance.schema();
    schema.is_well_sorted();
    let equations = schema.obs_eqs.as_slice();
    let standings = [Standing::Row(row)];
    let site = Site {
        instance,
        standings: &standings,
        name: Some(instance.name_of(entity, row)),
    };
    for number in numbers {
        let equation = &equations[*number as usize];
        learn_sides(alloc, &site, known, &equation.left, &equation.right)?;
    }
    Ok(())
}

/// Learns from the schema's equations at the rows of an entity, for which they have these numbers.
fn learn_entity(
    alloc: Global,
    instance: &Instance,
    known: &mut Vec<Option<TypeTerm>>,
    entity: u32,
    numbers: &[u32],
) -> Result<(), AllocError>
    requires entity { entity < length instance.now.schema.entities }
    requires numbers { numbers.now ≡ positions (obs_eq_sources instance.now.schema.obs_eqs) entity }
    ensures { OnOk result (known.new.items ≡ learned_from instance.now known.old.items
        (observation_nodes instance.now.schema instance.now.presentation instance.now.names entity)) }
{
    instance.is_instance();
    for row in 0..instance.count(entity) {
        learn_row(alloc, instance, known, entity, row, numbers)?;
    }
    Ok(())
}

/// Learns from the schema's equations at all rows.
pub fn learn_observations(
    alloc: Global,
    instance: &Instance,
    known: &mut Vec<Option<TypeTerm>>,
) -> Result<(), AllocError>
    ensures { OnOk result (known.new.items ≡ learned_from instance.now known.old.items
        (flat_map (observation_nodes instance.now.schema instance.now.presentation instance.now.names)
        (below (length instance.now.schema.entities)))) }
{
    let schema = instance.schema();
    schema.is_well_sorted();
    let groups = observation_equations_by_entity(alloc, schema)?;
    for entity in 0..schema.entities.len() as u32 {
        learn_entity(alloc, instance, known, entity, groups.of(entity))?;
    }
    Ok(())
}
