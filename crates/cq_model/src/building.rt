//! The listed model of a presentation.
ghost use Rattle.std.specs.Prelude.{ℕ, List, ◌≡◌, ◌≤◌, ◌<◌, ◌^◌, ◌⊎◌, map, length, IfOk, IfErr, Err};
ghost use Rattle.cq_flat.specs.declared.node.Node.{Node};
ghost use Rattle.cq_flat.specs.Nodes.{HasEarlierArguments, AreSides};
ghost use Rattle.cq_rows.specs.Saturated.{NoneCloses, SomeWide};
ghost use Rattle.cq_theory.specs.declared.constant.Con.{Con};
ghost use Rattle.cq_theory.specs.Closing.{IsInconsistent, IsInconsistentAt};
ghost use Rattle.cq_theory.specs.Presentation.{IsPresentation};
ghost use Rattle.cq_model.specs.Built.{IsBuilt, IsClosureOf};
ghost use Rattle.cq_model.specs.BuiltParts.{AreLeaves, instance_of, tables_read, assignment_read};
ghost use Rattle.cq_model.specs.BuiltParts.{IsRefusal};
ghost use Rattle.cq_names.specs.Closed.{AreClosed};
ghost use Rattle.cq_names.specs.NamedRows.{AreNamedRows};
ghost use Rattle.cq_instance.specs.InstanceData.{IsInstance};
ghost use Rattle.cq_instance.specs.Listed.{IsListed};
ghost use Rattle.cq_instance.specs.Standing.{meaning};
ghost use Rattle.cq_model.specs.declared.refusal.BuildRefusal.TheVariants.{Depth, TooManyRows, Inconsistent, Memory};

use crate::equations::{push_given, push_observations};
use crate::leaves::{first_places, push_generators, push_leaves, ranks};
use crate::nodes::NodeList;
use crate::nulls::count_nulls;
use crate::places::{ClosedPlaces, Ground, Places};
use crate::reading::{read_algebra, read_sheet, read_standings};
use crate::refusal::BuildRefusal;
use cq_base::Seq;
use cq_flat::Flat;
use cq_instance::{EntryTable, Instance, Standing, grouped, sources, targets};
use cq_names::{NumberedRows, name_rows};
use cq_rows::{RowsRefusal, saturate};
use cq_tables::Tables;
use cq_theory::{Con, Presentation, Schema, Sheet};
use std::alloc::{AllocError, Global};
use std::rc::Rc;

/// The cells and the generators of types as nodes, and their places.
fn place_leaves(
    alloc: Global,
    schema: &Schema,
    presentation: &Presentation,
    tables: &Tables,
    numbered: &NumberedRows,
) -> Result<(NodeList, Places), AllocError>
    requires { (entries : List ℕ) × AreClosed schema.now presentation.now tables.now entries
        × AreNamedRows schema.now presentation.now tables.now entries numbered.now }
    ensures { (entries : List ℕ) → AreClosed schema.now presentation.now tables.now entries
        → AreNamedRows schema.now presentation.now tables.now entries numbered.now
        → IfOk result (λ made. AreLeaves schema.now presentation.now tables.now entries numbered.now.names
        made.1 made.0) }
{
    schema.is_well_sorted();
    let entities = schema.entities.len();
    let sources = sources(alloc, schema.attributes.as_slice())?;
    let targets = targets(alloc, schema.attributes.as_slice())?;
    let attributes = grouped(alloc, entities, sources.as_slice())?;
    let leaves = count_nulls(
        alloc,
        numbered.groups.as_slice(),
        attributes.as_slice(),
        targets.as_slice(),
    )?;
    let firsts = first_places(
        alloc,
        tables.made(),
        numbered.rows.as_slice(),
        numbered.members.as_slice(),
        attributes.as_slice(),
        leaves.starts,
    )?;
    let ranks = ranks(alloc, entities, sources.as_slice())?;
    let mut list = NodeList::new(alloc);
    push_leaves(&mut list, leaves.types.as_slice())?;
    let generators = push_generators(alloc, &mut list, presentation.generators.as_slice())?;
    let places = Places {
        firsts: Seq::from_vec(firsts),
        ranks: Seq::from_vec(ranks),
        generators: Seq::from_vec(generators),
    };
    Ok((list, places))
}

/// All nodes, with the equations between them, and the places of the leaves.
fn make_nodes(
    alloc: Global,
    schema: &Schema,
    presentation: &Presentation,
    tables: &Tables,
    entries: &[u64],
    numbered: &NumberedRows,
) -> Result<(NodeList, Places), AllocError>
    requires presentation { IsPresentation schema.now presentation.now }
    requires closed { AreClosed schema.now presentation.now tables.now entries.now }
    requires rows { AreNamedRows schema.now presentation.now tables.now entries.now numbered.now }
    ensures { IfOk result (λ made. IsBuilt schema.now presentation.now tables.now entries.now numbered.now.order
        numbered.now.names numbered.now.numbers
        made.1 made.0.nodes made.0.equations made.0.types) }
{
    schema.is_well_sorted();
    let (mut list, places) = place_leaves(alloc, schema, presentation, tables, numbered)?;
    let ground = Ground {
        schema,
        tables,
        places: &places,
    };
    push_given(alloc, &ground, presentation, entries, &mut list)?;
    push_observations(alloc, &ground, numbered.order.as_slice(), &mut list)?;
    Ok((list, places))
}

/// The closure of nodes, and the type of each.
fn close_nodes(alloc: Global, list: NodeList) -> Result<(Flat, Vec<u32>), AllocError>
    requires arguments { HasEarlierArguments list.nodes }
    requires sides { AreSides list.nodes list.equations }
    ensures closure { IfOk result (λ made. IsClosureOf list.nodes list.equations made.0) }
    ensures types { IfOk result (λ made. made.1.items ≡ list.types) }
{
    let NodeList {
        nodes,
        types,
        equations,
    } = list;
    let flat = Flat::close(alloc, nodes, equations)?;
    Ok((flat, types))
}

/// The columns of a listed model, its nulls and entries, and what each generator stands for.
#[derive(Drop)]
struct ModelParts {
    sheet: Sheet,
    algebra: EntryTable,
    standings: Seq<Standing>,
}

/// A presentation over a schema with its closed rows: the tables, and the row of each generator of an entity.
#[derive(Clone, Copy)]
struct ClosedRows<'a> {
    schema: &'a Schema,
    presentation: &'a Presentation,
    tables: &'a Tables,
    entries: &'a [u64],
}

/// The parts of the listed model, read from numbered rows and from the closure of nodes that have these types.
fn read_parts(
    alloc: Global,
    rows: &ClosedRows,
    numbered: &NumberedRows,
    types: &[u32],
    closed: &ClosedPlaces,
) -> Result<ModelParts, AllocError>
    requires few_types { length types.now < 2 ^ 64 }
    requires closed { AreClosed rows.now.schema.now rows.now.presentation.now rows.now.tables.now
        rows.now.entries.now }
    requires built { (nodes : List Node) × (equations : List (ℕ × ℕ)) × IsBuilt rows.now.schema.now
        rows.now.presentation.now rows.now.tables.now rows.now.entries.now numbered.now.order numbered.now.names
        numbered.now.numbers closed.now.places.now nodes equations types.now
        × IsClosureOf nodes equations closed.now.flat.now }
    ensures tables { IfOk result (λ parts. record { sheet = parts.sheet; algebra = parts.algebra }
        ≡ tables_read rows.now numbered.now closed.now types.now) }
    ensures assignment { IfOk result (λ parts. map meaning parts.standings
        ≡ assignment_read rows.now numbered.now closed.now) }
{
    let order = numbered.order.as_slice();
    let numbers = numbered.numbers.as_slice();
    let sheet = read_sheet(alloc, rows.schema, rows.tables, order, numbers, closed)?;
    let algebra = read_algebra(alloc, types, closed.flat)?;
    let standings = read_standings(alloc, rows.presentation, rows.entries, numbers, closed)?;
    Ok(ModelParts {
        sheet,
        algebra: EntryTable::new(alloc, algebra)?,
        standings,
    })
}

/// The refusal that two constants are equal.
fn clash_refusal(least: &Con, greater: &Con) -> BuildRefusal
    ensures { (result ≡ Inconsistent least.now greater.now) ⊎ (result ≡ Memory) }
{
    let Ok(least) = least.clone() else {
        return BuildRefusal::Memory;
    };
    let Ok(greater) = greater.clone() else {
        return BuildRefusal::Memory;
    };
    BuildRefusal::Inconsistent(least, greater)
}

/// The parts of the listed model over closed rows, which have these names and numbers. It is refused only where two
/// constants are equal, and where memory runs out.
fn model_parts(
    alloc: Global,
    schema: &Schema,
    presentation: &Presentation,
    tables: &Tables,
    entries: &[u64],
    numbered: &NumberedRows,
) -> Result<ModelParts, BuildRefusal>
    requires presentation { IsPresentation schema.now presentation.now }
    requires closed { AreClosed schema.now presentation.now tables.now entries.now }
    requires rows { AreNamedRows schema.now presentation.now tables.now entries.now numbered.now }
    ensures instance { IfOk result (λ parts. IsInstance
        (instance_of schema.now presentation.now numbered.now.names parts)) }
    ensures listed { IfOk result (λ parts. IsListed
        (instance_of schema.now presentation.now numbered.now.names parts)) }
    ensures consistent { IfOk result (λ _. IsInconsistent schema.now presentation.now → ⊥) }
    ensures refused { IfErr result (IsRefusal schema.now presentation.now) }
{
    schema.is_well_sorted();
    let (list, places) = make_nodes(alloc, schema, presentation, tables, entries, numbered)?;
    let (flat, types) = close_nodes(alloc, list)?;
    if let Some((least, greater)) = flat.clash() {
        return Err(clash_refusal(least, greater));
    }
    let rows = ClosedRows {
        schema,
        presentation,
        tables,
        entries,
    };
    let closed = ClosedPlaces {
        places: &places,
        flat: &flat,
    };
    let parts = read_parts(alloc, &rows, numbered, types.as_slice(), &closed)?;
    Ok(parts)
}

/// The listed model over closed rows. It is refused only where two constants are equal, and where memory runs out.
fn build_closed(
    alloc: Global,
    schema: Rc<Schema>,
    presentation: Presentation,
    tables: &Tables,
    entries: &[u64],
) -> Result<Instance, BuildRefusal>
    requires presentation { IsPresentation schema.value presentation }
    requires closed { AreClosed schema.value presentation tables.now entries.now }
    ensures schema { IfOk result (λ instance. instance.schema ≡ schema.value) }
    ensures presentation { IfOk result (λ instance. instance.presentation ≡ presentation) }
    ensures listed { IfOk result (λ instance. IsListed instance) }
    ensures consistent { IfOk result (λ _. IsInconsistent schema.value presentation → ⊥) }
    ensures refused { IfErr result (IsRefusal schema.value presentation) }
{
    let numbered = name_rows(alloc, &schema, &presentation, tables, entries)?;
    match model_parts(alloc, &schema, &presentation, tables, entries, &numbered) {
        Ok(parts) => Ok(Instance::from_parts(
            schema,
            presentation,
            numbered.names,
            parts.sheet,
            parts.algebra,
            parts.standings,
        )),
        Err(refusal) => Err(refusal),
    }
}

/// The listed model of a presentation, made of rows up to a depth of at most 64. Rows that are named by shorter terms
/// come first, nulls and entries in the order in which the cells, the generators and the equations bring them.
///
/// The refusals are tried in this order: too many rows by stages, depth after the last stage, inconsistency.
pub fn build(
    alloc: Global,
    schema: Rc<Schema>,
    presentation: Presentation,
    depth: u32,
) -> Result<Instance, BuildRefusal>
    requires presentation { IsPresentation schema.value presentation }
    requires depth { depth ≤ 64 }
    ensures schema { IfOk result (λ instance. instance.schema ≡ schema.value) }
    ensures presentation { IfOk result (λ instance. instance.presentation ≡ presentation) }
    ensures listed { IfOk result (λ instance. IsListed instance) }
    ensures consistent { IfOk result (λ _. IsInconsistent schema.value presentation → ⊥) }
    ensures open { result ≡ Err Depth → NoneCloses schema.value presentation depth }
    ensures many { result ≡ Err TooManyRows → SomeWide schema.value presentation depth }
    ensures inconsistent { (c d : Con) → result ≡ Err (Inconsistent c d)
        → IsInconsistentAt schema.value presentation c d }
{
    let partial = match saturate(alloc, &schema, &presentation, depth) {
        Ok(partial) => partial,
        Err(RowsRefusal::TooManyRows) => return Err(BuildRefusal::TooManyRows),
        Err(RowsRefusal::Memory) => return Err(BuildRefusal::Memory),
    };
    if !partial.closed {
        return Err(BuildRefusal::Depth);
    }
    build_closed(
        alloc,
        schema,
        presentation,
        &partial.tables,
        partial.generator_rows.as_slice(),
    )
}
