//! Whether declarations and parts can be counted by numbers of 32 bits.
ghost use Rattle.std.specs.Prelude.{ℕ, ◌≡◌, ◌+◌, ◌-◌, ◌<◌, ◌≤◌, ◌^◌, ◌↔◌, All, IsTrue, length, sum_by};
ghost use Rattle.std.specs.Option.{SomeIff};
ghost use Rattle.cq_syntax.specs.declared.program.Body.TheVariants.{Mapping, Query, Instance, Transform};
ghost use Rattle.cq_parts.specs.Few.{HasFewParts, part_count};
ghost use Rattle.cq_theory.specs.TypesideParts.{literals_count};
ghost use Rattle.cq_parts.specs.Parts.{name_of, clause_count, instance_count, key_count, mapping_count, query_count};
ghost use Rattle.cq_parts.specs.Parts.{colimit_count, schema_count, typeside_count, variable_count};

use cq_syntax::{
    Body, ColimitLit, Decl, EdgeSyn, FunSyn, GroupSyn, InstanceExp, InstanceLit, MapBlock,
    MappingExp, MappingLit, Program, QueryBlock, QueryExp, QueryKey, QueryLit, SchemaExp,
    SchemaLit, Spot, TransformExp, TypesideLit,
};

/// Whether a program has fewer than 2^32 - 1 declarations, and each of them fewer than 2^32 parts, as every program in
/// a file of 8 MiB has. This is what `meaning` requires.
pub fn has_few_parts(program: &Program) -> bool
    ensures { IsTrue result ↔ HasFewParts program.now }
{
    program.decls.len() < u32::MAX as usize && have_few_parts(program.decls.as_slice())
}

fn have_few_parts(decls: &[Decl]) -> bool
    ensures { IsTrue result ↔ All (λ d. part_count d.body < 2 ^ 32) decls.now }
{
    decls.iter().all(|decl| has_few(&decl.body))
}

fn has_few(body: &Body) -> bool
    ensures { IsTrue result ↔ (part_count body.now < 2 ^ 32) }
{
    match body {
        Body::Typeside(literal) => has_few_in_typeside(literal),
        Body::Schema(SchemaExp::Literal(literal)) => has_few_in_schema(literal),
        Body::Schema(SchemaExp::GetSchema(_)) => true,
        Body::Instance(expression) => has_few_in_instance(expression),
        Body::Colimit(literal) => has_few_in_colimit(literal),
        Body::Mapping(expression) => has_few_in_mapping(expression),
        Body::Query(expression) => has_few_in_query(expression),
        Body::Transform(expression) => has_few_in_transform(expression),
    }
}

fn has_few_in_colimit(literal: &ColimitLit) -> bool
    ensures { IsTrue result ↔ (colimit_count literal.now < 2 ^ 32) }
{
    let Some(room) = room_after(u32::MAX, literal.parts.len()) else {
        return false;
    };
    let Some(room) = room_after(room, literal.pairs.len()) else {
        return false;
    };
    let Some(room) = room_after(room, literal.path_eqs.len()) else {
        return false;
    };
    room_after(room, literal.obs_eqs.len()).is_some()
}

fn has_few_in_typeside(literal: &TypesideLit) -> bool
    ensures { IsTrue result ↔ (typeside_count literal.now < 2 ^ 32) }
{
    let Some(room) = room_after(u32::MAX, literal.types.len()) else {
        return false;
    };
    let Some(room) = room_after(room, count_of(&literal.literals)) else {
        return false;
    };
    let Some(room) = room_after_each(room, literal.constants.as_slice()) else {
        return false;
    };
    room_after_each(room, literal.functions.as_slice()).is_some()
}

/// How many parts the name of an open type is.
fn count_of(literals: &Option<Spot>) -> usize
    ensures { result ≡ literals_count (name_of literals.now) }
{
    match literals {
        Some(_) => 1,
        None => 0,
    }
}

fn has_few_in_schema(literal: &SchemaLit) -> bool
    ensures { IsTrue result ↔ (schema_count literal.now < 2 ^ 32) }
{
    let Some(room) = room_after(u32::MAX, literal.entities.len()) else {
        return false;
    };
    let Some(room) = room_after_each(room, literal.keys.as_slice()) else {
        return false;
    };
    let Some(room) = room_after(room, literal.path_eqs.len()) else {
        return false;
    };
    let Some(room) = room_after_each(room, literal.attributes.as_slice()) else {
        return false;
    };
    room_after(room, literal.obs_eqs.len()).is_some()
}

fn has_few_in_mapping(expression: &MappingExp) -> bool
    ensures { IsTrue result ↔ (part_count (Mapping expression.now) < 2 ^ 32) }
{
    match expression {
        MappingExp::Literal(literal) => has_few_in_blocks(literal),
        MappingExp::Identity(_) => true,
        MappingExp::GetMapping(_, _) => true,
    }
}

fn has_few_in_blocks(literal: &MappingLit) -> bool
    ensures { IsTrue result ↔ (mapping_count literal.now < 2 ^ 32) }
{
    let Some(room) = room_after(u32::MAX, literal.blocks.len()) else {
        return false;
    };
    room_after_each(room, literal.blocks.as_slice()).is_some()
}

fn has_few_in_query(expression: &QueryExp) -> bool
    ensures { IsTrue result ↔ (part_count (Query expression.now) < 2 ^ 32) }
{
    match expression {
        QueryExp::Literal(literal) => has_few_in_query_literal(literal),
        QueryExp::Compose(_, _) => true,
        QueryExp::OfMapping(_) => true,
    }
}

fn has_few_in_query_literal(literal: &QueryLit) -> bool
    ensures { IsTrue result ↔ (query_count literal.now < 2 ^ 32) }
{
    let Some(room) = room_after(u32::MAX, literal.blocks.len()) else {
        return false;
    };
    let Some(room) = room_after_variables(room, literal.blocks.as_slice()) else {
        return false;
    };
    room_after_each(room, literal.blocks.as_slice()).is_some()
}

fn has_few_in_transform(expression: &TransformExp) -> bool
    ensures { IsTrue result ↔ (part_count (Transform expression.now) < 2 ^ 32) }
{
    match expression {
        TransformExp::Literal(literal) => room_after(u32::MAX, literal.images.len()).is_some(),
        TransformExp::Identity(_) => true,
        TransformExp::Move(_, _, _, _, _) => true,
    }
}

fn has_few_in_instance(expression: &InstanceExp) -> bool
    ensures { IsTrue result ↔ (part_count (Instance expression.now) < 2 ^ 32) }
{
    match expression {
        InstanceExp::Literal(literal) => has_few_in_literal(literal),
        InstanceExp::Delta(_, _) => true,
        InstanceExp::Sigma(_, _) => true,
        InstanceExp::Eval(_, _) => true,
        InstanceExp::Coeval(_, _) => true,
        InstanceExp::Coproduct(_, _) => true,
        InstanceExp::Pushout(_, _) => true,
        InstanceExp::ImportCsv(_, _, _) => true,
        InstanceExp::ImportCsv2(_, _, _) => true,
    }
}

fn has_few_in_literal(literal: &InstanceLit) -> bool
    ensures { IsTrue result ↔ (instance_count literal.now < 2 ^ 32) }
{
    let Some(room) = room_after_each(u32::MAX, literal.generators.as_slice()) else {
        return false;
    };
    room_after(room, literal.equations.len()).is_some()
}

/// What is left of the room for parts after some more.
fn room_after(room: u32, parts: usize) -> Option<u32>
    ensures { SomeIff result (parts ≤ room) (room - parts) }
{
    if parts <= room as usize {
        Some(room - parts as u32)
    } else {
        None
    }
}

/// What has parts.
trait Counted {
    ghost count_of: { Self → ℕ };

    /// What is left of the room for parts after its own.
    fn room_after(&self, room: u32) -> Option<u32>
        ensures { SomeIff result (count_of self.now ≤ room) (room - count_of self.now) };
}

fn room_after_each<C: Counted>(room: u32, groups: &[C]) -> Option<u32>
    ensures { SomeIff result (sum_by C.count_of groups.now ≤ room) (room - sum_by C.count_of groups.now) }
{
    let mut left = room;
    for group in groups {
        match group.room_after(left) {
            Some(room) => left = room,
            None => return None,
        }
    }
    Some(left)
}

impl Counted for GroupSyn {
    ghost count_of = { λ g. length g.names };

    fn room_after(&self, room: u32) -> Option<u32> {
        room_after(room, self.names.len())
    }
}

impl Counted for EdgeSyn {
    ghost count_of = { λ e. length e.names };

    fn room_after(&self, room: u32) -> Option<u32> {
        room_after(room, self.names.len())
    }
}

impl Counted for FunSyn {
    ghost count_of = { λ f. length f.names };

    fn room_after(&self, room: u32) -> Option<u32> {
        room_after(room, self.names.len())
    }
}

impl Counted for MapBlock {
    ghost count_of = { λ b. length b.keys + length b.attributes };

    fn room_after(&self, room: u32) -> Option<u32> {
        match room_after(room, self.keys.len()) {
            Some(room) => room_after(room, self.attributes.len()),
            None => None,
        }
    }
}

impl Counted for QueryKey {
    ghost count_of = { key_count };

    fn room_after(&self, room: u32) -> Option<u32> {
        match room_after(room, self.assigns.len()) {
            Some(room) => room_after(room, 1),
            None => None,
        }
    }
}

impl Counted for QueryBlock {
    ghost count_of = { clause_count };

    fn room_after(&self, room: u32) -> Option<u32> {
        let Some(room) = room_after(room, self.tests.len()) else {
            return None;
        };
        let Some(room) = room_after(room, self.attributes.len()) else {
            return None;
        };
        room_after_each(room, self.keys.as_slice())
    }
}

fn room_after_variables(room: u32, blocks: &[QueryBlock]) -> Option<u32>
    ensures { SomeIff result (sum_by variable_count blocks.now ≤ room) (room - sum_by variable_count blocks.now) }
{
    let mut left = room;
    for block in blocks {
        match room_after_each(left, block.vars.as_slice()) {
            Some(room) => left = room,
            None => return None,
        }
    }
    Some(left)
}
