//! Images that are spelled in an instance of tables.
ghost use Rattle.std.specs.Prelude.{◌≡◌, ◌≤◌, false, IfOk, IfErr, length, slice_index};
ghost use Rattle.cq_theory.specs.declared.presentation.Sort.TheVariants.{Plain, Entity};
ghost use Rattle.cq_instance.specs.Given.{given};
ghost use Rattle.cq_mapping.specs.Images.{entity_image};
ghost use Rattle.cq_move.specs.Pulling.{TellsSize};
ghost use Rattle.cq_transform.specs.Composing.{has_long};
ghost use Rattle.cq_adjoint.specs.Moves.{each_generator};
ghost use Rattle.cq_adjoint.specs.Spellable.{IsSpellable, AreSpellable, moved_spelling};

use crate::limits::push_image;
use crate::sending::{sent_row, sent_value};
use crate::spelling::{name_row, spell_value};
use cq_base::{Name, number_at};
use cq_instance::{Image, Instance, Transform};
use cq_mapping::Mapping;
use cq_theory::{SizeRefusal, Sort};
use cq_transform::rows_at;
use std::alloc::{AllocError, Global};

/// The image of an entity.
pub(crate) fn image_of_entity(mapping: &Mapping, entity: u32) -> u32
    ensures { result ≡ entity_image mapping.now entity }
{
    number_at(mapping.entities.as_slice(), entity as usize)
}

/// The generator of the row to which the row of a generator goes.
fn spelled_row(
    alloc: Global,
    mapping: &Mapping,
    h: &Transform,
    from: &Instance,
    to: &Instance,
    generator: u32,
    entity: u32,
) -> Result<Image, AllocError>
    requires given { to.now ≡ given to.now.schema to.now.tables }
    requires spellable { IsSpellable mapping.now h.now from.now to.now generator (Entity entity) }
    ensures { IfOk result (λ made. made
        ≡ moved_spelling mapping.now h.now from.now to.now generator (Entity entity)) }
{
    to.is_instance();
    let rows = rows_at(h.rows.as_slice(), image_of_entity(mapping, entity) as usize);
    let row = sent_row(alloc, from, rows, generator);
    match name_row(alloc, to, entity, row) {
        Ok(image) => Ok(image),
        Err(refusal) => Err(refusal),
    }
}

/// The value to which the value of a generator goes, as a term.
fn spelled_value(
    alloc: Global,
    mapping: &Mapping,
    h: &Transform,
    from: &Instance,
    to: &Instance,
    generator: u32,
    plain: u32,
) -> Result<Image, AllocError>
    requires given { to.now ≡ given to.now.schema to.now.tables }
    requires spellable { IsSpellable mapping.now h.now from.now to.now generator (Plain plain) }
    ensures { IfOk result (λ made. made ≡ moved_spelling mapping.now h.now from.now to.now generator (Plain plain)) }
{
    let Ok(value) = sent_value(alloc, from, to, h, generator) else {
        return Err(AllocError);
    };
    match spell_value(alloc, to, &value) {
        Ok(image) => Ok(image),
        Err(refusal) => Err(refusal),
    }
}

/// The spelling of where the transform sends what a generator stands for.
fn spelled_image(
    alloc: Global,
    mapping: &Mapping,
    h: &Transform,
    from: &Instance,
    to: &Instance,
    generator: u32,
    sort: Sort,
) -> Result<Image, AllocError>
    requires given { to.now ≡ given to.now.schema to.now.tables }
    requires spellable { IsSpellable mapping.now h.now from.now to.now generator sort }
    ensures { IfOk result (λ made. made ≡ moved_spelling mapping.now h.now from.now to.now generator sort) }
{
    match sort {
        Sort::Entity(entity) => spelled_row(alloc, mapping, h, from, to, generator, entity),
        Sort::Plain(plain) => spelled_value(alloc, mapping, h, from, to, generator, plain),
    }
}

/// The spelling of where the transform sends what each generator stands for. `from` has what the generators stand for,
/// and `to` is an instance of tables.
pub(crate) fn spelled_images(
    alloc: Global,
    mapping: &Mapping,
    h: &Transform,
    from: &Instance,
    to: &Instance,
    generators: &[(Name, Sort)],
) -> Result<Vec<Image>, SizeRefusal>
    requires given { to.now ≡ given to.now.schema to.now.tables }
    requires few { length generators.now ≤ 16000000 }
    requires spellable { AreSpellable mapping.now h.now from.now to.now generators.now }
    ensures made { IfOk result (λ made. made.items
        ≡ each_generator (moved_spelling mapping.now h.now from.now to.now) generators.now) }
    ensures fits { IfOk result (λ made. has_long made.items ≡ false) }
    ensures refused { IfErr result (TellsSize (has_long
        (each_generator (moved_spelling mapping.now h.now from.now to.now) generators.now))) }
{
    let Ok(mut images) = Vec::with_capacity(alloc, generators.len()) else {
        return Err(SizeRefusal::Memory);
    };
    for (number, generator) in generators.iter().enumerate() {
        let Ok(image) = spelled_image(alloc, mapping, h, from, to, number as u32, generator.1)
        else {
            return Err(SizeRefusal::Memory);
        };
        if let Err(refusal) = push_image(image, &mut images) {
            return Err(refusal);
        }
    }
    Ok(images)
}
