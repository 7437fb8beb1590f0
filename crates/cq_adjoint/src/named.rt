//! Images that are named in an instance: rows by their least names, and values with a term for each null.
ghost use Rattle.std.specs.Prelude.{ℕ, ◌≡◌, ◌≤◌, false, IfOk, IfErr, length};
ghost use Rattle.cq_theory.specs.declared.presentation.Sort.TheVariants.{Plain, Entity};
ghost use Rattle.cq_theory.specs.declared.term.TypeTerm.{TypeTerm as AnyTerm};
ghost use Rattle.cq_move.specs.Pulling.{TellsSize};
ghost use Rattle.cq_transform.specs.Composing.{has_long};
ghost use Rattle.cq_adjoint.specs.Moves.{each_generator, spelled_value};
ghost use Rattle.cq_adjoint.specs.Nameable.{IsNameable, AreNameable, moved_name};
ghost use Rattle.cq_instance.specs.Spelling.{term_among};

use crate::limits::push_image;
use crate::sending::{sent_row, sent_value};
use crate::spelled::image_of_entity;
use crate::spelling::name_row;
use cq_base::{Name, Seq};
use cq_instance::{Image, Instance, Transform};
use cq_mapping::Mapping;
use cq_terms::copy_type_term;
use cq_theory::{Con, SizeRefusal, Sort, TypeTerm, Value};
use cq_transform::rows_at;
use std::alloc::{AllocError, Global};

/// By what rows and values are named in an instance: the instance, and a term for each null.
#[derive(Clone, Copy)]
pub struct Naming<'a> {
    pub to: &'a Instance,
    pub null_terms: &'a [TypeTerm],
}

/// The term of a null, and a constant where there is no such null.
fn null_term(alloc: Global, null_terms: &[TypeTerm], label: u64) -> Result<TypeTerm, AllocError>
    ensures { IfOk result (λ made. made ≡ term_among null_terms.now label) }
{
    match null_terms.get(label as usize) {
        Some(term) => copy_type_term(alloc, term),
        None => Ok(TypeTerm::Const(Con::Named(0))),
    }
}

/// A value as a term, with the term of each null in the null's place.
pub(crate) fn named_term(
    alloc: Global,
    naming: &Naming,
    value: &Value,
) -> Result<TypeTerm, AllocError>
    ensures { IfOk result (λ made. made ≡ spelled_value (term_among naming.now.null_terms.now) value.now) }
{
    match value {
        Value::Const(constant) => Ok(TypeTerm::Const(constant.clone()?)),
        Value::Null(label) => null_term(alloc, naming.null_terms, *label),
        Value::Fun(function, args) => {
            let mut made = Vec::new(alloc);
            for arg in args.as_slice() {
                made.push(named_term(alloc, naming, arg)?)?;
            }
            Ok(TypeTerm::Fun(*function, Seq::from_vec(made)))
        }
    }
}

/// The name of the row to which the row of a generator goes.
fn named_row(
    alloc: Global,
    mapping: &Mapping,
    k: &Transform,
    from: &Instance,
    to: &Instance,
    generator: u32,
    entity: u32,
) -> Result<Image, AllocError>
    requires { IsNameable mapping.now k.now from.now to.now generator (Entity entity) }
    ensures { IfOk result (λ made. (nulls : ℕ → AnyTerm)
        → made ≡ moved_name mapping.now k.now from.now to.now nulls generator (Entity entity)) }
{
    let rows = rows_at(k.rows.as_slice(), entity as usize);
    let row = sent_row(alloc, from, rows, generator);
    match name_row(alloc, to, image_of_entity(mapping, entity), row) {
        Ok(image) => Ok(image),
        Err(refusal) => Err(refusal),
    }
}

/// The value to which the value of a generator goes, as a term.
fn named_value(
    alloc: Global,
    mapping: &Mapping,
    k: &Transform,
    from: &Instance,
    naming: &Naming,
    generator: u32,
    plain: u32,
) -> Result<Image, AllocError>
    requires { IsNameable mapping.now k.now from.now naming.now.to.now generator (Plain plain) }
    ensures { IfOk result (λ made. made ≡ moved_name mapping.now k.now from.now naming.now.to.now
        (term_among naming.now.null_terms.now) generator (Plain plain)) }
{
    let to = naming.to;
    mapping.is_well_sorted();
    let Ok(value) = sent_value(alloc, from, to, k, generator) else {
        return Err(AllocError);
    };
    match named_term(alloc, naming, &value) {
        Ok(term) => Ok(Image::Value(term)),
        Err(refusal) => Err(refusal),
    }
}

/// The name of where the transform sends what a generator stands for.
fn named_image(
    alloc: Global,
    mapping: &Mapping,
    k: &Transform,
    from: &Instance,
    naming: &Naming,
    generator: u32,
    sort: Sort,
) -> Result<Image, AllocError>
    requires { IsNameable mapping.now k.now from.now naming.now.to.now generator sort }
    ensures { IfOk result (λ made. made ≡ moved_name mapping.now k.now from.now naming.now.to.now
        (term_among naming.now.null_terms.now) generator sort) }
{
    let to = naming.to;
    match sort {
        Sort::Entity(entity) => named_row(alloc, mapping, k, from, to, generator, entity),
        Sort::Plain(plain) => named_value(alloc, mapping, k, from, naming, generator, plain),
    }
}

/// The name of where the transform sends what each generator stands for. `from` has what the generators stand for.
pub(crate) fn named_images(
    alloc: Global,
    mapping: &Mapping,
    k: &Transform,
    from: &Instance,
    naming: &Naming,
    generators: &[(Name, Sort)],
) -> Result<Vec<Image>, SizeRefusal>
    requires few { length generators.now ≤ 16000000 }
    requires nameable { AreNameable mapping.now k.now from.now naming.now.to.now generators.now }
    ensures made { IfOk result (λ made. made.items ≡ each_generator (moved_name mapping.now k.now from.now
        naming.now.to.now (term_among naming.now.null_terms.now)) generators.now) }
    ensures fits { IfOk result (λ made. has_long made.items ≡ false) }
    ensures refused { IfErr result (TellsSize (has_long (each_generator (moved_name mapping.now k.now from.now
        naming.now.to.now (term_among naming.now.null_terms.now)) generators.now))) }
{
    let Ok(mut images) = Vec::with_capacity(alloc, generators.len()) else {
        return Err(SizeRefusal::Memory);
    };
    for (number, generator) in generators.iter().enumerate() {
        let Ok(image) = named_image(alloc, mapping, k, from, naming, number as u32, generator.1)
        else {
            return Err(SizeRefusal::Memory);
        };
        if let Err(refusal) = push_image(image, &mut images) {
            return Err(refusal);
        }
    }
    Ok(images)
}
