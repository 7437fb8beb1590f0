//! The presentation to which a mapping sends a presentation of its source.
ghost use Rattle.std.specs.Prelude.{◌≡◌, ◌<◌, ◌≤◌, ◌+◌, ◌⊎◌, true, false, min, map, length, MatchOption, IfOk, IfErr};
ghost use Rattle.std.specs.List.{list_any};
ghost use Rattle.cq_theory.specs.EntTerm as ent;
ghost use Rattle.cq_theory.specs.TypeTerm.{symbols_of, substituted};
ghost use Rattle.cq_theory.specs.Presentation.{IsPresentation};
ghost use Rattle.cq_theory.specs.declared.term.Term.TheVariants.{Ent, Typ};
ghost use Rattle.cq_mapping.specs.Images.{key_image, attribute_image, ent_image, type_image, sort_image};
ghost use Rattle.cq_mapping.specs.Images.{generator_images, equation_image, sigma};
ghost use Rattle.cq_theory.specs.Presentation.{is_long as is_long_term, has_long_side};
ghost use Rattle.cq_mapping.specs.Duties.{is_too_large};
ghost use Rattle.cq_mapping.specs.Symbols.{symbols_at};

use crate::images::{image_of_ent, image_of_entity};
use crate::mapping::Mapping;
use cq_base::{Name, Seq};
use cq_theory::{EntTerm, Equation, Presentation, SizeRefusal, Sort, TypeTerm};
use std::alloc::{AllocError, Global};

impl Mapping {
    /// The presentation with each generator at the image of its sort, and each equation replaced by its image.
    /// `TooLarge` is answered exactly where a side of an equation would have over 1,024 symbols, and `Memory` for
    /// want of memory.
    pub fn sigma_presentation(
        &self,
        alloc: Global,
        presentation: &Presentation,
    ) -> Result<Presentation, SizeRefusal>
        requires { IsPresentation self.now.source presentation.now }
        ensures accepted { IfOk result (λ _. is_too_large self.now presentation.now ≡ false) }
        ensures made { IfOk result (λ made. made ≡ sigma self.now presentation.now) }
        ensures presentation { IfOk result (λ made. IsPresentation self.now.target made) }
        ensures refused { IfErr result (λ refusal. (refusal ≡ SizeRefusal.Memory)
            ⊎ ((refusal ≡ SizeRefusal.TooLarge) × (is_too_large self.now presentation.now ≡ true))) }
    {
        self.is_well_sorted();
        if has_long_image(self, presentation.equations.as_slice()) {
            return Err(SizeRefusal::TooLarge);
        }
        let made = build_image(alloc, self, presentation)?;
        Ok(made)
    }
}

fn image_of_sort(mapping: &Mapping, sort: Sort) -> Sort
    ensures { result ≡ sort_image mapping.now sort }
{
    match sort {
        Sort::Plain(number) => Sort::Plain(number),
        Sort::Entity(entity) => Sort::Entity(image_of_entity(mapping, entity)),
    }
}

fn image_generators(
    alloc: Global,
    mapping: &Mapping,
    generators: &[(Name, Sort)],
) -> Result<Vec<(Name, Sort)>, AllocError>
    ensures { IfOk result (λ made. made.items ≡ generator_images mapping.now generators.now) }
{
    let mut made = Vec::new(alloc);
    for generator in generators {
        let name = generator.0.clone()?;
        made.push((name, image_of_sort(mapping, generator.1)))?;
    }
    Ok(made)
}

/// The number of symbols of the image of an entity term, or 1,025 where there are more.
fn count_symbols(mapping: &Mapping, term: &EntTerm) -> u64
    ensures { result ≡ min 1025 (ent.symbols_of (ent_image mapping.now term.now)) }
{
    let mut count = 1;
    for key in term.path.as_slice() {
        count = at_most_1025(count, key_length(mapping, *key));
    }
    count
}

fn at_most_1025(count: u64, more: usize) -> u64
    requires { count ≤ 1025 }
    ensures { result ≡ min 1025 (count + more) }
{
    if more > 1024 {
        1025
    } else {
        (count + more as u64).min(1025)
    }
}

/// How many foreign keys the path of a foreign key has.
fn key_length(mapping: &Mapping, key: u32) -> usize
    ensures { result ≡ length (key_image mapping.now key) }
{
    match mapping.keys.as_slice().get(key as usize) {
        Some(path) => path.len(),
        None => 0,
    }
}

/// The room that is left after the symbols of a term over one variable, in whose place a term of `base` symbols
/// stands.
fn room_after(base: u64, term: &TypeTerm, room: u64) -> Option<u64>
    ensures { MatchOption result (room < symbols_at base term.now) (λ left. symbols_at base term.now + left ≡ room) }
{
    match term {
        TypeTerm::Gen(_) => room.checked_sub(1),
        TypeTerm::Const(_) => room.checked_sub(1),
        TypeTerm::Att(_, at) => {
            let left = room.checked_sub(1)?;
            let left = left.checked_sub(base)?;
            left.checked_sub(at.path.len() as u64)
        }
        TypeTerm::Fun(_, args) => {
            let mut left = room.checked_sub(1)?;
            for arg in args.as_slice() {
                left = room_after(base, arg, left)?;
            }
            Some(left)
        }
    }
}

/// The room that is left after the symbols of an attribute's image at an entity term.
fn attribute_room(mapping: &Mapping, attribute: u32, at: &EntTerm, room: u64) -> Option<u64>
    requires { room ≤ 1024 }
    ensures { MatchOption result (room < symbols_of
        (substituted (ent_image mapping.now at.now) (attribute_image mapping.now attribute)))
        (λ left. symbols_of (substituted (ent_image mapping.now at.now) (attribute_image mapping.now attribute))
        + left ≡ room) }
{
    let base = count_symbols(mapping, at);
    match mapping.attributes.as_slice().get(attribute as usize) {
        Some(term) => room_after(base, term, room),
        None => room.checked_sub(1),
    }
}

/// The room that is left after the symbols of the image of a term.
fn room_left(mapping: &Mapping, term: &TypeTerm, room: u64) -> Option<u64>
    requires { room ≤ 1024 }
    ensures { MatchOption result (room < symbols_of (type_image mapping.now term.now))
        (λ left. symbols_of (type_image mapping.now term.now) + left ≡ room) }
{
    match term {
        TypeTerm::Gen(_) => room.checked_sub(1),
        TypeTerm::Const(_) => room.checked_sub(1),
        TypeTerm::Att(attribute, at) => attribute_room(mapping, *attribute, at, room),
        TypeTerm::Fun(_, args) => {
            let mut left = room.checked_sub(1)?;
            for arg in args.as_slice() {
                left = room_left(mapping, arg, left)?;
            }
            Some(left)
        }
    }
}

fn is_long_ent(mapping: &Mapping, term: &EntTerm) -> bool
    ensures { result ≡ is_long_term (Ent (ent_image mapping.now term.now)) }
{
    count_symbols(mapping, term) > 1024
}

fn is_long_type(mapping: &Mapping, term: &TypeTerm) -> bool
    ensures { result ≡ is_long_term (Typ (type_image mapping.now term.now)) }
{
    room_left(mapping, term, 1024).is_none()
}

/// Whether a side of the image of the equation has over 1,024 symbols.
fn is_long(mapping: &Mapping, equation: &Equation) -> bool
    ensures { result ≡ has_long_side (equation_image mapping.now equation.now) }
{
    match equation {
        Equation::Ent(left, right) => is_long_ent(mapping, left) || is_long_ent(mapping, right),
        Equation::Typ(left, right) => is_long_type(mapping, left) || is_long_type(mapping, right),
    }
}

fn has_long_image(mapping: &Mapping, equations: &[Equation]) -> bool
    ensures { result ≡ list_any has_long_side (map (equation_image mapping.now) equations.now) }
{
    for equation in equations {
        if is_long(mapping, equation) {
            return true;
        }
    }
    false
}

fn image_of_equation(
    alloc: Global,
    mapping: &Mapping,
    equation: &Equation,
) -> Result<Equation, AllocError>
    ensures { IfOk result (λ made. made ≡ equation_image mapping.now equation.now) }
{
    match equation {
        Equation::Ent(left, right) => {
            let left = image_of_ent(alloc, mapping, left)?;
            let right = image_of_ent(alloc, mapping, right)?;
            Ok(Equation::Ent(left, right))
        }
        Equation::Typ(left, right) => {
            let left = mapping.image_term(alloc, left)?;
            let right = mapping.image_term(alloc, right)?;
            Ok(Equation::Typ(left, right))
        }
    }
}

fn image_equations(
    alloc: Global,
    mapping: &Mapping,
    equations: &[Equation],
) -> Result<Vec<Equation>, AllocError>
    ensures { IfOk result (λ made. made.items ≡ map (equation_image mapping.now) equations.now) }
{
    let mut made = Vec::new(alloc);
    for equation in equations {
        made.push(image_of_equation(alloc, mapping, equation)?)?;
    }
    Ok(made)
}

fn build_image(
    alloc: Global,
    mapping: &Mapping,
    presentation: &Presentation,
) -> Result<Presentation, AllocError>
    ensures { IfOk result (λ made. made ≡ sigma mapping.now presentation.now) }
{
    let generators = image_generators(alloc, mapping, presentation.generators.as_slice())?;
    let equations = image_equations(alloc, mapping, presentation.equations.as_slice())?;
    Ok(Presentation {
        generators: Seq::from_vec(generators),
        equations: Seq::from_vec(equations),
    })
}
