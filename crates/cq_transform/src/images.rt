//! The images of generators, by parts that name them.
ghost use Rattle.std.specs.Prelude.{◌≡◌, ◌≤◌, ◌-◌, ◌<◌, ◌^◌, ◌⊎◌, ◌||◌, ◌++◌, ◌∷◌, [], IfOk, IfErr, Some, None};
ghost use Rattle.std.specs.Prelude.{true, false, is_none, length, map, option_copied};
ghost use Rattle.cq_scope.specs.Firsts.{AreFirstsOf};
ghost use Rattle.cq_theory.specs.Resolve.{has_unknown as is_unknown_in};
ghost use Rattle.cq_theory.specs.Resolved.{resolved};
ghost use Rattle.cq_theory.specs.Sorts.{Generators};
ghost use Rattle.cq_transform.specs.Images.{image_rule as rule_of_image};
ghost use Rattle.cq_transform.specs.Images.{late_rule as rule_of_sorted, image_fault, parts_fault, given as given_by};
ghost use Rattle.cq_transform.specs.Images.{first_missing, has_image, image_of as image_of_term, image_in as image_by};
ghost use Rattle.cq_transform.specs.Images.{image_named, names_of, sorts_of, scope_of, fault_over, made_over};

use crate::refusal::{TransformRefusal, of_transform};
use crate::scope::sort_of;
use cq_base::{Name, Names, Raw};
use cq_instance::Image;
use cq_scope::{Firsts, Scope, build_over, firsts_of};
use cq_theory::lookup::{
    declare, has_reserved, has_unknown, has_wrong_count, have_one_sort, in_part_of, is_too_large,
    sort_of_raw,
};
use cq_theory::{EntTerm, Path, Schema, Sort, Term, TermRefusal, TheoryRefusal};
use std::alloc::{AllocError, Global};

/// Whether a name is unknown: that of the generator, which then has no sort, or one in its image.
fn is_unknown(schema: &Schema, to: &Scope, sort: Option<Sort>, image: &Raw) -> bool
    ensures { result ≡ (is_none sort || is_unknown_in schema.now to.now.names image.now) }
{
    sort.is_none() || has_unknown(schema, &to.names, image)
}

/// The least rule that an image of the right sort breaks.
fn late_rule(schema: &Schema, image: &Raw) -> Option<TermRefusal>
    ensures { result ≡ rule_of_sorted schema.now image.now }
{
    if has_reserved(schema, image) {
        Some(TermRefusal::Reserved)
    } else if is_too_large(image) {
        Some(TermRefusal::TooLarge)
    } else {
        None
    }
}

/// The least rule that an image breaks, but that no generator is given two.
#[tactic(auto, unfolding(crate::specs::Images::image_rule))]
fn image_rule(schema: &Schema, from: &Scope, to: &Scope, part: &(Name, Raw)) -> Option<TermRefusal>
    ensures { result ≡ rule_of_image schema.now from.now to.now part.now }
{
    let sort = sort_of(from, &part.0);
    let sorts = to.sorts.as_slice();
    if is_unknown(schema, to, sort, &part.1) {
        Some(TermRefusal::Unknown)
    } else if has_wrong_count(schema, &part.1) {
        Some(TermRefusal::WrongCount)
    } else if !have_one_sort(sort_of_raw(schema, &to.names, sorts, &part.1), sort) {
        Some(TermRefusal::WrongSort)
    } else {
        late_rule(schema, &part.1)
    }
}

/// Adds the generator to which part `number` gives an image to the table of those that have one.
fn add_image(
    schema: &Schema,
    from: &Scope,
    to: &Scope,
    table: &mut Names,
    number: u32,
    part: &(Name, Raw),
) -> Result<(), TheoryRefusal>
    requires { length table.old < 2 ^ 32 - 1 }
    ensures ok { IfOk result (λ _. (image_fault schema.now from.now to.now table.old number part.now ≡ None)
        × (table.new ≡ table.old ++ part.now.0 ∷ [])) }
    ensures refused { IfErr result (λ refusal. (refusal ≡ TheoryRefusal.Memory)
        ⊎ (image_fault schema.now from.now to.now table.old number part.now ≡ Some refusal)) }
{
    declare(table, number, &part.0)?;
    match image_rule(schema, from, to, part) {
        Some(rule) => Err(in_part_of(number, rule)),
        None => Ok(()),
    }
}

/// The table of the generators that have an image.
fn add_images(
    alloc: Global,
    schema: &Schema,
    from: &Scope,
    to: &Scope,
    parts: &[(Name, Raw)],
) -> Result<Names, TheoryRefusal>
    requires { length parts.now < 2 ^ 32 }
    ensures accepted { IfOk result (λ _. parts_fault schema.now from.now to.now parts.now ≡ None) }
    ensures made { IfOk result (λ table. table ≡ given_by parts.now) }
    ensures refused { IfErr result (λ refusal. (refusal ≡ TheoryRefusal.Memory)
        ⊎ (parts_fault schema.now from.now to.now parts.now ≡ Some refusal)) }
{
    let mut table = Names::new(alloc);
    let mut number = 0;
    for part in parts {
        add_image(schema, from, to, &mut table, number, part)?;
        number += 1;
    }
    Ok(table)
}

fn missing(name: &Name) -> TransformRefusal
    ensures { (result ≡ TransformRefusal.Memory) ⊎ (result ≡ TransformRefusal.Missing name.now) }
{
    match name.clone() {
        Ok(name) => TransformRefusal::Missing(name),
        Err(_) => TransformRefusal::Memory,
    }
}

/// Adds the name of a generator to those of earlier ones, where it has an image: its name is given, and a name stands
/// for the first generator that has it.
fn add_given(given: &Names, earlier: &mut Names, name: &Name) -> Result<(), TransformRefusal>
    requires { length earlier.old < 2 ^ 32 - 1 }
    ensures accepted { IfOk result (λ _. (has_image given.now earlier.old name.now ≡ true)
        × (earlier.new ≡ earlier.old ++ name.now ∷ [])) }
    ensures refused { IfErr result (λ refusal. (refusal ≡ TransformRefusal.Memory)
        ⊎ ((has_image given.now earlier.old name.now ≡ false) × (refusal ≡ TransformRefusal.Missing name.now))) }
{
    if given.find(name).is_none() {
        return Err(missing(name));
    }
    if earlier.find(name).is_some() {
        return Err(missing(name));
    }
    match earlier.add(name.clone()?) {
        Ok(_) => Ok(()),
        Err(_) => Err(TransformRefusal::Memory),
    }
}

/// Whether each generator has an image. Otherwise the first one that hasn't.
fn check_given(
    alloc: Global,
    given: &Names,
    generators: &[(Name, Sort)],
) -> Result<(), TransformRefusal>
    requires { length generators.now ≤ 16000000 }
    ensures accepted { IfOk result (λ _. first_missing given.now [] (names_of generators.now) ≡ None) }
    ensures refused { IfErr result (λ refusal. (refusal ≡ TransformRefusal.Memory)
        ⊎ (first_missing given.now [] (names_of generators.now) ≡ Some refusal)) }
{
    let mut earlier = Names::new(alloc);
    for generator in generators {
        add_given(given, &mut earlier, &generator.0)?;
    }
    Ok(())
}

/// A term as an image.
fn image_of(term: Term) -> Image
    ensures { result ≡ image_of_term term }
{
    match term {
        Term::Ent(term) => Image::Row(term),
        Term::Typ(term) => Image::Value(term),
    }
}

/// The image that a raw term gives.
fn image_from(alloc: Global, schema: &Schema, to: &Firsts, raw: &Raw) -> Result<Image, AllocError>
    ensures { (H : Generators) → AreFirstsOf H to.now
        → IfOk result (λ made. made ≡ image_of_term (resolved schema.now (names_of H) (sorts_of H) raw.now)) }
{
    let term = build_over(alloc, schema, to, raw)?;
    Ok(image_of(term))
}

/// The image that a part gives, which is there where the parts break no rule.
pub fn image_in(
    alloc: Global,
    schema: &Schema,
    to: &Firsts,
    part: Option<&(Name, Raw)>,
) -> Result<Image, AllocError>
    ensures { (H : Generators) → AreFirstsOf H to.now
        → IfOk result (λ made. made ≡ image_by schema.now (scope_of H) (option_copied part.entry)) }
{
    match part {
        Some(part) => image_from(alloc, schema, to, &part.1),
        None => Ok(Image::Row(EntTerm {
            generator: 0,
            path: Path::empty(),
        })),
    }
}

/// The image of the generator with a name.
fn make_image(
    alloc: Global,
    schema: &Schema,
    to: &Firsts,
    given: &Names,
    parts: &[(Name, Raw)],
    name: &Name,
) -> Result<Image, AllocError>
    ensures { (H : Generators) → AreFirstsOf H to.now
        → IfOk result (λ made. made ≡ image_named schema.now (scope_of H) given.now parts.now name.now) }
{
    match given.find(name) {
        Some(place) => image_in(alloc, schema, to, parts.get(place as usize)),
        None => image_in(alloc, schema, to, None),
    }
}

/// The image of each generator.
fn make_images(
    alloc: Global,
    schema: &Schema,
    to: &Firsts,
    given: &Names,
    parts: &[(Name, Raw)],
    generators: &[(Name, Sort)],
) -> Result<Vec<Image>, AllocError>
    ensures { (H : Generators) → AreFirstsOf H to.now → IfOk result (λ made. made.items
        ≡ map (image_named schema.now (scope_of H) given.now parts.now) (names_of generators.now)) }
{
    let mut images = Vec::new(alloc);
    for generator in generators {
        images.push(make_image(alloc, schema, to, given, parts, &generator.0)?)?;
    }
    Ok(images)
}

/// The images that the parts give to these generators.
fn images_over(
    alloc: Global,
    schema: &Schema,
    from: &Firsts,
    to: &Firsts,
    generators: &[(Name, Sort)],
    parts: &[(Name, Raw)],
) -> Result<Vec<Image>, TransformRefusal>
    requires few { length generators.now ≤ 16000000 }
    requires parts { length parts.now < 2 ^ 32 }
    requires from { AreFirstsOf generators.now from.now }
    ensures accepted { (H : Generators) → AreFirstsOf H to.now
        → IfOk result (λ _. fault_over schema.now generators.now H parts.now ≡ None) }
    ensures made { (H : Generators) → AreFirstsOf H to.now
        → IfOk result (λ made. made.items ≡ made_over schema.now generators.now H parts.now) }
    ensures refused { (H : Generators) → AreFirstsOf H to.now
        → IfErr result (λ refusal. (refusal ≡ TransformRefusal.Memory)
        ⊎ (fault_over schema.now generators.now H parts.now ≡ Some refusal)) }
{
    let given = match add_images(alloc, schema, &from.scope, &to.scope, parts) {
        Ok(given) => given,
        Err(refusal) => return Err(of_transform(refusal)),
    };
    check_given(alloc, &given, generators)?;
    let images = make_images(alloc, schema, to, &given, parts, generators)?;
    Ok(images)
}

/// The images that the parts give to the generators of one presentation over those of another. Of generators with one
/// name, the name stands for the first, so that there are none where two of the former have one.
pub(crate) fn images(
    alloc: Global,
    schema: &Schema,
    generators: &[(Name, Sort)],
    others: &[(Name, Sort)],
    parts: &[(Name, Raw)],
) -> Result<Vec<Image>, TransformRefusal>
    requires few { length generators.now ≤ 16000000 }
    requires few_others { length others.now ≤ 16000000 }
    requires parts { length parts.now < 2 ^ 32 }
    ensures accepted { IfOk result (λ _. fault_over schema.now generators.now others.now parts.now ≡ None) }
    ensures made { IfOk result (λ made. made.items ≡ made_over schema.now generators.now others.now parts.now) }
    ensures refused { IfErr result (λ refusal. (refusal ≡ TransformRefusal.Memory)
        ⊎ (fault_over schema.now generators.now others.now parts.now ≡ Some refusal)) }
{
    let from = firsts_of(alloc, generators)?;
    let to = firsts_of(alloc, others)?;
    images_over(alloc, schema, &from, &to, generators, parts)
}
