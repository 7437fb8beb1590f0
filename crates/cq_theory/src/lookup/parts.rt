//! The parts of a presentation.
ghost use Rattle.std.specs.Prelude.{◌≡◌, ◌-◌, ◌<◌, ◌^◌, ◌⊎◌, ◌++◌, ◌∷◌, [], IfOk, IfErr, Some, None, length};
ghost use Rattle.std.specs.Prelude.{◌+◌, map, option_map, is_some, IfSome, take};
ghost use Rattle.cq_base.specs.Names.{AreDistinct};
ghost use Rattle.cq_theory.specs.Presentation.{IsPresentation};
ghost use Rattle.cq_theory.specs.Resolve.{sort_named, first_fault, equation_fault, are_of_one_sort, in_part};
ghost use Rattle.cq_theory.specs.Resolved.{resolved};
ghost use Rattle.cq_theory.specs.Parts.{presentation_fault, presented, equation_of, sort_or_first, generator_fault};
ghost use Rattle.cq_theory.specs.Parts.{first_generator_fault, generator_names, generator_sorts};

use crate::lookup::builds::make_equation;
use crate::lookup::faults::{have_one_sort, in_part_of, sorted_sides_rule, unsorted_sides_rule};
use crate::lookup::typed::typed_term;
use crate::parts::PresentationParts;
use crate::presentation::{Equation, MOST_GENERATORS, Presentation, Sort};
use crate::refusal::{TermRefusal, TheoryRefusal};
use crate::schema::Schema;
use crate::term::Term;
use cq_base::{Name, Names, Raw, Seq};
use std::alloc::{AllocError, Global};

/// Adds the name of generator `part` to the names, and gives its sort.
fn add_generator(
    schema: &Schema,
    names: &mut Names,
    part: u32,
    name: &Name,
    sort: &Name,
) -> Result<Sort, TheoryRefusal>
    requires { length names.old < 2 ^ 32 - 1 }
    ensures ok { IfOk result (λ found. (generator_fault schema.now names.old part (name.now, sort.now) ≡ None)
        × (names.new ≡ names.old ++ name.now ∷ []) × (sort_named schema.now sort.now ≡ Some found)) }
    ensures refused { IfErr result (λ refusal. (refusal ≡ TheoryRefusal.Memory)
        ⊎ (generator_fault schema.now names.old part (name.now, sort.now) ≡ Some refusal)) }
{
    if names.find(name).is_some() {
        return Err(TheoryRefusal::Duplicate(part));
    }
    let Some(found) = schema.find_sort(sort) else {
        return Err(TheoryRefusal::Unknown(part));
    };
    if part >= MOST_GENERATORS {
        return Err(TheoryRefusal::TooLarge(part));
    }
    let name = name.clone()?;
    match names.add(name) {
        Ok(_) => Ok(found),
        Err(_) => Err(TheoryRefusal::Memory),
    }
}

/// The names and the sorts of the generators.
pub(crate) fn add_generators(
    alloc: Global,
    schema: &Schema,
    parts: &[(Name, Name)],
) -> Result<(Names, Vec<Sort>), TheoryRefusal>
    requires { length parts.now < 2 ^ 32 }
    ensures accepted { IfOk result (λ _. first_generator_fault schema.now [] 0 parts.now ≡ None) }
    ensures made { IfOk result (λ made. (made.0 ≡ generator_names parts.now)
        × (made.1.items ≡ generator_sorts schema.now parts.now)) }
    ensures refused { IfErr result (λ refusal. (refusal ≡ TheoryRefusal.Memory)
        ⊎ (first_generator_fault schema.now [] 0 parts.now ≡ Some refusal)) }
{
    let mut names = Names::new(alloc);
    let mut sorts = Vec::with_capacity(alloc, parts.len())?;
    let mut part = 0;
    for generator in parts {
        let sort = add_generator(schema, &mut names, part, &generator.0, &generator.1)?;
        sorts.push(sort)?;
        part += 1;
    }
    Ok((names, sorts))
}

impl Presentation {
    /// The presentation that the parts give. Where parts break rules, the answer is the first such part with the
    /// least rule that it breaks, or want of memory.
    pub fn new(
        alloc: Global,
        schema: &Schema,
        parts: PresentationParts,
    ) -> Result<Presentation, TheoryRefusal>
        requires { length parts.generators + length parts.equations < 2 ^ 32 }
        ensures accepted { IfOk result (λ _. presentation_fault schema.now parts.generators parts.equations ≡ None) }
        ensures made { IfOk result (λ made. made ≡ presented schema.now parts.generators parts.equations) }
        ensures presentation { IfOk result (λ made. IsPresentation schema.now made) }
        ensures distinct { IfOk result (λ made. AreDistinct (map (λ generator. generator.0) made.generators)) }
        ensures refused { IfErr result (λ refusal. (refusal ≡ TheoryRefusal.Memory)
            ⊎ (presentation_fault schema.now parts.generators parts.equations ≡ Some refusal)) }
    {
        let PresentationParts {
            generators,
            equations,
        } = parts;
        let equations = equations.into_vec();
        let generators = generators.as_slice();
        let (names, sorts) = add_generators(alloc, schema, generators)?;
        let sorts = sorts.as_slice();
        let made = build_presentation(alloc, schema, &names, sorts, generators, equations)?;
        Ok(made)
    }
}

/// The presentation of the parts, of whose generators none breaks a rule.
fn build_presentation(
    alloc: Global,
    schema: &Schema,
    names: &Names,
    sorts: &[Sort],
    generators: &[(Name, Name)],
    equations: Vec<(Raw, Raw)>,
) -> Result<Presentation, TheoryRefusal>
    requires generators { first_generator_fault schema.now [] 0 generators.now ≡ None }
    requires names { names.now ≡ generator_names generators.now }
    requires sorts { sorts.now ≡ generator_sorts schema.now generators.now }
    requires parts { length generators.now + length equations.items < 2 ^ 32 }
    ensures accepted { IfOk result (λ _. presentation_fault schema.now generators.now equations.items ≡ None) }
    ensures made { IfOk result (λ made. made ≡ presented schema.now generators.now equations.items) }
    ensures refused { IfErr result (λ refusal. (refusal ≡ TheoryRefusal.Memory)
        ⊎ (presentation_fault schema.now generators.now equations.items ≡ Some refusal)) }
{
    let first = generators.len() as u32;
    let equations = resolve_equations(alloc, schema, names, sorts, equations, first)?;
    let generators = build_generators(alloc, schema, generators)?;
    Ok(Presentation {
        generators: Seq::from_vec(generators),
        equations: Seq::from_vec(equations),
    })
}

fn first_sort(sort: Option<Sort>) -> Sort
    ensures { result ≡ sort_or_first sort }
{
    match sort {
        Some(sort) => sort,
        None => Sort::Plain(0),
    }
}

fn build_generators(
    alloc: Global,
    schema: &Schema,
    generators: &[(Name, Name)],
) -> Result<Vec<(Name, Sort)>, AllocError>
    ensures { IfOk result (λ made. made.items ≡ map (λ part. (part.0, sort_or_first (sort_named schema.now part.1)))
        generators.now) }
{
    let mut made = Vec::with_capacity(alloc, generators.len())?;
    for generator in generators {
        let name = generator.0.clone()?;
        made.push((name, first_sort(schema.find_sort(&generator.1))))?;
    }
    Ok(made)
}

/// The terms, where both are there and are of one sort.
fn terms_of_one_sort(
    left: Option<(Term, Sort)>,
    right: Option<(Term, Sort)>,
) -> Option<(Term, Term)>
    ensures same { is_some result ≡ are_of_one_sort (option_map (λ t. t.1) left) (option_map (λ t. t.1) right) }
    ensures terms { IfSome result (λ terms. (option_map (λ t. t.0) left ≡ Some terms.0)
        × (option_map (λ t. t.0) right ≡ Some terms.1)) }
{
    let (left, left_sort) = left?;
    let (right, right_sort) = right?;
    if have_one_sort(Some(left_sort), Some(right_sort)) {
        Some((left, right))
    } else {
        None
    }
}

/// The equation, each of whose sides is walked once, or the least rule that it breaks.
fn resolve_equation(
    alloc: Global,
    schema: &Schema,
    names: &Names,
    sorts: &[Sort],
    left: &Raw,
    right: &Raw,
) -> Result<Equation, TermRefusal>
    ensures accepted { IfOk result (λ _. equation_fault schema.now names.now sorts.now (left.now, right.now) ≡ None) }
    ensures made { IfOk result (λ made. made ≡ equation_of (resolved schema.now names.now sorts.now left.now)
        (resolved schema.now names.now sorts.now right.now)) }
    ensures refused { IfErr result (λ rule. (rule ≡ TermRefusal.Memory)
        ⊎ (equation_fault schema.now names.now sorts.now (left.now, right.now) ≡ Some rule)) }
{
    let left_made = typed_term(alloc, schema, names, sorts, left)?;
    let right_made = typed_term(alloc, schema, names, sorts, right)?;
    let Some((left_term, right_term)) = terms_of_one_sort(left_made, right_made) else {
        return Err(unsorted_sides_rule(schema, names, left, right));
    };
    match sorted_sides_rule(schema, left, right) {
        Some(rule) => Err(rule),
        None => Ok(make_equation(left_term, right_term)),
    }
}

/// The equation that part `part` of the call gives.
fn resolve_part(
    alloc: Global,
    schema: &Schema,
    names: &Names,
    sorts: &[Sort],
    part: u32,
    written: &(Raw, Raw),
) -> Result<Equation, TheoryRefusal>
    ensures accepted { IfOk result (λ _. equation_fault schema.now names.now sorts.now written.now ≡ None) }
    ensures made { IfOk result (λ made. made ≡ equation_of (resolved schema.now names.now sorts.now written.now.0)
        (resolved schema.now names.now sorts.now written.now.1)) }
    ensures refused { IfErr result (λ refusal. (refusal ≡ TheoryRefusal.Memory)
        ⊎ (option_map (in_part part) (equation_fault schema.now names.now sorts.now written.now) ≡ Some refusal)) }
{
    match resolve_equation(alloc, schema, names, sorts, &written.0, &written.1) {
        Ok(equation) => Ok(equation),
        Err(rule) => Err(in_part_of(part, rule)),
    }
}

/// The equations, or the first, counted from `first`, that breaks a rule, with the least rule that it breaks. What was
/// written is given back as it is read, so that it doesn't stand beside all that is made of it.
fn resolve_equations(
    alloc: Global,
    schema: &Schema,
    names: &Names,
    sorts: &[Sort],
    equations: Vec<(Raw, Raw)>,
    first: u32,
) -> Result<Vec<Equation>, TheoryRefusal>
    requires { first + length equations.items < 2 ^ 32 }
    ensures accepted { IfOk result (λ _. first_fault (equation_fault schema.now names.now sorts.now) first
        equations.items ≡ None) }
    ensures made { IfOk result (λ made. made.items ≡ map
        (λ e. equation_of (resolved schema.now names.now sorts.now e.0) (resolved schema.now names.now sorts.now e.1))
        equations.items) }
    ensures refused { IfErr result (λ refusal. (refusal ≡ TheoryRefusal.Memory)
        ⊎ (first_fault (equation_fault schema.now names.now sorts.now) first equations.items ≡ Some refusal)) }
{
    let mut made = Vec::with_capacity(alloc, equations.len())?;
    let mut part = first;
    let mut waiting = equations;
    waiting.reverse();
    'waiting: while let Some(written) = waiting.last() {
        let equation = resolve_part(alloc, schema, names, sorts, part, written)?;
        made.push(equation)?;
        part += 1;
        give_back_last(&mut waiting);
    }
    Ok(made)
}

/// How many items leave a list before its memory is given back.
const GIVEN_BACK: usize = 4096;

/// Gives back the last item of a list, and each time that some thousand items have left it what it no longer needs.
fn give_back_last<T: Drop>(waiting: &mut Vec<T>)
    ensures { waiting.new.items ≡ take (length waiting.old.items - 1) waiting.old.items }
{
    waiting.pop();
    if waiting.len() % GIVEN_BACK == 0 {
        waiting.shrink_to_fit();
    }
}
