//! Lists of steps that lists of numbers spell.
ghost use Rattle.std.specs.Prelude.{◌≡◌, ◌∷◌, [], IfOk};
ghost use Rattle.cq_theory.specs.EntTerm.{extended};
ghost use Rattle.cq_proof.specs.Drafts.{text_of, word as word_of, numbered_rule as rule_numbered};
ghost use Rattle.cq_proof.specs.Drafts.{generator_term as generator};
ghost use Rattle.cq_proof.specs.Drafts.{blank, seen, obeyed as made_obeyed, spelled as spelled_by};
ghost use Rattle.cq_proof.specs.Drafts.{with_generator, with_key, with_type_generator, with_constant, with_text};
ghost use Rattle.cq_proof.specs.Drafts.{with_attribute, with_function, with_byte, with_argument, with_premise};
ghost use Rattle.cq_proof.specs.Drafts.{with_entity_equation, with_type_equation, with_step};
ghost use Rattle.cq_proof.specs.Drafts.{top_entity, top_type, top_equation, under};

use crate::stack::{put, taken};
use cq_base::{Name, NameRefusal, Seq};
use cq_steps::{Rule, Step};
use cq_theory::{Con, EntTerm, Equation, Path, TypeTerm};
use std::alloc::{AllocError, Global};
use std::mem::replace;

/// A list of steps so far, and what the next ones are made of.
#[derive(Drop)]
pub struct Draft {
    entities: Vec<EntTerm>,
    types: Vec<TypeTerm>,
    args: Vec<TypeTerm>,
    text: Vec<u8>,
    equations: Vec<Equation>,
    from: Vec<u64>,
    steps: Vec<Step>,
}

/// The lowest 32 bits.
fn word(number: u64) -> u32
    ensures { result ≡ word_of number }
{
    (number % 4294967296) as u32
}

/// The generator of this number.
fn generator_term(number: u32) -> EntTerm
    ensures { result ≡ generator number }
{
    EntTerm {
        generator: number,
        path: Path::empty(),
    }
}

/// The text of the bytes, or the empty one where it is longer than a name.
fn name_of(alloc: Global, bytes: &[u8]) -> Result<Name, AllocError>
    ensures { IfOk result (λ name. name ≡ text_of bytes.now) }
{
    let text = String::from_utf8_lossy(alloc, bytes)?;
    match Name::new(alloc, text.as_str()) {
        Ok(name) => Ok(name),
        Err(NameRefusal::Long) => Name::empty(alloc),
        Err(NameRefusal::Memory) => Err(AllocError),
    }
}

/// The term with one more key.
fn followed(alloc: Global, term: &EntTerm, key: u32) -> Result<EntTerm, AllocError>
    ensures { IfOk result (λ made. made ≡ extended term.now (key ∷ [])) }
{
    Ok(EntTerm {
        generator: term.generator,
        path: term.path.followed_by(alloc, &[key])?,
    })
}

/// The rule of a number, at a term.
fn numbered_rule(kind: u64, number: u64, at: EntTerm) -> Rule
    ensures { result ≡ rule_numbered kind number at }
{
    match kind {
        0 => Rule::Reflexivity,
        1 => Rule::Symmetry,
        2 => Rule::Transitivity,
        3 => Rule::Key(word(number)),
        4 => Rule::Attribute(word(number)),
        5 => Rule::Function(word(number)),
        6 => Rule::Given(number),
        7 => Rule::Path(word(number), at),
        _ => Rule::Obs(word(number), at),
    }
}

impl Draft {
    /// The draft of an empty list.
    fn new(alloc: Global) -> Draft
        ensures { seen result ≡ blank }
    {
        Draft {
            entities: Vec::new(alloc),
            types: Vec::new(alloc),
            args: Vec::new(alloc),
            text: Vec::new(alloc),
            equations: Vec::new(alloc),
            from: Vec::new(alloc),
            steps: Vec::new(alloc),
        }
    }

    fn taken_entity(&mut self) -> EntTerm
        ensures term { result ≡ top_entity (seen self.old).entities }
        ensures draft { seen self.new ≡ record (seen self.old) { entities = under (seen self.old).entities } }
    {
        taken(&mut self.entities, generator_term(0))
    }

    fn taken_type(&mut self) -> TypeTerm
        ensures term { result ≡ top_type (seen self.old).types }
        ensures draft { seen self.new ≡ record (seen self.old) { types = under (seen self.old).types } }
    {
        taken(&mut self.types, TypeTerm::Gen(0))
    }

    fn taken_equation(&mut self) -> Equation
        ensures equation { result ≡ top_equation (seen self.old).equations }
        ensures draft { seen self.new ≡ record (seen self.old) { equations = under (seen self.old).equations } }
    {
        let first = generator_term(0);
        let second = generator_term(0);
        taken(&mut self.equations, Equation::Ent(first, second))
    }

    /// A term of an entity: a generator.
    fn add_generator(&mut self, number: u64) -> Result<(), AllocError>
        ensures { IfOk result (λ _. seen self.new ≡ with_generator number (seen self.old)) }
    {
        put(&mut self.entities, generator_term(word(number)))
    }

    /// One more key of the last term of an entity.
    fn add_key(&mut self, alloc: Global, number: u64) -> Result<(), AllocError>
        ensures { IfOk result (λ _. seen self.new ≡ with_key number (seen self.old)) }
    {
        let term = self.taken_entity();
        let longer = followed(alloc, &term, word(number))?;
        put(&mut self.entities, longer)
    }

    /// A term of a type: a generator.
    fn add_type_generator(&mut self, number: u64) -> Result<(), AllocError>
        ensures { IfOk result (λ _. seen self.new ≡ with_type_generator number (seen self.old)) }
    {
        put(&mut self.types, TypeTerm::Gen(word(number)))
    }

    /// A declared constant.
    fn add_constant(&mut self, number: u64) -> Result<(), AllocError>
        ensures { IfOk result (λ _. seen self.new ≡ with_constant number (seen self.old)) }
    {
        put(&mut self.types, TypeTerm::Const(Con::Named(word(number))))
    }

    /// A constant of the open type.
    fn add_text(&mut self, alloc: Global) -> Result<(), AllocError>
        ensures { IfOk result (λ _. seen self.new ≡ with_text 0 (seen self.old)) }
    {
        let name = name_of(alloc, self.text.as_slice())?;
        self.text = Vec::new(alloc);
        put(&mut self.types, TypeTerm::Const(Con::Open(name)))
    }

    /// An attribute of the last term of an entity.
    fn add_attribute(&mut self, number: u64) -> Result<(), AllocError>
        ensures { IfOk result (λ _. seen self.new ≡ with_attribute number (seen self.old)) }
    {
        let term = self.taken_entity();
        put(&mut self.types, TypeTerm::Att(word(number), term))
    }

    /// A function of the arguments.
    fn add_function(&mut self, alloc: Global, number: u64) -> Result<(), AllocError>
        ensures { IfOk result (λ _. seen self.new ≡ with_function number (seen self.old)) }
    {
        let args = replace(&mut self.args, Vec::new(alloc));
        put(
            &mut self.types,
            TypeTerm::Fun(word(number), Seq::from_vec(args)),
        )
    }

    /// One more byte of the text.
    fn add_byte(&mut self, number: u64) -> Result<(), AllocError>
        ensures { IfOk result (λ _. seen self.new ≡ with_byte number (seen self.old)) }
    {
        self.text.push((number % 256) as u8)?;
        Ok(())
    }

    /// One more argument: the last term of a type.
    fn add_argument(&mut self) -> Result<(), AllocError>
        ensures { IfOk result (λ _. seen self.new ≡ with_argument 0 (seen self.old)) }
    {
        let term = self.taken_type();
        self.args.push(term)?;
        Ok(())
    }

    /// One more premise.
    fn add_premise(&mut self, number: u64) -> Result<(), AllocError>
        ensures { IfOk result (λ _. seen self.new ≡ with_premise number (seen self.old)) }
    {
        self.from.push(number)?;
        Ok(())
    }

    /// An equation of the last two terms of entities.
    fn add_entity_equation(&mut self) -> Result<(), AllocError>
        ensures { IfOk result (λ _. seen self.new ≡ with_entity_equation 0 (seen self.old)) }
    {
        let right = self.taken_entity();
        let left = self.taken_entity();
        put(&mut self.equations, Equation::Ent(left, right))
    }

    /// An equation of the last two terms of types.
    fn add_type_equation(&mut self) -> Result<(), AllocError>
        ensures { IfOk result (λ _. seen self.new ≡ with_type_equation 0 (seen self.old)) }
    {
        let right = self.taken_type();
        let left = self.taken_type();
        put(&mut self.equations, Equation::Typ(left, right))
    }

    /// One more step.
    fn add_step(&mut self, alloc: Global, number: u64) -> Result<(), AllocError>
        ensures { IfOk result (λ _. seen self.new ≡ with_step number (seen self.old)) }
    {
        let at = self.taken_entity();
        let equation = self.taken_equation();
        let from = replace(&mut self.from, Vec::new(alloc));
        self.steps.push(Step {
            rule: numbered_rule(number % 16, number / 16, at),
            from: Seq::from_vec(from),
            equation,
        })?;
        Ok(())
    }

    /// What the number instructs.
    fn obey(&mut self, alloc: Global, number: u64) -> Result<(), AllocError>
        ensures { IfOk result (λ _. seen self.new ≡ made_obeyed number (seen self.old)) }
    {
        let operand = number / 16;
        match number % 16 {
            0 => self.add_generator(operand),
            1 => self.add_key(alloc, operand),
            2 => self.add_type_generator(operand),
            3 => self.add_constant(operand),
            4 => self.add_text(alloc),
            5 => self.add_attribute(operand),
            6 => self.add_function(alloc, operand),
            7 => self.add_byte(operand),
            8 => self.add_argument(),
            9 => self.add_premise(operand),
            10 => self.add_entity_equation(),
            11 => self.add_type_equation(),
            _ => self.add_step(alloc, operand),
        }
    }
}

/// The list of steps that the numbers spell.
pub(crate) fn spelled(alloc: Global, numbers: &[u64]) -> Result<Vec<Step>, AllocError>
    ensures { IfOk result (λ steps. steps.items ≡ spelled_by numbers.now) }
{
    let mut draft = Draft::new(alloc);
    for number in numbers {
        draft.obey(alloc, *number)?;
    }
    Ok(draft.steps)
}
