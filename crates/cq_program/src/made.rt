//! What presentations stand for that are made of others, and what models and refusals have in common.
ghost use Rattle.std.specs.Prelude.{ℕ, ◌≡◌, true, Err, IfOk, IfErr};
ghost use Rattle.cq_model.specs.declared.refusal.MoveRefusal.TheVariants.{Inconsistent as Clashing};
ghost use Rattle.cq_theory.specs.declared.constant.Con.{Con};
ghost use Rattle.cq_theory.specs.declared.presentation.Presentation.{Presentation};
ghost use Rattle.cq_theory.specs.SchemaData.{SchemaData};
ghost use Rattle.cq_theory.specs.ValueText.{is_named_con, value_text as text_of};
ghost use Rattle.cq_program.specs.Posed.{a_made};
ghost use Rattle.cq_environment.specs.Environment.{IsModelled, IsTermModel, meant};
ghost use Rattle.cq_program.specs.Judging.{IsAnswerOf, TellsUnmade, TellsConstants};
ghost use Rattle.cq_program.specs.Program.{Stands};
ghost use Rattle.cq_theory.specs.declared.value.Value.TheVariants.{Const};
ghost use Rattle.cq_environment.specs.Meanings.{instance};

use cq_base::{Name, Place, Seq};
use cq_environment::{Meaning, ProgramRefusal, Reason};
use cq_model::{Instance, MoveRefusal};
use cq_theory::value_text::value_text;
use cq_theory::{Con, Typeside, Value};
use std::alloc::{AllocError, Global};
use std::rc::Rc;

/// What a presentation stands for that is made of others, by the answer of the call that makes its listed model.
pub fn mean_model(
    alloc: Global,
    place: Place,
    name: Name,
    typeside: &Typeside,
    answer: Result<Instance, MoveRefusal>,
) -> Result<Meaning, ProgramRefusal>
    requires named { (c d : Con) → answer ≡ Err (Clashing c d) → (is_named_con typeside.now c ≡ true)
        × (is_named_con typeside.now d ≡ true) }
    requires modelled { IfOk answer IsTermModel }
    ensures stands { (S : SchemaData) (P : Presentation) (depth : ℕ) → IsAnswerOf S P depth answer
        → IfOk result (λ meaning. Stands (a_made name S P) (meant meaning)) }
    ensures modelled { IfOk result (λ meaning. IsModelled (meant meaning)) }
    ensures refused { (S : SchemaData) (P : Presentation) (depth : ℕ) → typeside.now ≡ S.typeside
        → IsAnswerOf S P depth answer → IfErr result (TellsUnmade depth place (a_made name S P)) }
{
    match answer {
        Ok(instance) => Ok(share_instance(alloc, name, instance)?),
        Err(MoveRefusal::Depth) => Err(ProgramRefusal::Broken(place, Reason::Depth)),
        Err(MoveRefusal::TooManyRows) => Err(ProgramRefusal::Broken(place, Reason::TooManyRows)),
        Err(MoveRefusal::Inconsistent(least, greater)) => {
            Err(tell_clash(alloc, place, typeside, least, greater))
        }
        Err(MoveRefusal::TooLarge) => Err(ProgramRefusal::Broken(place, Reason::Oversized)),
        Err(MoveRefusal::Memory) => Err(ProgramRefusal::Memory),
    }
}

/// The refusal that two constants are equal.
pub fn tell_clash(
    alloc: Global,
    place: Place,
    typeside: &Typeside,
    least: Con,
    greater: Con,
) -> ProgramRefusal
    requires least { is_named_con typeside.now least ≡ true }
    requires greater { is_named_con typeside.now greater ≡ true }
    ensures { TellsConstants place (text_of typeside.now (Const least)) (text_of typeside.now (Const greater)) result }
{
    match write_constants(alloc, typeside, least, greater) {
        Ok((first, second)) => ProgramRefusal::Broken(place, Reason::Inconsistent(first, second)),
        Err(_) => ProgramRefusal::Memory,
    }
}

/// The texts of two constants.
fn write_constants(
    alloc: Global,
    typeside: &Typeside,
    least: Con,
    greater: Con,
) -> Result<(Seq<u8>, Seq<u8>), AllocError>
    requires least { is_named_con typeside.now least ≡ true }
    requires greater { is_named_con typeside.now greater ≡ true }
    ensures { IfOk result (λ texts. texts ≡ (
      text_of typeside.now (Const least),
      text_of typeside.now (Const greater),
    )) }
{
    let first = write_constant(alloc, typeside, least)?;
    let second = write_constant(alloc, typeside, greater)?;
    Ok((first, second))
}

/// The text of a constant.
fn write_constant(alloc: Global, typeside: &Typeside, constant: Con) -> Result<Seq<u8>, AllocError>
    requires { is_named_con typeside.now constant ≡ true }
    ensures { IfOk result (λ text. text ≡ text_of typeside.now (Const constant)) }
{
    let text = value_text(alloc, typeside, &Value::Const(constant))?;
    Ok(Seq::from_vec(text))
}

/// An instance that is the term model of its presentation stands for itself.
pub fn share_instance(alloc: Global, name: Name, model: Instance) -> Result<Meaning, AllocError>
    requires { IsTermModel model }
    ensures stands { IfOk result (λ meaning. meant meaning ≡ instance name model) }
    ensures modelled { IfOk result (λ meaning. IsModelled (meant meaning)) }
{
    let shared = Rc::new(alloc, model)?;
    Ok(Meaning::Instance(name, shared))
}

/// The typeside of an instance.
pub fn typeside_of(instance: &Instance) -> &Typeside
    ensures { result.now ≡ instance.now.schema.typeside }
{
    &instance.schema().typeside
}
