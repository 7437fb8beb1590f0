//! The text that explains whether an equation holds in an instance.
ghost use Rattle.std.specs.Prelude.{◌≡◌, IfOk, MatchResult};
ghost use Rattle.cq_theory.specs.declared.presentation.Equation.{Equation};
ghost use Rattle.cq_proof.specs.Answers.{IsInitial, IsWellSorted};
ghost use Rattle.cq_explain.specs.Explained.{Explains, IsExplanation};
ghost use Rattle.cq_explain.specs.Question.{Asks};
ghost use Rattle.cq_explain.specs.declared.refusal.QuestionRefusal.{QuestionRefusal};

use crate::lines::{different_text, equal_text};
use crate::question::question;
use crate::refusal::QuestionRefusal;
use cq_instance::Instance;
use cq_proof::{Answer, explain};
use cq_theory::Equation;
use std::alloc::{AllocError, Global};

/// The text that explains whether the equation which two texts ask about holds in an instance: `equal N` and the N
/// steps of a derivation, each in a line, where the equation is derivable from the instance's presentation, and else
/// `different V W`, with the rows of the two sides by their numbers from 1, or the texts of their values.
///
/// `BadTerm` is answered exactly where the two texts ask about no equation over the presentation: where one is over
/// 8 MiB, or isn't one term of at most 64 levels, or where the two terms break a rule of `Presentation::new` as the
/// sides of an equation.
pub fn explanation(
    alloc: Global,
    instance: &Instance,
    left: &[u8],
    right: &[u8],
) -> Result<Vec<u8>, QuestionRefusal>
    requires { IsInitial instance.now }
    ensures explained { IfOk result (λ text. Explains instance.now left.now right.now text.items) }
    ensures only { (equation : Equation)
        → Asks instance.now.schema instance.now.presentation left.now right.now equation
        → MatchResult result (λ text. IsExplanation instance.now equation text.items)
        (λ refusal. refusal ≡ QuestionRefusal.Memory) }
{
    let schema = instance.schema();
    let presentation = instance.presentation();
    let equation = question(alloc, schema, presentation, left, right)?;
    match explained(alloc, instance, &equation) {
        Ok(text) => Ok(text),
        Err(_) => Err(QuestionRefusal::Memory),
    }
}

/// The text that explains whether an equation holds.
fn explained(alloc: Global, instance: &Instance, equation: &Equation) -> Result<Vec<u8>, AllocError>
    requires initial { IsInitial instance.now }
    requires equation { IsWellSorted instance.now.schema instance.now.presentation equation.now }
    ensures { IfOk result (λ text. IsExplanation instance.now equation.now text.items) }
{
    match explain(alloc, instance, equation)? {
        Answer::Steps(steps) => {
            equal_text(
                alloc,
                instance.schema(),
                instance.presentation(),
                steps.as_slice(),
            )
        }
        Answer::Different => different_text(alloc, instance, equation),
    }
}
