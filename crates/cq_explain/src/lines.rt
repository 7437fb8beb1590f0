//! The lines of an explanation.
ghost use Rattle.std.specs.Prelude.{◌≡◌, ◌++◌, codes, IfOk, OnOk};
ghost use Rattle.std.specs.List.{flat_map};
ghost use Rattle.cq_theory.specs.declared.term.Term.TheVariants.{Ent, Typ};
ghost use Rattle.cq_theory.specs.Derivation.{left_of, right_of};
ghost use Rattle.cq_theory.specs.Sorts.{IsGround};
ghost use Rattle.cq_proof.specs.Answers.{IsInitial, IsWellSorted};
ghost use Rattle.cq_explain.specs.Explanation.{different_text, ent_text, equal_text, ordinal, premise_text, rule_text};
ghost use Rattle.cq_explain.specs.Explanation.{shown_term, step_line, step_lines};

use crate::terms::{push_entity_term, push_equation};
use crate::words::{push_edge, push_function, push_ordinal};
use cq_instance::Instance;
use cq_steps::{Rule, Step};
use cq_text::push_number;
use cq_theory::value_text::push_value;
use cq_theory::{EntTerm, Equation, Presentation, Schema, TypeTerm};
use std::alloc::{AllocError, Global};

/// Appends the number of an equation, and the term that is put in its variable's place.
fn push_instance_of(
    schema: &Schema,
    presentation: &Presentation,
    number: u32,
    at: &EntTerm,
    text: &mut Vec<u8>,
) -> Result<(), AllocError>
    ensures { OnOk result (text.new.items ≡ text.old.items ++ ordinal number ++ codes " "
        ++ ent_text schema.now presentation.now at.now) }
{
    push_ordinal(u64::from(number), text)?;
    text.extend_from_slice(b" ")?;
    push_entity_term(schema, presentation, at, text)?;
    Ok(())
}

/// Appends the word of a rule, and what it uses: a name, or the number of an equation, with the term that is put in its
/// variable's place.
fn push_rule(
    schema: &Schema,
    presentation: &Presentation,
    rule: &Rule,
    text: &mut Vec<u8>,
) -> Result<(), AllocError>
    ensures { OnOk result (text.new.items ≡ text.old.items ++ rule_text schema.now presentation.now rule.now) }
{
    match rule {
        Rule::Reflexivity => text.extend_from_slice(b"refl")?,
        Rule::Symmetry => text.extend_from_slice(b"sym")?,
        Rule::Transitivity => text.extend_from_slice(b"trans")?,
        Rule::Key(key) => {
            text.extend_from_slice(b"key ")?;
            push_edge(schema.keys.as_slice(), *key, text)?;
        }
        Rule::Attribute(attribute) => {
            text.extend_from_slice(b"att ")?;
            push_edge(schema.attributes.as_slice(), *attribute, text)?;
        }
        Rule::Function(function) => {
            text.extend_from_slice(b"fun ")?;
            push_function(&schema.typeside, *function, text)?;
        }
        Rule::Given(number) => {
            text.extend_from_slice(b"given ")?;
            push_ordinal(*number, text)?;
        }
        Rule::Path(number, at) => {
            text.extend_from_slice(b"path ")?;
            push_instance_of(schema, presentation, *number, at, text)?;
        }
        Rule::Obs(number, at) => {
            text.extend_from_slice(b"obs ")?;
            push_instance_of(schema, presentation, *number, at, text)?;
        }
    }
    Ok(())
}

/// Appends a blank and the number of an earlier step, for each premise.
fn push_premises(from: &[u64], text: &mut Vec<u8>) -> Result<(), AllocError>
    ensures { OnOk result (text.new.items ≡ text.old.items ++ flat_map premise_text from.now) }
{
    for number in from {
        push_premise(*number, text)?;
    }
    Ok(())
}

fn push_premise(number: u64, text: &mut Vec<u8>) -> Result<(), AllocError>
    ensures { OnOk result (text.new.items ≡ text.old.items ++ premise_text number) }
{
    text.extend_from_slice(b" ")?;
    push_ordinal(number, text)?;
    Ok(())
}

/// Appends the line of a step, which has this number, from 0: its number, its rule, the numbers of its premises, and
/// its equation.
fn push_step(
    schema: &Schema,
    presentation: &Presentation,
    number: u64,
    step: &Step,
    text: &mut Vec<u8>,
) -> Result<(), AllocError>
    ensures { OnOk result (text.new.items ≡ text.old.items
        ++ step_line schema.now presentation.now (number, step.now)) }
{
    push_ordinal(number, text)?;
    text.extend_from_slice(b" ")?;
    push_rule(schema, presentation, &step.rule, text)?;
    push_premises(step.from.as_slice(), text)?;
    text.extend_from_slice(b": ")?;
    push_equation(schema, presentation, &step.equation, text)?;
    text.extend_from_slice(b"\n")?;
    Ok(())
}

/// Appends a line for each step.
fn push_steps(
    schema: &Schema,
    presentation: &Presentation,
    steps: &[Step],
    text: &mut Vec<u8>,
) -> Result<(), AllocError>
    ensures { OnOk result (text.new.items ≡ text.old.items ++ step_lines schema.now presentation.now steps.now) }
{
    for (number, step) in steps.iter().enumerate() {
        push_step(schema, presentation, number as u64, step, text)?;
    }
    Ok(())
}

/// How many steps a derivation has, and a line for each.
#[tactic(auto, unfolding(crate::specs::Explanation::equal_text))]
pub fn equal_text(
    alloc: Global,
    schema: &Schema,
    presentation: &Presentation,
    steps: &[Step],
) -> Result<Vec<u8>, AllocError>
    ensures { IfOk result (λ text. text.items ≡ equal_text schema.now presentation.now steps.now) }
{
    let mut text = Vec::from_slice(alloc, b"equal ")?;
    push_number(steps.len() as u64, &mut text)?;
    text.extend_from_slice(b"\n")?;
    push_steps(schema, presentation, steps, &mut text)?;
    Ok(text)
}

/// Appends the number of the row that a term names, from 1.
fn push_row(instance: &Instance, term: &EntTerm, text: &mut Vec<u8>) -> Result<(), AllocError>
    requires { IsGround instance.now.schema instance.now.presentation (Ent term.now) }
    ensures { OnOk result (text.new.items ≡ text.old.items ++ shown_term instance.now (Ent term.now)) }
{
    push_ordinal(u64::from(instance.row_of(term)), text)?;
    Ok(())
}

/// Appends the text of a term's value.
fn push_meant(
    alloc: Global,
    instance: &Instance,
    term: &TypeTerm,
    text: &mut Vec<u8>,
) -> Result<(), AllocError>
    requires initial { IsInitial instance.now }
    requires ground { IsGround instance.now.schema instance.now.presentation (Typ term.now) }
    ensures { OnOk result (text.new.items ≡ text.old.items ++ shown_term instance.now (Typ term.now)) }
{
    let value = instance.value_of(alloc, term)?;
    push_value(&instance.schema().typeside, &value, text)?;
    Ok(())
}

/// Appends the rows or the values of an equation's sides, with a blank between them.
fn push_sides(
    alloc: Global,
    instance: &Instance,
    equation: &Equation,
    text: &mut Vec<u8>,
) -> Result<(), AllocError>
    requires initial { IsInitial instance.now }
    requires equation { IsWellSorted instance.now.schema instance.now.presentation equation.now }
    ensures { OnOk result (text.new.items ≡ text.old.items ++ shown_term instance.now (left_of equation.now)
        ++ codes " " ++ shown_term instance.now (right_of equation.now)) }
{
    match equation {
        Equation::Ent(left, right) => {
            push_row(instance, left, text)?;
            text.extend_from_slice(b" ")?;
            push_row(instance, right, text)?;
        }
        Equation::Typ(left, right) => {
            push_meant(alloc, instance, left, text)?;
            text.extend_from_slice(b" ")?;
            push_meant(alloc, instance, right, text)?;
        }
    }
    Ok(())
}

/// The two rows or values of an equation's sides.
#[tactic(auto, unfolding(crate::specs::Explanation::different_text))]
pub fn different_text(
    alloc: Global,
    instance: &Instance,
    equation: &Equation,
) -> Result<Vec<u8>, AllocError>
    requires initial { IsInitial instance.now }
    requires equation { IsWellSorted instance.now.schema instance.now.presentation equation.now }
    ensures { IfOk result (λ text. text.items ≡ different_text instance.now equation.now) }
{
    let mut text = Vec::from_slice(alloc, b"different ")?;
    push_sides(alloc, instance, equation, &mut text)?;
    text.extend_from_slice(b"\n")?;
    Ok(text)
}
