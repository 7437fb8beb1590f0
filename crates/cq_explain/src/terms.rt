//! The terms and equations of an explanation.
ghost use Rattle.std.specs.Prelude.{◌≡◌, ◌++◌, map, OnOk, slice_get};
ghost use Rattle.std.specs.List.{flat_map};
ghost use Rattle.cq_explain.specs.Explanation.{ent_text, equation_text, term_text};
ghost use Rattle.cq_text.specs.Literal.{applied_text};
ghost use Rattle.cq_text.specs.Transcript.{edge_name, step_text};
ghost use Rattle.cq_theory.specs.ValueText.{application_text, function_name, with_commas};

use crate::words::{push_constant, push_edge, push_function, push_generator};
use cq_theory::{Edge, EntTerm, Equation, Presentation, Schema, TypeTerm};
use std::alloc::AllocError;

/// Appends a dot and the name of a foreign key.
fn push_step(keys: &[Edge], key: u32, text: &mut Vec<u8>) -> Result<(), AllocError>
    ensures { OnOk result (text.new.items ≡ text.old.items ++ step_text keys.now key) }
{
    text.extend_from_slice(b".")?;
    push_edge(keys, key, text)?;
    Ok(())
}

fn push_path(keys: &[Edge], path: &[u32], text: &mut Vec<u8>) -> Result<(), AllocError>
    ensures { OnOk result (text.new.items ≡ text.old.items ++ flat_map (step_text keys.now) path.now) }
{
    for key in path {
        push_step(keys, *key, text)?;
    }
    Ok(())
}

/// Appends an entity term: the name of its generator, then a dot and the name of each key that is followed.
pub fn push_entity_term(
    schema: &Schema,
    presentation: &Presentation,
    term: &EntTerm,
    text: &mut Vec<u8>,
) -> Result<(), AllocError>
    ensures { OnOk result (text.new.items ≡ text.old.items ++ ent_text schema.now presentation.now term.now) }
{
    push_generator(presentation.generators.as_slice(), term.generator, text)?;
    push_path(schema.keys.as_slice(), term.path.as_slice(), text)?;
    Ok(())
}

/// Appends an attribute at an entity term.
fn push_attribute_at(
    schema: &Schema,
    presentation: &Presentation,
    attribute: u32,
    term: &EntTerm,
    text: &mut Vec<u8>,
) -> Result<(), AllocError>
    ensures { OnOk result (text.new.items ≡ text.old.items
        ++ applied_text (edge_name (slice_get schema.now.attributes attribute))
        (ent_text schema.now presentation.now term.now)) }
{
    push_edge(schema.attributes.as_slice(), attribute, text)?;
    text.extend_from_slice(b"(")?;
    push_entity_term(schema, presentation, term, text)?;
    text.extend_from_slice(b")")?;
    Ok(())
}

/// Appends a type term: a generator by its name, a constant as in the text of a value, an attribute at an entity term,
/// or a function at its arguments.
#[cycle(term)]
pub fn push_type_term(
    schema: &Schema,
    presentation: &Presentation,
    term: &TypeTerm,
    text: &mut Vec<u8>,
) -> Result<(), AllocError>
    ensures { OnOk result (text.new.items ≡ text.old.items ++ term_text schema.now presentation.now term.now) }
{
    match term {
        TypeTerm::Gen(generator) => {
            push_generator(presentation.generators.as_slice(), *generator, text)?;
            Ok(())
        }
        TypeTerm::Const(constant) => {
            push_constant(&schema.typeside, constant, text)?;
            Ok(())
        }
        TypeTerm::Att(attribute, term) => {
            push_attribute_at(schema, presentation, *attribute, term, text)?;
            Ok(())
        }
        TypeTerm::Fun(function, args) => {
            push_application(schema, presentation, *function, args.as_slice(), text)?;
            Ok(())
        }
    }
}

#[cycle(term)]
fn push_application(
    schema: &Schema,
    presentation: &Presentation,
    function: u32,
    args: &[TypeTerm],
    text: &mut Vec<u8>,
) -> Result<(), AllocError>
    ensures { OnOk result (text.new.items ≡ text.old.items
        ++ application_text (function_name (slice_get schema.now.typeside.functions function))
        (map (term_text schema.now presentation.now) args.now)) }
{
    push_function(&schema.typeside, function, text)?;
    text.extend_from_slice(b"(")?;
    push_args(schema, presentation, args, text)?;
    text.extend_from_slice(b")")?;
    Ok(())
}

#[cycle(term)]
fn push_args(
    schema: &Schema,
    presentation: &Presentation,
    args: &[TypeTerm],
    text: &mut Vec<u8>,
) -> Result<(), AllocError>
    ensures { OnOk result (text.new.items ≡ text.old.items
        ++ with_commas (map (term_text schema.now presentation.now) args.now)) }
{
    if let Some((first, rest)) = args.split_first() {
        push_type_term(schema, presentation, first, text)?;
        for arg in rest {
            text.extend_from_slice(b", ")?;
            push_type_term(schema, presentation, arg, text)?;
        }
    }
    Ok(())
}

/// Appends `LEFT = RIGHT`.
pub fn push_equation(
    schema: &Schema,
    presentation: &Presentation,
    equation: &Equation,
    text: &mut Vec<u8>,
) -> Result<(), AllocError>
    ensures { OnOk result (text.new.items ≡ text.old.items
        ++ equation_text schema.now presentation.now equation.now) }
{
    match equation {
        Equation::Ent(left, right) => {
            push_entity_term(schema, presentation, left, text)?;
            text.extend_from_slice(b" = ")?;
            push_entity_term(schema, presentation, right, text)?;
        }
        Equation::Typ(left, right) => {
            push_type_term(schema, presentation, left, text)?;
            text.extend_from_slice(b" = ")?;
            push_type_term(schema, presentation, right, text)?;
        }
    }
    Ok(())
}
