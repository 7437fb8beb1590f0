//! Why the rows of a presentation don't close within a depth.
ghost use Rattle.std.specs.Prelude.{List, ℕ, ◌≡◌, ◌≤◌, ◌++◌, Err, IfOk, OnOk, slice_get};
ghost use Rattle.cq_rows.specs.Saturated.{IsSaturated, SomeWide};
ghost use Rattle.cq_rows.specs.declared.refusal.RowsRefusal.TheVariants.{TooManyRows};
ghost use Rattle.cq_theory.specs.Presentation.{IsPresentation};
ghost use Rattle.cq_witness.specs.Depth.{edge_source, end_text, first_key as first_key_of};
ghost use Rattle.cq_witness.specs.Depth.{first_step as step_of_term, new_text, other_text};
ghost use Rattle.cq_witness.specs.Depth.{path_source as source_of_path, repeat_text, rule_text, IsTermTold};
ghost use Rattle.cq_witness.specs.Depth.{TellsDepth};

use crate::paths::{over, path_equation, path_term};
use crate::phrases::{Phrase, append_phrase};
use crate::terms::append_entity_term;
use cq_explain::push_equation;
use cq_growth::{first_new, repeated_keys};
use cq_rows::{Outline, Partial, RowsRefusal, saturate_over};
use cq_text::push_number;
use cq_theory::{Edge, EntTerm, Path, Presentation, Schema};
use std::alloc::{AllocError, Global};

/// The entity from which a key goes, and 0 where there is no such key.
fn source_of(keys: &[Edge], key: u32) -> u32
    ensures { result ≡ edge_source (slice_get keys.now key) }
{
    match keys.get(key as usize) {
        Some(edge) => edge.from,
        None => 0,
    }
}

/// The entity from which a path goes.
fn path_source(keys: &[Edge], path: &[u32]) -> u32
    ensures { result ≡ source_of_path keys.now path.now }
{
    match path {
        [key, ..] => source_of(keys, *key),
        [] => 0,
    }
}

/// The first key of a path, if it has one.
fn first_key(alloc: Global, path: &[u32]) -> Result<Vec<u32>, AllocError>
    ensures { IfOk result (λ made. made.items ≡ first_key_of path.now) }
{
    match path {
        [key, ..] => Ok(vec![in alloc; *key]?),
        [] => Ok(Vec::new(alloc)),
    }
}

/// A term's generator, and at most one key.
fn first_step(alloc: Global, term: &EntTerm) -> Result<EntTerm, AllocError>
    ensures { IfOk result (λ made. made ≡ step_of_term term.now) }
{
    let path = first_key(alloc, term.path.as_slice())?;
    Ok(EntTerm {
        generator: term.generator,
        path: Path::from_vec(path)?,
    })
}

/// Appends how deep a term is, and the term.
fn append_new(
    out: &mut Vec<u8>,
    schema: &Schema,
    presentation: &Presentation,
    term: &EntTerm,
) -> Result<(), AllocError>
    ensures { OnOk result (out.new.items ≡ out.old.items ++ new_text schema.now presentation.now term.now) }
{
    append_phrase(out, Phrase::StillNew)?;
    push_number(term.path.len() as u64, out)?;
    append_phrase(out, Phrase::Keys)?;
    append_entity_term(out, schema, presentation, term)?;
    append_phrase(out, Phrase::LineEnd)?;
    Ok(())
}

/// Appends which keys a term repeats.
fn append_repeat(
    alloc: Global,
    out: &mut Vec<u8>,
    schema: &Schema,
    block: &[u32],
) -> Result<(), AllocError>
    ensures { OnOk result (out.new.items ≡ out.old.items ++ repeat_text schema.now block.now) }
{
    let over = over(alloc, schema, path_source(schema.keys.as_slice(), block))?;
    let term = path_term(alloc, block)?;
    append_phrase(out, Phrase::GoesOn)?;
    append_entity_term(out, schema, &over, &term)?;
    append_phrase(out, Phrase::Again)?;
    Ok(())
}

/// The keys twice.
fn twice(alloc: Global, block: &[u32]) -> Result<Vec<u32>, AllocError>
    ensures { IfOk result (λ made. made.items ≡ block.now ++ block.now) }
{
    let mut path = Vec::from_slice(alloc, block)?;
    path.extend_from_slice(block)?;
    Ok(path)
}

/// Appends the path equation that ends the rows that repeat these keys.
fn append_rule(
    alloc: Global,
    out: &mut Vec<u8>,
    schema: &Schema,
    block: &[u32],
) -> Result<(), AllocError>
    ensures { OnOk result (out.new.items ≡ out.old.items ++ rule_text schema.now block.now) }
{
    let over = over(alloc, schema, path_source(schema.keys.as_slice(), block))?;
    let longer = twice(alloc, block)?;
    let equation = path_equation(alloc, &longer, block)?;
    append_phrase(out, Phrase::Indent)?;
    push_equation(schema, &over, &equation, out)?;
    append_phrase(out, Phrase::LineEnd)?;
    Ok(())
}

/// Appends what there is to mend where keys are repeated.
fn append_end(
    alloc: Global,
    out: &mut Vec<u8>,
    schema: &Schema,
    presentation: &Presentation,
    term: &EntTerm,
) -> Result<(), AllocError>
    ensures { OnOk result (out.new.items ≡ out.old.items ++ end_text schema.now presentation.now term.now) }
{
    let first = first_step(alloc, term)?;
    append_phrase(out, Phrase::SayWhich)?;
    append_entity_term(out, schema, presentation, &first)?;
    append_phrase(out, Phrase::OrEnd)?;
    Ok(())
}

/// Appends what there is to mend where no keys are repeated.
fn append_other(
    alloc: Global,
    out: &mut Vec<u8>,
    schema: &Schema,
    presentation: &Presentation,
    term: &EntTerm,
) -> Result<(), AllocError>
    ensures { OnOk result (out.new.items ≡ out.old.items ++ other_text schema.now presentation.now term.now) }
{
    let first = first_step(alloc, term)?;
    append_phrase(out, Phrase::SayWhich)?;
    append_entity_term(out, schema, presentation, &first)?;
    append_phrase(out, Phrase::OrDeeper)?;
    Ok(())
}

/// Appends what is told of a term that is new.
fn append_term(
    alloc: Global,
    out: &mut Vec<u8>,
    schema: &Schema,
    presentation: &Presentation,
    term: &EntTerm,
) -> Result<(), AllocError>
    ensures { OnOk result ((text : List ℕ) × IsTermTold schema.now presentation.now term.now text
        × (out.new.items ≡ out.old.items ++ text)) }
{
    append_new(out, schema, presentation, term)?;
    let Some(block) = repeated_keys(term.path.as_slice()) else {
        append_other(alloc, out, schema, presentation, term)?;
        return Ok(());
    };
    append_repeat(alloc, out, schema, block)?;
    append_end(alloc, out, schema, presentation, term)?;
    append_rule(alloc, out, schema, block)?;
    Ok(())
}

/// The rows of a presentation up to a depth.
fn rows_up_to(
    alloc: Global,
    schema: &Schema,
    presentation: &Presentation,
    depth: u32,
) -> Result<Partial, RowsRefusal>
    requires presentation { IsPresentation schema.now presentation.now }
    requires depth { depth ≤ 64 }
    ensures made { IfOk result (IsSaturated schema.now presentation.now depth) }
    ensures many { result ≡ Err TooManyRows → SomeWide schema.now presentation.now depth }
{
    let outline = Outline::new(alloc, schema)?;
    saturate_over(alloc, &outline, schema, presentation, depth)
}

/// Appends why the rows of a presentation don't close within a depth, of at most 64: a term that is still new there,
/// with as many keys; the keys that it repeats at its end; and what would end it. Nothing is appended where they close,
/// and where they are too many.
pub fn append_depth(
    alloc: Global,
    out: &mut Vec<u8>,
    schema: &Schema,
    presentation: &Presentation,
    depth: u32,
) -> Result<(), AllocError>
    requires presentation { IsPresentation schema.now presentation.now }
    requires depth { depth ≤ 64 }
    ensures { OnOk result (TellsDepth schema.now presentation.now depth out.old.items out.new.items) }
{
    let rows = match rows_up_to(alloc, schema, presentation, depth) {
        Ok(rows) => rows,
        Err(RowsRefusal::TooManyRows) => return Ok(()),
        Err(RowsRefusal::Memory) => return Err(AllocError),
    };
    let Some(term) = first_new(alloc, schema, presentation, &rows, depth)? else {
        return Ok(());
    };
    append_term(alloc, out, schema, presentation, &term)?;
    Ok(())
}
