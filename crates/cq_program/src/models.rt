//! What declarations stand for that pass the checks of names and parts.
ghost use Rattle.std.specs.Prelude.{◌≤◌, IfOk, IfErr};
ghost use Rattle.cq_program.specs.Program.{Stands};
ghost use Rattle.cq_environment.specs.Environment.{IsModelled, meant};
ghost use Rattle.cq_program.specs.Posing.{IsPosed, posed_as};
ghost use Rattle.cq_program.specs.Judging.{TellsUnmade};

use crate::evals::meaning::{mean_coeval, mean_eval};
use crate::gluing::meaning::{mean_coproduct, mean_pushout};
use crate::literals::meaning::mean_presentation;
use crate::mappings::meaning::{mean_identity, mean_mapping};
use crate::movements::meaning::mean_move;
use crate::moves::meaning::{mean_delta, mean_sigma};
use crate::queries::meaning::{mean_composite, mean_mapping_query, mean_query};
use crate::statement::Statement;
use crate::transforms::meaning::mean_transform;
use crate::typesides::meaning::share_typeside;
use cq_base::Place;
use cq_environment::{Meaning, ProgramRefusal, Reason};
use std::alloc::Global;

/// What the declaration at a place stands for: a theory itself, a mapping or a query whose duties are derivable itself,
/// two queries by their composite, within its limits, and a mapping by its query, a presentation, given or made of
/// others, by its listed model, tables that are pulled back or that are answers with their canonical presentation, and
/// a transform itself. Images that don't keep an equation stand for nothing.
pub fn meaning_of(
    alloc: Global,
    place: Place,
    statement: Statement,
    depth: u32,
) -> Result<Meaning, ProgramRefusal>
    requires posed { IsPosed statement }
    requires depth { depth ≤ 64 }
    ensures stands { IfOk result (λ meaning. Stands (posed_as statement) (meant meaning)) }
    ensures modelled { IfOk result (λ meaning. IsModelled (meant meaning)) }
    ensures refused { IfErr result (TellsUnmade depth place (posed_as statement)) }
{
    match statement {
        Statement::Typeside(typeside) => Ok(Meaning::Typeside(share_typeside(alloc, typeside)?)),
        Statement::Schema(schema) => Ok(Meaning::Schema(schema)),
        Statement::Mapping(source, target, mapping) => {
            mean_mapping(alloc, place, source, target, mapping, depth)
        }
        Statement::Colimit(colimit) => Ok(Meaning::Colimit(colimit)),
        Statement::Inclusion(source, target, mapping) => {
            Ok(Meaning::Mapping(source, target, mapping))
        }
        Statement::Identity(name, schema) => Ok(mean_identity(alloc, name, schema)?),
        Statement::Query(source, target, query) => {
            mean_query(alloc, place, source, target, query, depth)
        }
        Statement::Presentation(name, schema, presentation) => {
            mean_presentation(alloc, place, name, schema, presentation, depth)
        }
        Statement::Delta(name, mapping, instance) => {
            mean_delta(alloc, place, name, &mapping, &instance)
        }
        Statement::Sigma(name, mapping, instance) => {
            mean_sigma(alloc, place, name, &mapping, &instance, depth)
        }
        Statement::Eval(name, query, instance) => mean_eval(alloc, place, name, &query, &instance),
        Statement::Coeval(name, query, instance) => {
            mean_coeval(alloc, place, name, &query, &instance, depth)
        }
        Statement::Composite(source, target, first, second) => {
            mean_composite(alloc, place, source, target, &first, &second)
        }
        Statement::MappingQuery(source, target, mapping) => {
            mean_mapping_query(alloc, source, target, &mapping)
        }
        Statement::Coproduct(name, schema, parts) => {
            mean_coproduct(alloc, place, name, schema, parts.as_slice(), depth)
        }
        Statement::Pushout(left, right) => mean_pushout(alloc, place, &left, &right, depth),
        Statement::Transform(ends, transform) => Ok(mean_transform(alloc, ends, transform)?),
        Statement::Broken(images) => {
            Err(ProgramRefusal::Broken(place, Reason::Broken(images.number)))
        }
        Statement::Move(moving) => mean_move(alloc, place, moving),
    }
}
