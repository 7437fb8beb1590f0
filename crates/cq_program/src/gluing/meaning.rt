//! Coproducts and pushouts: what they stand for.
ghost use Rattle.std.specs.Prelude.{◌≡◌, ◌≤◌, All, IfOk, IfErr, map};
ghost use Rattle.cq_transform.specs.Gluing.{coproduct_of};
ghost use Rattle.cq_theory.specs.Presentation.{IsPresentation};
ghost use Rattle.cq_theory.specs.SchemaData.{SchemaData};
ghost use Rattle.cq_program.specs.Posed.{a_made};
ghost use Rattle.cq_program.specs.Gluing.{pushed_out};
ghost use Rattle.cq_environment.specs.Environment.{IsModelled, meant, transform_meant};
ghost use Rattle.cq_program.specs.Posing.{AreSpan};
ghost use Rattle.cq_program.specs.Judging.{TellsUnmade};
ghost use Rattle.cq_program.specs.Program.{Stands};

use crate::made::{mean_model, typeside_of};
use crate::transforms::stating::is_over_schema;
use cq_base::{Name, Place};
use cq_environment::{Meaning, NamedTransform, ProgramRefusal};
use cq_model::{Instance, Transform};
use cq_push::{coproduct, pushout};
use cq_theory::Schema;
use std::alloc::Global;
use std::rc::Rc;

/// The listed model of the disjoint union of the presentations of instances over a schema, made of rows up to a depth.
pub fn mean_coproduct(
    alloc: Global,
    place: Place,
    name: Name,
    schema: Rc<Schema>,
    parts: &[Rc<Instance>],
    depth: u32,
) -> Result<Meaning, ProgramRefusal>
    requires over { All (λ part. part.value.schema ≡ schema.value) parts.now }
    requires depth { depth ≤ 64 }
    ensures stands { IfOk result (λ meaning. Stands
        (a_made name schema.value (coproduct_of (map (λ part. part.value.presentation) parts.now))) (meant meaning)) }
    ensures modelled { IfOk result (λ meaning. IsModelled (meant meaning)) }
    ensures refused { IfErr result (TellsUnmade depth place
        (a_made name schema.value (coproduct_of (map (λ part. part.value.presentation) parts.now)))) }
{
    schema.is_well_sorted();
    are_presented(parts);
    let over = schema.clone()?;
    let answer = coproduct(alloc, schema, parts, depth);
    mean_model(alloc, place, name, &over.typeside, answer)
}

/// Instances over one schema have presentations over it. The call does nothing.
fn are_presented(parts: &[Rc<Instance>])
    ensures { (S : SchemaData) → All (λ part. part.value.schema ≡ S) parts.now
        → All (IsPresentation S) (map (λ part. part.value.presentation) parts.now) }
{
    for part in parts {
        part.is_instance();
    }
}

/// The listed model of the presentations of two instances that are glued along transforms from one start, made of rows
/// up to a depth.
pub fn mean_pushout(
    alloc: Global,
    place: Place,
    left: &NamedTransform,
    right: &NamedTransform,
    depth: u32,
) -> Result<Meaning, ProgramRefusal>
    requires span { AreSpan (transform_meant left.now) (transform_meant right.now) }
    requires depth { depth ≤ 64 }
    ensures stands { IfOk result (λ meaning. Stands (pushed_out (transform_meant left.now) (transform_meant right.now))
        (meant meaning)) }
    ensures modelled { IfOk result (λ meaning. IsModelled (meant meaning)) }
    ensures refused { IfErr result (TellsUnmade depth place
        (pushed_out (transform_meant left.now) (transform_meant right.now))) }
{
    let first: &Transform = &left.transform;
    let second: &Transform = &right.transform;
    let start: &Instance = &left.ends.start.instance;
    let into_left: &Instance = &left.ends.finish.instance;
    let into_right: &Instance = &right.ends.finish.instance;
    is_over_schema(start);
    into_left.is_instance();
    into_right.is_instance();
    let name = left.ends.start.schema.clone()?;
    let answer = pushout(alloc, first, second, start, into_left, into_right, depth);
    mean_model(alloc, place, name, typeside_of(start), answer)
}
