//! Instances of a query's target that are turned into instances of its source.
ghost use Rattle.std.specs.Prelude.{◌≡◌, ◌≤◌, IfOk};
ghost use Rattle.cq_theory.specs.Presentation.{IsPresentation};
ghost use Rattle.cq_query.specs.Coeval.{coeval_of};
ghost use Rattle.cq_model.specs.Moving.{Presents, IsModelOrCause};

use cq_model::{Instance, MoveRefusal, build_presented};
use cq_query::Query;
use cq_theory::{Presentation, SizeRefusal};
use std::alloc::Global;

/// The presentation that a query makes of the tables of an instance.
fn present_coeval(
    alloc: Global,
    query: &Query,
    instance: &Instance,
) -> Result<Presentation, SizeRefusal>
    requires { instance.now.schema ≡ query.now.target }
    ensures presents { Presents (coeval_of query.now instance.now.tables) result }
    ensures presentation { IfOk result (λ made. IsPresentation query.now.source made) }
{
    instance.is_instance();
    query.coeval_presentation(alloc, instance.sheet(), instance.algebra())
}

/// The listed model of the presentation that a query makes of the tables of an instance over its target, built of rows
/// up to a depth of at most 64. It has a generator for each row and each variable of the row's block, and for each
/// null; the where equations hold on each row's generators, a foreign key leads to what its terms say, and a cell is
/// what the query's term says (Schultz and Wisnesky, Algebraic Data Integration: coeval).
///
/// `TooLarge` is tried first: it is answered exactly where a term of that presentation has over 1,024 symbols or it
/// has over 16,000,000 generators. Then the refusals are those of `build`, in its order.
pub fn coeval(
    alloc: Global,
    query: &Query,
    instance: &Instance,
    depth: u32,
) -> Result<Instance, MoveRefusal>
    requires over { instance.now.schema ≡ query.now.target }
    requires depth { depth ≤ 64 }
    ensures { IsModelOrCause query.now.source (coeval_of query.now instance.now.tables) depth result }
{
    let source = query.source.clone()?;
    let presented = present_coeval(alloc, query, instance);
    build_presented(alloc, source, presented, depth)
}
