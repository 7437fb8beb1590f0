//! Transforms into eval, of those out of coeval.
ghost use Rattle.std.specs.Prelude.{ℕ, List, ◌≡◌, ◌⊎◌, true, false, All, IfOk, IfErr, map};
ghost use Rattle.std.specs.List.{list_any};
ghost use Rattle.cq_theory.specs.declared.value.Value.{Value as AnyValue};
ghost use Rattle.cq_theory.specs.Homomorphism.{IsHomomorphism};
ghost use Rattle.cq_transform.specs.Composing.{is_long as is_over, has_long as have_long};
ghost use Rattle.cq_transform.specs.Transforms.{GoesFrom};
ghost use Rattle.cq_adjoint.specs.QueryMoves.{to_eval_images, AreAcross};
ghost use Rattle.cq_adjoint.specs.TransposedQueries.{AreTransposed};
ghost use Rattle.cq_adjoint.specs.Crossing.{IsCrossing};

use crate::crossing::{Crossing, images};
use crate::layout::find_layout;
use crate::places::all_places;
use cq_instance::{Image, Instance, Transform};
use cq_query::Query;
use cq_theory::SizeRefusal;
use cq_transform::{is_long, transform_of_images};
use std::alloc::Global;

/// The transform from `source` to `evaluated`, eval of `target`, that is transposed to `moved`, a transform from
/// `copies`, coeval of `source`, to `target` (Schultz and Wisnesky, Algebraic Data Integration: coeval is left adjoint
/// to eval). A row goes to the answer that has, for each variable, the row to which `moved` sends the copy of the row;
/// a null goes where `moved` sends the value of its generator. `answers` has the answers of the query in `target` for
/// each entity of the query's target, in order. `TooLarge` is answered exactly where an image has over 1,024 symbols,
/// and `Memory` for want of memory.
pub fn to_eval(
    alloc: Global,
    query: &Query,
    moved: &Transform,
    source: &Instance,
    copies: &Instance,
    target: &Instance,
    evaluated: &Instance,
    answers: &[Vec<Vec<u32>>],
) -> Result<Transform, SizeRefusal>
    requires goes { GoesFrom moved.now copies.now target.now }
    requires across { AreAcross query.now source.now copies.now target.now evaluated.now
        (map (λ list. map (λ rows. rows.items) list.items) answers.now) }
    ensures images { IfOk result (λ made. made.images ≡ to_eval_images query.now moved.now source.now copies.now
        target.now evaluated.now (map (λ list. map (λ rows. rows.items) list.items) answers.now)) }
    ensures goes { IfOk result (λ made. GoesFrom made source.now evaluated.now) }
    ensures fits { IfOk result (λ made. have_long made.images ≡ false) }
    ensures refused { IfErr result (λ refusal. (refusal ≡ SizeRefusal.Memory)
        ⊎ ((refusal ≡ SizeRefusal.TooLarge) × (have_long (to_eval_images query.now moved.now source.now copies.now
        target.now evaluated.now (map (λ list. map (λ rows. rows.items) list.items) answers.now)) ≡ true))) }
    ensures transposed { IfOk result (λ made. AreTransposed query.now moved.now source.now copies.now target.now
        evaluated.now (map (λ list. map (λ rows. rows.items) list.items) answers.now) made.rows made.nulls) }
    ensures one { IfOk result (λ made. (rows : List (List ℕ)) (nulls : List AnyValue)
        → IsHomomorphism source.now.schema source.now.tables evaluated.now.tables rows nulls
        → AreTransposed query.now moved.now source.now copies.now target.now evaluated.now
        (map (λ list. map (λ rows. rows.items) list.items) answers.now) rows nulls
        → (rows ≡ made.rows) × (nulls ≡ made.nulls)) }
{
    query.is_well_sorted();
    copies.is_instance();
    target.is_instance();
    let sheet = source.sheet();
    let counts = sheet.counts.as_slice();
    let layout = find_layout(alloc, query, counts)?;
    let found = all_places(alloc, answers)?;
    let places = found.as_slice();
    let starts = layout.starts.as_slice();
    let crossing = Crossing {
        query,
        moved,
        source,
        copies,
        target,
        evaluated,
        places,
        starts,
        first_null: layout.first_null,
    };
    crossed(alloc, &crossing)
}

/// Whether some image has over 1,024 symbols.
pub(crate) fn has_long(images: &[Image]) -> bool
    ensures { result ≡ have_long images.now }
{
    images.iter().any(|image| is_long(image))
}

/// The transform into eval.
fn crossed(alloc: Global, crossing: &Crossing) -> Result<Transform, SizeRefusal>
    requires { IsCrossing crossing.now }
    ensures images { IfOk result (λ made. made.images ≡ to_eval_images crossing.now.query.now crossing.now.moved.now
        crossing.now.source.now crossing.now.copies.now crossing.now.target.now crossing.now.evaluated.now
        crossing.now.places.now) }
    ensures goes { IfOk result (λ made. GoesFrom made crossing.now.source.now crossing.now.evaluated.now) }
    ensures fits { IfOk result (λ made. have_long made.images ≡ false) }
    ensures refused { IfErr result (λ refusal. (refusal ≡ SizeRefusal.Memory)
        ⊎ ((refusal ≡ SizeRefusal.TooLarge) × (have_long (to_eval_images crossing.now.query.now
        crossing.now.moved.now crossing.now.source.now crossing.now.copies.now crossing.now.target.now
        crossing.now.evaluated.now crossing.now.places.now) ≡ true))) }
{
    let source = crossing.source;
    let target = crossing.target;
    let query = crossing.query;
    query.is_well_sorted();
    source.is_instance();
    target.is_instance();
    let images = images(alloc, crossing)?;
    if has_long(images.as_slice()) {
        return Err(SizeRefusal::TooLarge);
    }
    match transform_of_images(alloc, source, crossing.evaluated, images) {
        Ok(made) => Ok(made),
        Err(_) => Err(SizeRefusal::Memory),
    }
}
