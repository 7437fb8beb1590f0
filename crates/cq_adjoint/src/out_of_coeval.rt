//! Transforms out of coeval, of those into eval.
ghost use Rattle.std.specs.Prelude.{◌≡◌, ◌⊎◌, true, false, IfOk, IfErr, map};
ghost use Rattle.cq_transform.specs.Composing.{has_long as have_long};
ghost use Rattle.cq_transform.specs.Nulls.{IsInitial};
ghost use Rattle.cq_transform.specs.Transforms.{GoesFrom};
ghost use Rattle.cq_adjoint.specs.Answering.{IsAnswering, answers_in};
ghost use Rattle.cq_adjoint.specs.AnswerNames.{from_eval_images};
ghost use Rattle.cq_adjoint.specs.QueryMoves.{AreAcross};
ghost use Rattle.cq_instance.specs.Spelling.{AreNullsSpelled, null_term_of, term_among};
ghost use Rattle.cq_adjoint.specs.TransposedQueries.{AreTransposed, IsOnlyOutOfCoeval};

use crate::answering::{Answering, images};
use crate::into_eval::has_long;
use cq_instance::{Instance, Transform};
use cq_query::Query;
use cq_theory::SizeRefusal;
use cq_transform::transform_of_images;
use std::alloc::Global;

/// The transform from `copies`, coeval of `source`, to `target` that is transposed to `moved`, a transform from
/// `source` to `evaluated`, eval of `target` (Schultz and Wisnesky, Algebraic Data Integration: coeval is left adjoint
/// to eval). The copy of a row for a variable goes to the least name of the variable's row in the answer to which
/// `moved` sends the row, and a null's generator to the value to which `moved` sends the null, in which each null of
/// `target` is spelled by its term. So from an identity it is the counit. `moved` is transposed to no other
/// homomorphism. `answers` has the answers of the query in `target` for each entity of the query's target, in order.
/// `TooLarge` is answered exactly where an image has over 1,024 symbols, and `Memory` for want of memory.
pub fn from_eval(
    alloc: Global,
    query: &Query,
    moved: &Transform,
    source: &Instance,
    copies: &Instance,
    target: &Instance,
    evaluated: &Instance,
    answers: &[Vec<Vec<u32>>],
) -> Result<Transform, SizeRefusal>
    requires goes { GoesFrom moved.now source.now evaluated.now }
    requires across { AreAcross query.now source.now copies.now target.now evaluated.now
        (map (λ list. map (λ rows. rows.items) list.items) answers.now) }
    requires least { IsInitial target.now }
    requires spelled { AreNullsSpelled target.now (null_term_of target.now) }
    ensures images { IfOk result (λ made. made.images ≡ from_eval_images query.now moved.now source.now target.now
        evaluated.now (map (λ list. map (λ rows. rows.items) list.items) answers.now) (null_term_of target.now)) }
    ensures goes { IfOk result (λ made. GoesFrom made copies.now target.now) }
    ensures fits { IfOk result (λ made. have_long made.images ≡ false) }
    ensures refused { IfErr result (λ refusal. (refusal ≡ SizeRefusal.Memory)
        ⊎ ((refusal ≡ SizeRefusal.TooLarge) × (have_long (from_eval_images query.now moved.now source.now target.now
        evaluated.now (map (λ list. map (λ rows. rows.items) list.items) answers.now)
        (null_term_of target.now)) ≡ true))) }
    ensures transposed { IfOk result (λ made. AreTransposed query.now made source.now copies.now target.now
        evaluated.now (map (λ list. map (λ rows. rows.items) list.items) answers.now)
        moved.now.rows moved.now.nulls) }
    ensures one { IfOk result (λ made. IsOnlyOutOfCoeval query.now made source.now copies.now target.now evaluated.now
        (map (λ list. map (λ rows. rows.items) list.items) answers.now) moved.now.rows moved.now.nulls) }
{
    query.is_well_sorted();
    source.is_instance();
    copies.is_instance();
    target.is_instance();
    let null_terms = target.null_terms(alloc)?;
    let terms = null_terms.as_slice();
    let answering = Answering {
        query,
        moved,
        source,
        copies,
        target,
        evaluated,
        null_terms: terms,
        answers,
    };
    answered(alloc, &answering)
}

/// The transform out of coeval.
fn answered(alloc: Global, answering: &Answering) -> Result<Transform, SizeRefusal>
    requires { IsAnswering answering.now }
    ensures images { IfOk result (λ made. made.images ≡ from_eval_images answering.now.query.now
        answering.now.moved.now answering.now.source.now answering.now.target.now answering.now.evaluated.now
        (answers_in answering.now) (term_among answering.now.null_terms.now)) }
    ensures goes { IfOk result (λ made. GoesFrom made answering.now.copies.now answering.now.target.now) }
    ensures fits { IfOk result (λ made. have_long made.images ≡ false) }
    ensures refused { IfErr result (λ refusal. (refusal ≡ SizeRefusal.Memory)
        ⊎ ((refusal ≡ SizeRefusal.TooLarge) × (have_long (from_eval_images answering.now.query.now
        answering.now.moved.now answering.now.source.now answering.now.target.now answering.now.evaluated.now
        (answers_in answering.now) (term_among answering.now.null_terms.now)) ≡ true))) }
{
    let query = answering.query;
    let source = answering.source;
    let target = answering.target;
    query.is_well_sorted();
    source.is_instance();
    target.is_instance();
    let images = images(alloc, answering)?;
    if has_long(images.as_slice()) {
        return Err(SizeRefusal::TooLarge);
    }
    match transform_of_images(alloc, answering.copies, target, images) {
        Ok(made) => Ok(made),
        Err(_) => Err(SizeRefusal::Memory),
    }
}
