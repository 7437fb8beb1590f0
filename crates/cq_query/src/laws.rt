//! Laws of the definitions. Each is the contract of a function that does nothing.
pub mod eval;

ghost use Rattle.std.specs.Prelude.{ℕ, false, ◌≡◌, ◌↔◌, Some, List, slice_get};
ghost use Rattle.cq_theory.specs.declared.presentation.Equation.{Equation};
ghost use Rattle.cq_theory.specs.declared.presentation.Sort.{Sort};
ghost use Rattle.cq_theory.specs.Derivation.{left_of, right_of};
ghost use Rattle.cq_theory.specs.Sorts.{sort_of};
ghost use Rattle.cq_theory.specs.Presentation.{IsPresentation};
ghost use Rattle.cq_theory.specs.Tables.{Tables, IsWellFormed};
ghost use Rattle.cq_query.specs.QueryData.{QueryData as Query};
ghost use Rattle.cq_query.specs.IsQuery.{IsQuery};
ghost use Rattle.cq_query.specs.Duties.{frozen, duties as duties_at};
ghost use Rattle.cq_theory.specs.Presentation.{is_oversized};
ghost use Rattle.cq_query.specs.Coeval.{coeval_of};
ghost use Rattle.cq_query.specs.Answers.{AreAnswers, IsTuple, MeetsTests, variable_counts};

/// The sides of each duty of a query have one sort over the frozen presentation of its entity.
pub fn sorts_of_duties()
    ensures { (Q : Query) → IsQuery Q → (entity n : ℕ) (e : Equation) → slice_get (duties_at Q entity) n ≡ Some e
        → (sort : Sort) × (sort_of Q.source (frozen Q entity).generators (left_of e) ≡ Some sort)
        × (sort_of Q.source (frozen Q entity).generators (right_of e) ≡ Some sort) }
{}

/// Rows are among the answers of a query for an entity exactly where they are one row of its entity for each variable
/// of the block, and each where equation of the block holds at them.
pub fn answers()
    ensures { (Q : Query) (M : Tables) (entity : ℕ) (answers : List (List ℕ)) → AreAnswers Q M entity answers
        → (rows : List ℕ)
        → ((place : ℕ) × (slice_get answers place ≡ Some rows)) ↔
        (IsTuple rows (variable_counts Q M entity) × MeetsTests Q M entity rows) }
{}

/// Over tables of the target, the presentation of coeval is a presentation over the source, where it is not too large.
pub fn coeval_presented()
    ensures { (Q : Query) → IsQuery Q → (M : Tables) → IsWellFormed Q.target M → is_oversized (coeval_of Q M) ≡ false
        → IsPresentation Q.source (coeval_of Q M) }
{}
