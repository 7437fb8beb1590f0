//! Laws of answers and of the tables of eval. Each is the contract of a function that does nothing.
ghost use Rattle.std.specs.Prelude.{ℕ, List, ◌≡◌, Some, slice_get};
ghost use Rattle.cq_theory.specs.declared.schema.Edge.{Edge};
ghost use Rattle.cq_theory.specs.Tables.{Tables, IsWellFormed, Satisfies, Holds};
ghost use Rattle.cq_query.specs.QueryData.{QueryData as Query};
ghost use Rattle.cq_query.specs.IsQuery.{IsQuery};
ghost use Rattle.cq_query.specs.Duties.{frozen, Sound};
ghost use Rattle.cq_query.specs.Answers.{AreAnswers, IsEval, stands};
ghost use Rattle.cq_query.specs.Leading.{IsAnswer, led};

/// At an answer for an entity, over tables that satisfy the source, the frozen presentation of the entity holds.
pub fn answers_hold()
    ensures { (Q : Query) (M : Tables) → IsQuery Q → IsWellFormed Q.source M → Satisfies Q.source M
        → (entity : ℕ) (rows : List ℕ) → IsAnswer Q M entity rows
        → Holds Q.source (frozen Q entity) M (stands Q M rows) }
{}

/// From an answer, a foreign key of a sound query leads to an answer for its target.
pub fn keys_lead_to_answers()
    ensures { (Q : Query) (M : Tables) → IsQuery Q → Sound Q → IsWellFormed Q.source M → Satisfies Q.source M
        → (k : ℕ) (edge : Edge) → slice_get Q.target.keys k ≡ Some edge
        → (rows : List ℕ) → IsAnswer Q M edge.from rows → IsAnswer Q M edge.to (led Q M k rows) }
{}

/// There is one list of the answers for an entity, and no answer stands twice in it.
pub fn answers_stand_once()
    ensures one_list { (Q : Query) (M : Tables) (entity : ℕ) (answers others : List (List ℕ))
        → AreAnswers Q M entity answers → AreAnswers Q M entity others → answers ≡ others }
    ensures one_place { (Q : Query) (M : Tables) (entity : ℕ) (answers : List (List ℕ)) → AreAnswers Q M entity answers
        → (p q : ℕ) (rows : List ℕ) → slice_get answers p ≡ Some rows → slice_get answers q ≡ Some rows → p ≡ q }
{}

/// The tables that eval makes of tables that satisfy the source are well formed over the target, and satisfy it where
/// the query is sound.
pub fn eval_makes_models()
    ensures well_formed { (Q : Query) (M N : Tables) → IsQuery Q → IsWellFormed Q.source M → Satisfies Q.source M
        → IsEval Q M N → IsWellFormed Q.target N }
    ensures satisfies { (Q : Query) (M N : Tables) → IsQuery Q → Sound Q → IsWellFormed Q.source M
        → Satisfies Q.source M
        → IsEval Q M N → Satisfies Q.target N }
{}
