//! Laws of composites. Each is the contract of a function that does nothing.
ghost use Rattle.std.specs.Prelude.{ℕ, List, ◌≡◌, ◌<◌, length};
ghost use Rattle.cq_theory.specs.Tables.{Tables, IsWellFormed, Satisfies};
ghost use Rattle.cq_mapping.specs.Mapping.{identity_of};
ghost use Rattle.cq_query.specs.QueryData.{QueryData as Query};
ghost use Rattle.cq_query.specs.IsQuery.{IsQuery};
ghost use Rattle.cq_query.specs.Duties.{Sound};
ghost use Rattle.cq_query.specs.Answers.{AreAnswers, IsEval};
ghost use Rattle.cq_compose.specs.Composite.{composite};
ghost use Rattle.cq_compose.specs.MappingQuery.{mapping_query};

/// The composite of sound queries is sound.
pub fn composites_are_sound()
    ensures { (Q W : Query) → IsQuery Q → IsQuery W → Q.target ≡ W.source → Sound Q → Sound W → Sound (composite Q W) }
{}

/// A query has one evaluation at given tables.
pub fn evaluations_are_unique()
    ensures { (Q : Query) → IsQuery Q → (M N X : Tables) → IsEval Q M N → IsEval Q M X → N ≡ X }
{}

/// The composite answers the tables that the second query answers over those that the first answers, row by row, and
/// no others.
pub fn composites_answer_in_turn()
    ensures answered { (Q W : Query) → IsQuery Q → IsQuery W → Q.target ≡ W.source → (M N R : Tables) → IsEval Q M N
        → IsEval W N R → IsEval (composite Q W) M R }
    ensures alone { (Q W : Query) → IsQuery Q → IsQuery W → Q.target ≡ W.source → (M N R X : Tables) → IsEval Q M N
        → IsEval W N R → IsEval (composite Q W) M X → X ≡ R }
{}

/// The composite has as many answers for an entity as the second query has over what the first answers.
pub fn composites_count_alike()
    ensures { (Q W : Query) → IsQuery Q → IsQuery W → Q.target ≡ W.source → (M N : Tables) → IsEval Q M N
        → (entity : ℕ) → entity < length W.target.entities → (answers others : List (List ℕ))
        → AreAnswers (composite Q W) M entity answers → AreAnswers W N entity others → length answers ≡ length others }
{}

/// Three queries in a row are answered alike whichever two are composed first.
pub fn composites_are_associative()
    ensures { (Q W V : Query) → IsQuery Q → IsQuery W → IsQuery V → IsQuery (composite Q W) → IsQuery (composite W V)
        → Q.target ≡ W.source → W.target ≡ V.source → (M N R X : Tables) → IsEval Q M N → IsEval W N R → IsEval V R X
        → IsEval (composite (composite Q W) V) M X × IsEval (composite Q (composite W V)) M X }
{}

/// Composed with the query of an identity, before it or after it, a query answers what it answered.
pub fn identities_compose()
    ensures before { (Q : Query) → IsQuery Q → (M N : Tables) → IsWellFormed Q.source M → IsEval Q M N
        → IsEval (composite (mapping_query (identity_of Q.source)) Q) M N }
    ensures after { (Q : Query) → IsQuery Q → (M N : Tables) → IsWellFormed Q.source M → Satisfies Q.source M
        → IsEval Q M N → IsEval (composite Q (mapping_query (identity_of Q.target))) M N }
{}
