//! Laws of transforms along queries. Each is the contract of a function that does nothing.
ghost use Rattle.std.specs.Prelude.{ℕ, List, [], ◌∷◌, ◌≡◌, All};
ghost use Rattle.cq_theory.specs.Homomorphism.{IsHomomorphism};
ghost use Rattle.cq_theory.specs.declared.term.TypeTerm.{TypeTerm};
ghost use Rattle.cq_instance.specs.InstanceData.{InstanceData, IsInstance};
ghost use Rattle.cq_instance.specs.declared.transform.Transform.{Transform};
ghost use Rattle.cq_transform.specs.Transforms.{GoesFrom};
ghost use Rattle.cq_query.specs.IsQuery.{IsQuery};
ghost use Rattle.cq_query.specs.QueryData.{QueryData as Query};
ghost use Rattle.cq_theory.specs.Tables.{Holds};
ghost use Rattle.cq_transform.specs.Composing.{composed};
ghost use Rattle.cq_transform.specs.Identities.{identity_images};
ghost use Rattle.cq_adjoint.specs.Along.{IsAlongCoeval, IsAlongEval, SendAlike};
ghost use Rattle.cq_adjoint.specs.AnswerNames.{from_eval_images};
ghost use Rattle.cq_adjoint.specs.QueryMoves.{IsCoeval, AreAcross, AreEvaluated};
ghost use Rattle.cq_adjoint.specs.QueryMoves.{coeval_images, eval_images, to_eval_images};
ghost use Rattle.cq_adjoint.specs.QueryUnits.{unit_query_images, counit_query_images};
ghost use Rattle.cq_adjoint.specs.TransposedQueries.{AreTransposed};
ghost use Rattle.cq_adjoint.specs.Units.{identity_of};

/// There and back is the identity, both ways: two homomorphisms into eval that are transposed to one transform out of
/// coeval send rows and nulls alike, and so do two transforms out of coeval to which one into eval is transposed. So
/// transforms out of coeval correspond one to one to transforms into eval.
pub fn queries_there_and_back()
    ensures into { (Q : Query) (i a j d : InstanceData) (answers : List (List (List ℕ))) (h k k' : Transform)
        → IsQuery Q → AreAcross Q i a j d answers → IsInstance i → IsInstance j → GoesFrom h a j
        → IsHomomorphism i.schema i.tables d.tables k.rows k.nulls
        → IsHomomorphism i.schema i.tables d.tables k'.rows k'.nulls
        → AreTransposed Q h i a j d answers k.rows k.nulls → AreTransposed Q h i a j d answers k'.rows k'.nulls
        → (k.rows ≡ k'.rows) × (k.nulls ≡ k'.nulls) }
    ensures out_of { (Q : Query) (i a j d : InstanceData) (answers : List (List (List ℕ))) (h h' k : Transform)
        → IsQuery Q → IsCoeval Q i a → IsInstance a → GoesFrom h a j → GoesFrom h' a j
        → AreTransposed Q h i a j d answers k.rows k.nulls → AreTransposed Q h' i a j d answers k.rows k.nulls
        → (h.rows ≡ h'.rows) × (h.nulls ≡ h'.nulls) }
{}

/// The unit is the transform into eval of an identity, and the counit the one out of coeval of an identity.
pub fn query_units_of_identities()
    ensures unit { (Q : Query) (i x b : InstanceData) (answers : List (List (List ℕ))) → IsQuery Q
        → AreAcross Q i x x b answers → IsInstance i → IsInstance x
        → to_eval_images Q (identity_of x) i x x b answers ≡ unit_query_images Q i x b answers }
    ensures counit { (Q : Query) (i x : InstanceData) (answers : List (List (List ℕ))) (null_term : ℕ → TypeTerm)
        → from_eval_images Q (identity_of x) x i x answers null_term ≡ counit_query_images Q i x answers null_term }
{}

/// Along coeval an identity becomes an identity, and the composite of two transforms the composite of what they become.
pub fn coeval_keeps_identities_and_composites()
    ensures identities { (Q : Query) (i a : InstanceData) → IsQuery Q → IsCoeval Q i a → IsInstance i → IsInstance a
        → Holds i.schema i.presentation i.tables i.assignment
        → coeval_images Q (identity_of i) i i ≡ identity_images a.presentation.generators }
    ensures composites { (Q : Query) (i j k a b c : InstanceData) (h g s t u : Transform) → IsQuery Q
        → All IsInstance (i ∷ j ∷ k ∷ a ∷ b ∷ c ∷ [])
        → IsAlongCoeval Q i j a b h s → IsAlongCoeval Q j k b c g t → IsAlongCoeval Q i k a c (composed j k h g) u
        → SendAlike (composed b c s t) u }
{}

/// Along eval an identity becomes an identity, and the composite of two transforms the composite of what they become.
pub fn eval_keeps_identities_and_composites()
    ensures identities { (Q : Query) (i a : InstanceData) (answers : List (List (List ℕ))) → IsQuery Q
        → AreEvaluated Q i i a a answers answers → IsInstance a
        → eval_images Q (identity_of i) i i a a answers answers ≡ identity_images a.presentation.generators }
    ensures composites { (Q : Query) (i j k a b c : InstanceData) (in_i in_j in_k : List (List (List ℕ)))
        (h g s t u : Transform) → IsQuery Q → All IsInstance (i ∷ j ∷ k ∷ a ∷ b ∷ c ∷ [])
        → IsAlongEval Q i j a b in_i in_j h s → IsAlongEval Q j k b c in_j in_k g t
        → IsAlongEval Q i k a c in_i in_k (composed j k h g) u → SendAlike (composed b c s t) u }
{}
