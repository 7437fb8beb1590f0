//! Laws of canonical presentations, and of the terms of nulls.
ghost use Rattle.std.specs.Prelude.{ℕ, true, ◌≡◌, ◌<◌, ◌≤◌};
ghost use Rattle.cq_theory.specs.SchemaData.{SchemaData as Schema};
ghost use Rattle.cq_theory.specs.Schema.{IsSchema};
ghost use Rattle.cq_theory.specs.Presentation.{IsPresentation};
ghost use Rattle.cq_theory.specs.Tables.{Tables, IsWellFormed, Satisfies, Initial, count_of};
ghost use Rattle.cq_theory.specs.Canonical.{canonical, canonical_assignment, row_term};
ghost use Rattle.cq_theory.specs.Listed.{IsLeastName};
ghost use Rattle.cq_instance.specs.Given.{IsModel, size_of};
ghost use Rattle.cq_instance.specs.InstanceData.{InstanceData, IsInstance};
ghost use Rattle.cq_instance.specs.Listed.{IsListed};
ghost use Rattle.cq_instance.specs.Spelling.{AreNullsSpelled, null_term_of};

/// Well-formed tables that satisfy their schema are the initial model of their canonical presentation, where the
/// generator of each row stands for the row. No lesser term than this generator names the row. Within the limits on
/// terms and on the number of generators the presentation is one over the schema.
pub fn canonical_presents()
    ensures initial { (S : Schema) (M : Tables) → IsSchema S → IsWellFormed S M → Satisfies S M
        → Initial S (canonical S M) M (canonical_assignment S M) }
    ensures least { (S : Schema) (M : Tables) → IsSchema S → IsWellFormed S M → (entity row : ℕ)
        → row < count_of M entity → IsLeastName S (canonical S M) M (canonical_assignment S M) entity row
        (row_term S M entity row) }
    ensures presentation { (S : Schema) (M : Tables) → IsSchema S → IsModel S M → size_of M ≤ 16000000
        → IsPresentation S (canonical S M) }
{}

/// In an instance of given tables, and in a listed one, the term of each null has the null's type and means it.
pub fn null_terms_spell()
    ensures given { (i : InstanceData) → IsSchema i.schema → IsInstance i → i.given ≡ true
        → AreNullsSpelled i (null_term_of i) }
    ensures listed { (i : InstanceData) → IsSchema i.schema → IsInstance i → IsListed i
        → AreNullsSpelled i (null_term_of i) }
{}
