//! Laws of homomorphisms.
ghost use Rattle.cq_theory.specs.SchemaData.{SchemaData as Schema};
ghost use Rattle.cq_theory.specs.Tables.{Tables, IsWellFormed};
ghost use Rattle.cq_theory.specs.Homomorphism.{IsHomomorphism, identity_rows, identity_nulls};

/// The identity is a homomorphism.
pub fn identity()
    ensures { (S : Schema) (M : Tables) → IsWellFormed S M → IsHomomorphism S M M (identity_rows M) (identity_nulls M) }
{}
