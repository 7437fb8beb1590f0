//! What closing at a depth means without depths.
ghost use Rattle.std.specs.Prelude.{ℕ, ◌↔◌};
ghost use Rattle.cq_theory.specs.SchemaData.{SchemaData as Schema};
ghost use Rattle.cq_theory.specs.declared.presentation.Presentation.{Presentation};
ghost use Rattle.cq_theory.specs.Schema.{IsSchema};
ghost use Rattle.cq_theory.specs.Presentation.{IsPresentation};
ghost use Rattle.cq_theory.specs.Closing.{Closes};
ghost use Rattle.cq_theory.specs.Finiteness.{IsFinite};

/// A presentation closes at some depth exactly if it has finitely many entity terms up to derivable equality.
pub fn closing_is_finiteness()
    ensures { (S : Schema) (P : Presentation) → IsSchema S → IsPresentation S P
        → ((k : ℕ) × Closes S P k) ↔ IsFinite S P }
{}
