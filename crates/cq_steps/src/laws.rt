//! Laws of right lists. Each is the contract of a function that does nothing.
ghost use Rattle.std.specs.Prelude.{ℕ, List, Some, ◌≡◌, slice_get};
ghost use Rattle.cq_theory.specs.SchemaData.{SchemaData as Schema};
ghost use Rattle.cq_theory.specs.declared.presentation.Presentation.{Presentation};
ghost use Rattle.cq_theory.specs.Derivation.{Derives, left_of, right_of};
ghost use Rattle.cq_steps.specs.declared.step.Step.{Step};
ghost use Rattle.cq_steps.specs.Right.{Right};

/// Each equation of a right list is derivable.
pub fn right_steps()
    ensures { (S : Schema) (P : Presentation) (steps : List Step) → Right S P steps → (n : ℕ) (step : Step)
        → slice_get steps n ≡ Some step → Derives S P (left_of step.equation) (right_of step.equation) }
{}
