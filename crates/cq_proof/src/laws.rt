//! Laws of lists of steps. Each is the contract of a function that does nothing.
ghost use Rattle.std.specs.Prelude.{ℕ, List, ◌≡◌};
ghost use Rattle.cq_theory.specs.SchemaData.{SchemaData as Schema};
ghost use Rattle.cq_theory.specs.declared.presentation.Equation.{Equation};
ghost use Rattle.cq_theory.specs.declared.presentation.Presentation.{Presentation};
ghost use Rattle.cq_steps.specs.declared.step.Step.{Step};
ghost use Rattle.cq_proof.specs.Answers.{IsDerivable, Proves};
ghost use Rattle.cq_proof.specs.Counting.{AreDigits};
ghost use Rattle.cq_proof.specs.Drafts.{spelled};
ghost use Rattle.cq_proof.specs.Written.{AreWritten};

/// Each derivable equation is the last of some right list.
pub fn listed()
    ensures { (S : Schema) (P : Presentation) (e : Equation) → IsDerivable S P e
        → (steps : List Step) × Proves S P steps e }
{}

/// Each list of steps is spelled by some numbers.
pub fn spellable()
    ensures { (steps : List Step) → AreWritten steps
        → (count : ℕ) × (numbers : List ℕ) × AreDigits count numbers × (spelled numbers ≡ steps) }
{}

/// Where a list of steps proves the equation, there is a count for which not all lists of as many numbers fail.
pub fn found()
    ensures { (S : Schema) (P : Presentation) (e : Equation) (steps : List Step) → AreWritten steps → Proves S P steps e
        → (count : ℕ) × (((numbers : List ℕ) → AreDigits count numbers → Proves S P (spelled numbers) e → ⊥) → ⊥) }
{}
