//! Laws of meanings and refusals. Each is the contract of a function that does nothing.
pub mod meanings;

ghost use Rattle.std.specs.Prelude.{◌≡◌, ℕ, List, Some};
ghost use Rattle.cq_io.specs.Content.{File};
ghost use Rattle.cq_base.specs.declared.place.Place.{Place};
ghost use Rattle.cq_syntax.specs.declared.program.Program.{Program};
ghost use Rattle.cq_theory.specs.declared.presentation.Presentation.{Presentation};
ghost use Rattle.cq_theory.specs.SchemaData.{SchemaData};
ghost use Rattle.cq_theory.specs.Schema.{IsSchema};
ghost use Rattle.cq_theory.specs.Closing.{IsInconsistent};
ghost use Rattle.cq_theory.specs.Listed.{Lists};
ghost use Rattle.cq_theory.specs.Tables.{Tables, Assignment};
ghost use Rattle.cq_environment.specs.declared.reason.Reason.{Reason};
ghost use Rattle.cq_environment.specs.declared.refusal.ReadCause.{ReadCause};
ghost use Rattle.cq_environment.specs.declared.refusal.ReadCause.TheVariants.{Failed};
ghost use Rattle.cq_program.specs.Program.{Breaks, IsLimit, IsWithinLimits, Lacks, Listing, Means, TellsClash};
ghost use Rattle.cq_program.specs.Program.{TellsUnkept};
ghost use Rattle.cq_mapping.specs.MappingData.{MappingData};

/// A program that has a meaning breaks no rule; only the depth and the limit on rows can keep it from being made or a
/// duty from being decided.
pub fn means_unbroken()
    ensures { (depth : ℕ) (files : List File) (program : Program) (L : List Listing) (place : Place) (reason : Reason)
        → Means (Some files) program L → Breaks depth (Some files) program place reason → IsLimit reason }
{}

/// A program that has a meaning and keeps the limits at a depth breaks nothing at it: each of its presentations
/// closes up to the depth and is never too wide, and each duty is derived within some depth up to it, up to which the
/// duty's presentation isn't too wide.
pub fn unbroken_within_limits()
    ensures { (depth : ℕ) (files : List File) (program : Program) (L : List Listing) (place : Place) (reason : Reason)
        → Means (Some files) program L → IsWithinLimits depth (Some files) program
        → Breaks depth (Some files) program place reason → ⊥ }
{}

/// A program breaks one rule first, at one place and with one reason, where it isn't a limit that is told.
pub fn one_refusal()
    ensures { (depth : ℕ) (files : List File) (program : Program) (place other_place : Place) (reason other : Reason)
        → Breaks depth (Some files) program place reason → Breaks depth (Some files) program other_place other
        → (IsLimit reason → ⊥) → (IsLimit other → ⊥) → (place ≡ other_place) × (reason ≡ other) }
{}

/// Where a program has a meaning over some files, each file that it reads is there and not too long: only a read that
/// fails can keep it from being read.
pub fn means_is_there()
    ensures { (files : List File) (program : Program) (L : List Listing) (file : List ℕ) (cause : ReadCause)
        → Means (Some files) program L → Lacks (Some files) program file cause → cause ≡ Failed }
{}

/// A presentation that makes constants equal tells one pair of them.
pub fn one_clash()
    ensures { (S : SchemaData) (P : Presentation) (reason other : Reason) → TellsClash S P reason → TellsClash S P other
        → reason ≡ other }
{}

/// A mapping that doesn't preserve equality tells one duty, the first that isn't derivable.
pub fn one_unkept()
    ensures { (F : MappingData) (reason other : Reason) → TellsUnkept F reason → TellsUnkept F other → reason ≡ other }
{}

/// A presentation that has a listed model makes no constants equal: equal constants would mean one value.
pub fn listed_is_consistent()
    ensures { (S : SchemaData) (P : Presentation) (M : Tables) (A : Assignment) → IsSchema S → Lists S P M A
        → IsInconsistent S P → ⊥ }
{}
