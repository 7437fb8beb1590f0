//! A text means one thing, of which each instance is an initial model. Each law is the contract of a function that does
//! nothing.
ghost use Rattle.std.specs.Prelude.{◌≡◌, ℕ, List, Some};
ghost use Rattle.cq_io.specs.Content.{File};
ghost use Rattle.cq_program.specs.Initial.{AreInitial};
ghost use Rattle.cq_program.specs.Program.{Listing};
ghost use Rattle.cq_program.specs.Folders.{Told};
ghost use Rattle.cq_run.specs.Meaning.{Means, transcripts_of};

/// Over the files of a folder a text means at most one list of instances, so that there is one transcript of it.
pub fn one_transcript()
    ensures meaning { (files : List File) (text : List ℕ) (L M : List Listing)
        → Means (Some files) text L → Means (Some files) text M → L ≡ M }
    ensures transcript { (files : List File) (text : List ℕ) (L M : List Listing)
        → Means (Some files) text L → Means (Some files) text M → transcripts_of L ≡ transcripts_of M }
{}

/// Each instance that a text means, and so each that a run prints and exports, is the initial model of its
/// presentation: it satisfies the equations of its schema, each of its rows and nulls is named by a term, and two terms
/// name one row or one value exactly where their equality is derivable. The presentation of a delta or of an eval is
/// the canonical one of its tables.
pub fn each_is_initial()
    ensures { (told : Told) (text : List ℕ) (L : List Listing) → Means told text L → AreInitial L }
{}
