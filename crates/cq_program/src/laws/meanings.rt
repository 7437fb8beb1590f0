//! A program and the files that it reads mean one thing.
ghost use Rattle.std.specs.Prelude.{◌≡◌, List, Some};
ghost use Rattle.cq_io.specs.Content.{File};
ghost use Rattle.cq_syntax.specs.declared.program.Program.{Program};
ghost use Rattle.cq_program.specs.Program.{Listing, Means};

/// Over some files a program means at most one list of instances: each has one name, one schema, one presentation and
/// one model.
pub fn one_meaning()
    ensures { (files : List File) (program : Program) (L M : List Listing) → Means (Some files) program L
        → Means (Some files) program M → L ≡ M }
{}
