//! Laws of what an instance gives and is read back: its files, its literal, its tables. Each is the contract of a
//! function that does nothing.
ghost use Rattle.std.specs.Prelude.{List, ◌≡◌, ◌≤◌, ℕ, [], None, Result, false, All, IfErr, IfOk, codes, map, sum};
ghost use Rattle.std.specs.List.{flat_map};
ghost use Rattle.cq_base.specs.declared.name.Name.{Name};
ghost use Rattle.cq_base.specs.Names.{same_name};
ghost use Rattle.cq_io.specs.Content.{File, path_of};
ghost use Rattle.cq_syntax.specs.declared.program.Decl.{Decl};
ghost use Rattle.cq_theory.specs.declared.presentation.Presentation.{Presentation};
ghost use Rattle.cq_theory.specs.Canonical.{canonical, canonical_assignment};
ghost use Rattle.cq_theory.specs.Schema.{IsSchema};
ghost use Rattle.cq_theory.specs.Tables.{Initial, Assignment, Tables};
ghost use Rattle.cq_theory.specs.Parts.{presentation_fault, presented};
ghost use Rattle.cq_theory.specs.Listed.{Lists};
ghost use Rattle.cq_theory.specs.SchemaData.{SchemaData as Schema};
ghost use Rattle.cq_instance.specs.Given.{size_of};
ghost use Rattle.cq_instance.specs.InstanceData.{InstanceData, IsInstance};
ghost use Rattle.cq_instance.specs.Listed.{IsListed};
ghost use Rattle.cq_instance.specs.declared.transform.Transform.{Transform};
ghost use Rattle.cq_import.specs.declared.refusal.CsvRefusal.{CsvRefusal};
ghost use Rattle.cq_import.specs.Entries.{IsImport2, fault2_of, imported2};
ghost use Rattle.cq_csv.specs.Files.{files_of};
ghost use Rattle.cq_text.specs.Literal.{literal_of};
ghost use Rattle.cq_transform.specs.OneToOne.{AreOneToOne};
ghost use Rattle.cq_return.specs.Accepted.{IsAccepted};
ghost use Rattle.cq_return.specs.Return.{HoldsFiles, IsNoFault, IsReturnable};
ghost use Rattle.cq_return.specs.Literals.{Declares, IsDeclaration, equation_part, group_parts};
ghost use Rattle.cq_return.specs.Writable.{IsWritable};
ghost use Rattle.cq_return.specs.WrittenTerms.{IsPlainName};

/// The files that `files` gives of an instance, found below some path, are read back by `import2` over the instance's
/// schema: there is no fault in them, and they give exactly the canonical presentation of the instance's tables.
///
/// What is asked for beyond what each instance has is named by `IsReturnable`. The schema is well sorted, as each
/// `Schema` is. Types, constants and functions have names of at most 255 bytes of UTF-8, and so has an open constant,
/// as each `Name` has; the name of a function is a word, as the language has it. There are at most 16,000,000 rows and
/// nulls together: `build` makes at most 200,000 rows, a file of at most 64 MiB has under 7,500,000 nulls, and `delta`
/// and `eval` refuse more. A value has at most 1,024 symbols: `build` puts constants and nulls into cells, and `delta`
/// and `eval` refuse more. A value has at most 64 levels; only `delta` and `eval` of built values may give more. Each
/// file has at most 64 MiB.
pub fn files_return()
    ensures reads { (i : InstanceData) (path name : Name) (files : List File) → IsInstance i → IsReturnable i
        → HoldsFiles files path name i → (fault2_of files (path_of path name) i.schema ≡ None)
        × (imported2 files (path_of path name) i.schema ≡ canonical i.schema i.tables) }

    // What `import2` may answer: this presentation, or that memory is wanting or a read failed.
    ensures answers { (i : InstanceData) (path name : Name) (files : List File) → IsInstance i → IsReturnable i
        → HoldsFiles files path name i → (result : Result Presentation CsvRefusal)
        → IsImport2 files (path_of path name) i.schema result
        → IfOk result (λ made. made ≡ canonical i.schema i.tables) × IfErr result IsNoFault }

    // Nothing is lost: the instance's tables are the model that is presented.
    ensures presents { (i : InstanceData) (path name : Name) (files : List File) → IsInstance i → IsReturnable i
        → HoldsFiles files path name i
        → Initial i.schema (imported2 files (path_of path name) i.schema) i.tables
        (canonical_assignment i.schema i.tables) }
{}

/// The files that `files` gives are themselves a folder in which each of them is found, since no two have one name:
/// the names of entities are distinct, and none is `entries-2`, which is no word.
pub fn files_are_held()
    ensures { (i : InstanceData) (name : Name) → IsSchema i.schema
        → All (λ entity. same_name entity (codes "entries-2") ≡ false) i.schema.entities
        → HoldsFiles (files_of name i) [] name i }
{}

/// The bytes that `literal` gives of an instance, under a name and over the name of a schema, are one declaration of
/// the language, wherever they stand in a file: that of an instance of this name by a literal over the schema of this
/// name. Its parts break no rule of presentations over the instance's schema, and give exactly the canonical
/// presentation of the instance's tables.
///
/// What is asked for beyond what each instance has is named by `IsWritable`. The schema is well sorted, as each
/// `Schema` is. The names, both given ones among them, are words of at most 255 bytes that aren't reserved, and each
/// function has an argument, as the language has it. Constants have at most 255 bytes of UTF-8, as each `Name` has.
/// There are at most 16,000,000 rows and nulls together, as a presentation has at most so many generators. A value has
/// at most 1,024 symbols: `build` puts constants and nulls into cells, and `delta` and `eval` refuse more. A value has
/// at most 64 levels; only `delta` and `eval` of built values may give more.
pub fn literal_returns()
    ensures declares { (i : InstanceData) (name schema : Name) → IsInstance i → IsWritable i → IsPlainName name
        → IsPlainName schema → (before : List ℕ)
        → IsDeclaration i.schema (canonical i.schema i.tables) name schema before (literal_of name schema i) }
    ensures gives { (i : InstanceData) (name schema : Name) → IsInstance i → IsWritable i → (d : Decl)
        → (declares : Declares i.schema (canonical i.schema i.tables) name schema d)
        → (presentation_fault i.schema (flat_map group_parts declares.literal.generators)
        (map equation_part declares.literal.equations) ≡ None)
        × (presented i.schema (flat_map group_parts declares.literal.generators)
        (map equation_part declares.literal.equations) ≡ canonical i.schema i.tables) }

    // Nothing is lost: the instance's tables are the model that is presented.
    ensures presents { (i : InstanceData) (name schema : Name) → IsInstance i → IsWritable i → (d : Decl)
        → (declares : Declares i.schema (canonical i.schema i.tables) name schema d)
        → Initial i.schema (presented i.schema (flat_map group_parts declares.literal.generators)
        (map equation_part declares.literal.equations)) i.tables (canonical_assignment i.schema i.tables) }
{}

/// The literal of an instance of at most 200,000 rows is accepted again, at each depth from 1 on: the presentation that
/// its declaration gives closes at each, is wide at none and makes no two constants equal. Between the instance and the
/// one that is then made of it there are transforms both ways, each of which undoes the other.
pub fn literal_is_accepted()
    ensures accepted { (i : InstanceData) (name schema : Name) → IsInstance i → IsWritable i
        → sum i.tables.sheet.counts ≤ 200000
        → (d : Decl) → (declares : Declares i.schema (canonical i.schema i.tables) name schema d)
        → IsAccepted i.schema (presented i.schema (flat_map group_parts declares.literal.generators)
        (map equation_part declares.literal.equations)) }
    ensures same { (i j : InstanceData) (name schema : Name) → IsInstance i → IsWritable i
        → Initial i.schema i.presentation i.tables i.assignment
        → (d : Decl) → (declares : Declares i.schema (canonical i.schema i.tables) name schema d)
        → j.schema ≡ i.schema → j.presentation ≡ presented i.schema
        (flat_map group_parts declares.literal.generators) (map equation_part declares.literal.equations)
        → IsListed j → (f : Transform) × (g : Transform) × AreOneToOne i j f g }
{}

/// So are the files of an instance, by `import2`.
pub fn files_are_accepted()
    ensures accepted { (i : InstanceData) (path name : Name) (files : List File) → IsInstance i → IsReturnable i
        → HoldsFiles files path name i → sum i.tables.sheet.counts ≤ 200000
        → IsAccepted i.schema (imported2 files (path_of path name) i.schema) }
    ensures same { (i j : InstanceData) (path name : Name) (files : List File) → IsInstance i → IsReturnable i
        → HoldsFiles files path name i → Initial i.schema i.presentation i.tables i.assignment
        → j.schema ≡ i.schema → j.presentation ≡ imported2 files (path_of path name) i.schema
        → IsListed j → (f : Transform) × (g : Transform) × AreOneToOne i j f g }
{}

/// The tables of a listed model, as `build` makes them, are the listed model of their canonical presentation too, with
/// each row and each null as what its generator stands for. So whatever is built of this presentation has the very
/// same tables: the same rows, nulls and entries, in the same order. That there are at most 16,000,000 rows and nulls
/// together is asked for by the limit on generators.
pub fn tables_return()
    ensures lists { (S : Schema) (P : Presentation) (M : Tables) (A : Assignment) → IsSchema S → Lists S P M A
        → Lists S (canonical S M) M (canonical_assignment S M) }
    ensures same { (i : InstanceData) (N : Tables) (B : Assignment) → IsInstance i → IsSchema i.schema → IsListed i
        → size_of i.tables ≤ 16000000 → Lists i.schema (canonical i.schema i.tables) N B → N ≡ i.tables }
{}
