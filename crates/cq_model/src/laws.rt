//! Laws of models that are read from closed rows and closed nodes. Each is the contract of a function that does
//! nothing.
ghost use Rattle.std.specs.Prelude.{ℕ, List, ◌≡◌, ◌≤◌, Some, None, sum};
ghost use Rattle.cq_tables.specs.Content.{Content};
ghost use Rattle.cq_flat.specs.declared.node.Node.{Node};
ghost use Rattle.cq_flat.specs.Values.{Closure};
ghost use Rattle.cq_theory.specs.SchemaData.{SchemaData as Schema};
ghost use Rattle.cq_theory.specs.declared.presentation.Presentation.{Presentation};
ghost use Rattle.cq_theory.specs.declared.term.EntTerm.{EntTerm};
ghost use Rattle.cq_theory.specs.Schema.{IsSchema};
ghost use Rattle.cq_theory.specs.Presentation.{IsPresentation};
ghost use Rattle.cq_theory.specs.declared.constant.Con.{Con};
ghost use Rattle.cq_theory.specs.Canonical.{canonical};
ghost use Rattle.cq_theory.specs.Closing.{Closes, IsInconsistent, IsInconsistentAt, IsWide};
ghost use Rattle.cq_theory.specs.Listed.{Lists};
ghost use Rattle.cq_theory.specs.Tables.{IsWellFormed, Satisfies, Tables};
ghost use Rattle.cq_model.specs.declared.places.Places.{Places};
ghost use Rattle.cq_names.specs.Closed.{AreClosed};
ghost use Rattle.cq_model.specs.Built.{IsBuilt, IsClosureOf, tables_of, assignment_of};

/// Tables whose rows are closed and stand in the order of their least names, and whose values are those of closed
/// nodes, are the listed model of the presentation, with these names. Where two constants clash, the presentation is
/// inconsistent at just these two.
pub fn read_models()
    ensures listed { (S : Schema) (P : Presentation) (m : Content) (rows : List ℕ) → IsSchema S → IsPresentation S P
        → AreClosed S P m rows
        → (order : List (List ℕ)) (names : List (List EntTerm)) (numbers : List ℕ) (places : Places) (nodes : List Node)
        (equations : List (ℕ × ℕ)) (types : List ℕ)
        → IsBuilt S P m rows order names numbers places nodes equations types
        → (flat : Closure) → IsClosureOf nodes equations flat → flat.clash ≡ None
        → (lists : Lists S P (tables_of S P m rows order numbers places types flat)
        (assignment_of S P m rows order numbers places flat.values)) × (lists.names ≡ names) }
    ensures inconsistent { (S : Schema) (P : Presentation) (m : Content) (rows : List ℕ) → IsSchema S
        → IsPresentation S P → AreClosed S P m rows
        → (order : List (List ℕ)) (names : List (List EntTerm)) (numbers : List ℕ) (places : Places) (nodes : List Node)
        (equations : List (ℕ × ℕ)) (types : List ℕ)
        → IsBuilt S P m rows order names numbers places nodes equations types
        → (flat : Closure) → IsClosureOf nodes equations flat
        → (c d : Con) → flat.clash ≡ Some (c, d) → IsInconsistentAt S P c d }
{}

/// The canonical presentation of well-formed tables closes at each depth from 1 on: a term equals the generator of its
/// row, within its own depth. So it is wide at no depth where the tables have at most 200,000 rows. Where they satisfy
/// their schema, it makes no two constants equal. So `build` refuses it for want of memory alone.
pub fn canonical_closes()
    ensures closes { (S : Schema) (M : Tables) → IsSchema S → IsWellFormed S M → (k : ℕ) → 1 ≤ k
        → Closes S (canonical S M) k }
    ensures narrow { (S : Schema) (M : Tables) → IsSchema S → IsWellFormed S M → sum M.sheet.counts ≤ 200000
        → (k : ℕ) → IsWide S (canonical S M) k → ⊥ }
    ensures consistent { (S : Schema) (M : Tables) → IsSchema S → IsWellFormed S M → Satisfies S M
        → IsInconsistent S (canonical S M) → ⊥ }
{}
