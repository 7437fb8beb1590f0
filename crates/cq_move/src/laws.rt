//! Laws of tables that are pulled back. Each is the contract of a function that does nothing.
ghost use Rattle.std.specs.Prelude.{ℕ, List, [], ◌∷◌, ◌≡◌, ◌<◌, Some};
ghost use Rattle.cq_theory.specs.Schema.{one_of};
ghost use Rattle.cq_theory.specs.Sorts.{target_of, type_of};
ghost use Rattle.cq_theory.specs.Tables.{Tables, AtRow, IsWellFormed, Satisfies, count_of, row_from, value_of};
ghost use Rattle.cq_theory.specs.declared.term.TypeTerm.{TypeTerm};
ghost use Rattle.cq_mapping.specs.MappingData.{MappingData as Mapping};
ghost use Rattle.cq_mapping.specs.Mapping.{IsMapping};
ghost use Rattle.cq_mapping.specs.Images.{entity_image, path_image, type_image};
ghost use Rattle.cq_mapping.specs.Duties.{Preserves};
ghost use Rattle.cq_mapping.specs.Moved.{delta_tables};

/// Tables over the target of a mapping that satisfy it are pulled back to well-formed tables over the source, which
/// satisfy the source where the mapping preserves equality.
pub fn pulled_back_models()
    ensures well_formed { (F : Mapping) (M : Tables) → IsMapping F → IsWellFormed F.target M → Satisfies F.target M
        → IsWellFormed F.source (delta_tables F M) }
    ensures satisfies { (F : Mapping) (M : Tables) → IsMapping F → Preserves F → IsWellFormed F.target M
        → Satisfies F.target M → Satisfies F.source (delta_tables F M) }
{}

/// A path that is followed in the tables that are pulled back leads where its image leads, and a term over one
/// variable means what its image means.
pub fn pulled_back_terms()
    ensures paths { (F : Mapping) (M : Tables) → IsMapping F → IsWellFormed F.target M
        → (path : List ℕ) (entity target row : ℕ) → target_of F.source.keys path entity ≡ Some target
        → row < count_of M (entity_image F entity) → row_from (delta_tables F M) row path ≡ row_from M row
        (path_image F path) }
    ensures terms { (F : Mapping) (M : Tables) → IsMapping F → IsWellFormed F.target M
        → (t : TypeTerm) (entity type row : ℕ) → type_of F.source (one_of entity) t ≡ Some type
        → row < count_of M (entity_image F entity) → value_of (delta_tables F M) (AtRow row ∷ []) t ≡ value_of M
        (AtRow row ∷ []) (type_image F t) }
{}
