//! Laws of the query of a mapping and of composites. Each is the contract of a function that does nothing.
pub mod composites;

ghost use Rattle.std.specs.Prelude.{false, ◌≡◌};
ghost use Rattle.cq_theory.specs.Tables.{Tables, IsWellFormed};
ghost use Rattle.cq_mapping.specs.MappingData.{MappingData as Mapping};
ghost use Rattle.cq_mapping.specs.Mapping.{IsMapping};
ghost use Rattle.cq_mapping.specs.Duties.{Preserves};
ghost use Rattle.cq_mapping.specs.Moved.{delta_tables};
ghost use Rattle.cq_query.specs.QueryData.{QueryData as Query};
ghost use Rattle.cq_query.specs.IsQuery.{IsQuery};
ghost use Rattle.cq_query.specs.Duties.{Sound};
ghost use Rattle.cq_query.specs.Answers.{IsEval};
ghost use Rattle.cq_compose.specs.Composite.{composite, is_large};
ghost use Rattle.cq_compose.specs.MappingQuery.{mapping_query};

/// The query of a mapping is well sorted.
pub fn sorted_query_of_mapping()
    ensures { (F : Mapping) → IsMapping F → IsQuery (mapping_query F) }
{}

/// The query of a mapping answers on tables of the mapping's target those that the mapping pulls back.
pub fn query_of_mapping_pulls_back()
    ensures { (F : Mapping) → IsMapping F → (M : Tables) → IsWellFormed F.target M
        → IsEval (mapping_query F) M (delta_tables F M) }
{}

/// A composite that is not too large is well sorted.
pub fn sorted_composites()
    ensures { (Q W : Query) → IsQuery Q → IsQuery W → Q.target ≡ W.source → is_large (composite Q W) ≡ false
        → IsQuery (composite Q W) }
{}

/// The query of a mapping that preserves equality is sound.
pub fn query_of_mapping_is_sound()
    ensures { (F : Mapping) → IsMapping F → Preserves F → Sound (mapping_query F) }
{}
