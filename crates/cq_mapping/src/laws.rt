//! Laws of images. Each is the contract of a function that does nothing.
ghost use Rattle.std.specs.Prelude.{◌≡◌, Some};
ghost use Rattle.cq_theory.specs.SchemaData.{SchemaData as Schema};
ghost use Rattle.cq_theory.specs.declared.presentation.Presentation.{Presentation};
ghost use Rattle.cq_theory.specs.declared.presentation.Sort.{Sort};
ghost use Rattle.cq_theory.specs.declared.term.Term.{Term};
ghost use Rattle.cq_theory.specs.Sorts.{Generators, sort_of};
ghost use Rattle.cq_theory.specs.Schema.{IsSchema};
ghost use Rattle.cq_theory.specs.Derivation.{Derives};
ghost use Rattle.cq_mapping.specs.MappingData.{MappingData as Mapping};
ghost use Rattle.cq_mapping.specs.Images.{term_image, sort_image, generator_images, sigma};
ghost use Rattle.cq_mapping.specs.Mapping.{IsMapping, identity_of};
ghost use Rattle.cq_mapping.specs.Duties.{Preserves};

/// The image of a term has the image of the term's sort.
pub fn sorts_of_images()
    ensures { (F : Mapping) → IsMapping F → (G : Generators) (t : Term) (sort : Sort) → sort_of F.source G t ≡ Some sort
        → sort_of F.target (generator_images F G) (term_image F t) ≡ Some (sort_image F sort) }
{}

/// Where a mapping preserves equality, the image of what is derivable from a presentation is derivable from the
/// presentation's image.
pub fn images_of_derived()
    ensures { (F : Mapping) → IsMapping F → Preserves F → (P : Presentation) (t u : Term) → Derives F.source P t u
        → Derives F.target (sigma F P) (term_image F t) (term_image F u) }
{}

/// The identity preserves equality.
pub fn identity_preserves()
    ensures { (S : Schema) → IsSchema S → Preserves (identity_of S) }
{}
