//! Laws of transforms along mappings. Each is the contract of a function that does nothing.
ghost use Rattle.std.specs.Prelude.{ℕ, [], ◌∷◌, ◌≡◌, All, map};
ghost use Rattle.cq_theory.specs.Schema.{IsSchema};
ghost use Rattle.cq_theory.specs.Sorts.{Generators};
ghost use Rattle.cq_theory.specs.Tables.{Holds, Initial};
ghost use Rattle.cq_theory.specs.declared.term.TypeTerm.{TypeTerm};
ghost use Rattle.cq_mapping.specs.Duties.{Preserves};
ghost use Rattle.cq_mapping.specs.Images.{generator_images};
ghost use Rattle.cq_mapping.specs.MappingData.{MappingData as Mapping};
ghost use Rattle.cq_mapping.specs.Mapping.{IsMapping};
ghost use Rattle.cq_instance.specs.InstanceData.{InstanceData, IsInstance};
ghost use Rattle.cq_instance.specs.declared.transform.Transform.{Transform};
ghost use Rattle.cq_transform.specs.Nulls.{IsInitial};
ghost use Rattle.cq_transform.specs.Transforms.{GoesFrom};
ghost use Rattle.cq_adjoint.specs.Moved.{IsSigmaOf, IsDeltaOf};
ghost use Rattle.cq_transform.specs.Composing.{composed};
ghost use Rattle.cq_transform.specs.Identities.{identity_images};
ghost use Rattle.cq_adjoint.specs.Along.{IsAlongSigma, IsAlongDelta, SendAlike};
ghost use Rattle.cq_adjoint.specs.Moves.{image_along, delta_images, to_delta_images, from_delta_images};
ghost use Rattle.cq_adjoint.specs.Units.{identity_of, unit_images, counit_images};
ghost use Rattle.cq_adjoint.specs.Transposed.{Transposed};

/// There and back is the identity, both ways: two transforms into delta that are transposed to one out of sigma send
/// rows and nulls alike, and so do two out of sigma to which one into delta is transposed. So transforms out of sigma
/// correspond one to one to transforms into delta.
pub fn there_and_back()
    ensures into { (F : Mapping) (i a j d : InstanceData) (h k k' : Transform) → IsSchema i.schema → IsInitial i
        → GoesFrom k i d → GoesFrom k' i d → Transposed F i a j d h k → Transposed F i a j d h k'
        → (k.rows ≡ k'.rows) × (k.nulls ≡ k'.nulls) }
    ensures out_of { (F : Mapping) (i a j d : InstanceData) (h h' k : Transform) → IsMapping F → IsSigmaOf F i a
        → GoesFrom h a j → GoesFrom h' a j → Transposed F i a j d h k → Transposed F i a j d h' k
        → (h.rows ≡ h'.rows) × (h.nulls ≡ h'.nulls) }
{}

/// The unit is the transform into delta of an identity, and the counit the one out of sigma of an identity.
pub fn units_of_identities()
    ensures unit { (F : Mapping) (i x b : InstanceData) → IsSigmaOf F i x
        → to_delta_images F (identity_of x) i x x b ≡ unit_images i x b }
    ensures counit { (F : Mapping) (null_term : ℕ → TypeTerm) (i x : InstanceData)
        → Holds x.schema x.presentation x.tables x.assignment
        → from_delta_images F (identity_of x) null_term x i x ≡ counit_images F null_term i x }
{}

/// Along a mapping's sigma the images of an identity are those of one.
pub fn sigma_keeps_identities()
    ensures { (F : Mapping) (G : Generators) → map (image_along F) (identity_images G)
        ≡ identity_images (generator_images F G) }
{}

/// Along a mapping's delta the images of an identity are those of one.
pub fn delta_keeps_identities()
    ensures { (F : Mapping) (i a : InstanceData) → IsMapping F → IsInstance i → IsInstance a → IsDeltaOf F i a
        → Holds i.schema i.presentation i.tables i.assignment
        → delta_images F (identity_of i) i i a a ≡ identity_images a.presentation.generators }
{}

/// Along a mapping's delta the composite of two transforms becomes the composite of what they become.
pub fn delta_keeps_composites()
    ensures { (F : Mapping) (i j k a b c : InstanceData) (h g s t u : Transform) → IsMapping F
        → All IsInstance (i ∷ j ∷ k ∷ a ∷ b ∷ c ∷ []) → IsAlongDelta F i j a b h s → IsAlongDelta F j k b c g t
        → IsAlongDelta F i k a c (composed j k h g) u → SendAlike (composed b c s t) u }
{}

/// Along a mapping's sigma the composite of two transforms becomes the composite of what they become.
pub fn sigma_keeps_composites()
    ensures { (F : Mapping) (i j k a b c : InstanceData) (h g s t u : Transform) → IsMapping F → Preserves F
        → Initial k.schema k.presentation k.tables k.assignment → All IsInstance (i ∷ j ∷ k ∷ a ∷ b ∷ c ∷ [])
        → IsAlongSigma F i j a b h s → IsAlongSigma F j k b c g t → IsAlongSigma F i k a c (composed j k h g) u
        → SendAlike (composed b c s t) u }
{}
