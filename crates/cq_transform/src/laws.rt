//! Laws of transforms. Each is the contract of a function that does nothing.
ghost use Rattle.std.specs.Prelude.{ℕ, List, ◌≡◌};
ghost use Rattle.cq_theory.specs.SchemaData.{SchemaData as Schema};
ghost use Rattle.cq_theory.specs.declared.presentation.Presentation.{Presentation};
ghost use Rattle.cq_theory.specs.declared.value.Value.{Value};
ghost use Rattle.cq_theory.specs.Canonical.{canonical};
ghost use Rattle.cq_theory.specs.Presentation.{IsPresentation};
ghost use Rattle.cq_theory.specs.Schema.{IsSchema};
ghost use Rattle.cq_theory.specs.Tables.{Tables, Assignment, Holds, Initial};
ghost use Rattle.cq_theory.specs.Homomorphism.{IsHomomorphism};
ghost use Rattle.cq_instance.specs.InstanceData.{InstanceData};
ghost use Rattle.cq_instance.specs.declared.transform.Transform.{Transform};
ghost use Rattle.cq_instance.specs.Given.{HasLeastNames};
ghost use Rattle.cq_instance.specs.Listed.{IsListed};
ghost use Rattle.cq_transform.specs.Agreement.{Agrees};
ghost use Rattle.cq_transform.specs.OneToOne.{AreOneToOne};

/// From the initial model of a presentation to tables in which the presentation holds there is exactly one
/// homomorphism that sends what each generator stands for to what it stands for there.
pub fn exactly_one()
    ensures some { (S : Schema) (P : Presentation) (M N : Tables) (A B : Assignment)
        → IsSchema S → Initial S P M A → Holds S P N B → (rows : List (List ℕ)) × (nulls : List Value)
        × IsHomomorphism S M N rows nulls × Agrees S P M N A B rows nulls }
    ensures one { (S : Schema) (P : Presentation) (M N : Tables) (A B : Assignment)
        → IsSchema S → Initial S P M A → Holds S P N B → (rows rows' : List (List ℕ)) (nulls nulls' : List Value)
        → IsHomomorphism S M N rows nulls → Agrees S P M N A B rows nulls
        → IsHomomorphism S M N rows' nulls' → Agrees S P M N A B rows' nulls'
        → (rows ≡ rows') × (nulls ≡ nulls') }
{}

/// The names of a listed model are least ones, so that transforms can be made from it.
pub fn names_of_listed()
    ensures { (i : InstanceData) → IsListed i → HasLeastNames i }
{}

/// Between an instance and any that presents its tables canonically, each the initial model of its presentation, there
/// are transforms both ways, each of which undoes the other.
pub fn canonical_is_one_to_one()
    ensures { (i j : InstanceData) → IsSchema i.schema → IsPresentation i.schema i.presentation
        → Initial i.schema i.presentation i.tables i.assignment
        → IsPresentation i.schema (canonical i.schema i.tables)
        → j.schema ≡ i.schema → j.presentation ≡ canonical i.schema i.tables
        → Initial j.schema j.presentation j.tables j.assignment
        → (f : Transform) × (g : Transform) × AreOneToOne i j f g }
{}
