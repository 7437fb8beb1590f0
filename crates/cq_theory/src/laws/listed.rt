//! Laws of listed models.
ghost use Rattle.std.specs.Prelude.{◌≡◌};
ghost use Rattle.cq_theory.specs.SchemaData.{SchemaData as Schema};
ghost use Rattle.cq_theory.specs.declared.presentation.Presentation.{Presentation};
ghost use Rattle.cq_theory.specs.Schema.{IsSchema};
ghost use Rattle.cq_theory.specs.Presentation.{IsPresentation};
ghost use Rattle.cq_theory.specs.Tables.{Tables, Assignment};
ghost use Rattle.cq_theory.specs.Listed.{Lists};

/// Two models that are listed for one presentation are equal. Their lists of names are equal, and each generator
/// stands for the same in both.
pub fn one_model()
    ensures model { (S : Schema) (P : Presentation) → IsSchema S → IsPresentation S P
        → (M N : Tables) (A B : Assignment) → Lists S P M A → Lists S P N B → M ≡ N }
    ensures assignment { (S : Schema) (P : Presentation) → IsSchema S → IsPresentation S P
        → (M N : Tables) (A B : Assignment) → Lists S P M A → Lists S P N B → A ≡ B }
    ensures names { (S : Schema) (P : Presentation) → IsSchema S → IsPresentation S P
        → (M N : Tables) (A B : Assignment) (m : Lists S P M A) (n : Lists S P N B) → m.names ≡ n.names }
{}
