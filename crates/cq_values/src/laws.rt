//! Laws of value texts. Each is the contract of a function that does nothing.
ghost use Rattle.std.specs.Prelude.{ℕ, List, ◌≡◌};
ghost use Rattle.cq_theory.specs.TypesideData.{TypesideData as Typeside};
ghost use Rattle.cq_theory.specs.declared.value.Value.{Value};
ghost use Rattle.cq_theory.specs.Typeside.{IsTypeside};
ghost use Rattle.cq_theory.specs.ValueText.{value_text};
ghost use Rattle.cq_values.specs.Readable.{IsRead, IsReadable};
ghost use Rattle.cq_values.specs.Reading.{value_in};

/// Two readable values of one type with one text are equal.
pub fn one_value()
    ensures { (T : Typeside) (sort : ℕ) (v w : Value) → IsTypeside T → IsReadable T sort v → IsReadable T sort w
        → value_text T v ≡ value_text T w → v ≡ w }
{}

/// What is read of a text is the readable value that has it, and nothing where there is none.
pub fn reading_is_exact()
    ensures { (T : Typeside) (sort : ℕ) (text : List ℕ) → IsTypeside T → IsRead T sort text (value_in T sort text) }
{}
