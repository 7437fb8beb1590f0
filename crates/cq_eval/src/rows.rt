//! Rows for the variables of a block.
ghost use Rattle.std.specs.Prelude.{◌≡◌, nat_eq, Some};
ghost use Rattle.std.specs.Ordering.{nat_cmp};
ghost use Rattle.std.specs.Cmp.Lexicographic.{pointwise, nat_list_eq_equiv, nat_list_cmp_total};
ghost use Rattle.std.specs.Cmp.Lexicographic.{slice_cmp, texts_po, texts_ties};
ghost use Rattle.std.specs.Cmp.{partial_equiv_from_equiv};
ghost use Rattle.std.proofs.Common.{refl};

use std::cmp::Ordering;
use std::marker::Model;

/// A row for each variable of a block, in order. Contracts see the list of their numbers.
#[derive(Drop)]
pub(crate) struct Rows {
    rows: Vec<u32>,
}

impl Model for Rows {
    ghost use Rattle.std.specs.Prelude.{ℕ, List};

    ghost Value = { List ℕ };

    ghost view = { λ rows. rows.rows.items };
}

impl Rows {
    /// These rows, which takes no memory.
    pub(crate) fn from_vec(rows: Vec<u32>) -> Rows
        ensures { result ≡ rows.items }
    {
        Rows { rows }
    }

    /// The rows, which takes no memory.
    pub(crate) fn into_vec(self) -> Vec<u32>
        ensures { result.items ≡ self }
    {
        let Rows { rows } = self;
        rows
    }

    /// The rows.
    pub(crate) fn as_slice(&self) -> &[u32]
        ensures { result.now ≡ self.now }
    {
        self.rows.as_slice()
    }
}

impl PartialEq for Rows {
    ghost eq = { pointwise nat_eq };

    ghost laws = { partial_equiv_from_equiv nat_list_eq_equiv };

    fn eq(&self, other: &Rows) -> bool {
        self.as_slice() == other.as_slice()
    }
}

impl Eq for Rows {
    ghost laws = { nat_list_eq_equiv };
}

impl PartialOrd for Rows {
    ghost partial_cmp = { λ x y. Some (slice_cmp nat_cmp x y) };

    ghost laws = { texts_po };

    fn partial_cmp(&self, other: &Rows) -> Option<Ordering> {
        Some(self.cmp(other))
    }
}

impl Ord for Rows {
    ghost cmp = { slice_cmp nat_cmp };

    ghost total = { nat_list_cmp_total };

    ghost matches_partial_cmp = { λ x y. refl };

    ghost matches_eq = { λ x y. texts_ties x y };

    fn cmp(&self, other: &Rows) -> Ordering {
        self.as_slice().cmp(other.as_slice())
    }
}
