//! Merging of two rows, and of the pairs that follow.
ghost use Rattle.std.specs.Prelude.{◌≡◌, ◌≢◌, ℕ, ◌<◌, ◌⊎◌, length, OnOk, true};
ghost use Rattle.cq_tables.specs.Content.{live_of, entity_of, made_of, IsWhole};
ghost use Rattle.cq_rows.specs.Theory.{Theory, Term, Derives};
ghost use Rattle.cq_rows.specs.Rows.{IsSound, IsImage, IsSame, live_count};
ghost use Rattle.cq_rows.specs.Entries.{rows_of, IsCurrent};

use crate::entries::Entries;
use crate::waiting::Waiting;
use cq_tables::Tables;
use std::alloc::{AllocError, Global};

// The row that is renamed and the one that is kept: of two the one that stands in more cells, so that fewer cells
// change, and of two that stand in as many the one with the lower number.
fn direction(tables: &Tables, a: u64, b: u64) -> (u64, u64)
    requires left { a < made_of tables.now }
    requires right { b < made_of tables.now }
    ensures { ((result.0 ≡ a) × (result.1 ≡ b)) ⊎ ((result.0 ≡ b) × (result.1 ≡ a)) }
{
    let held_a = tables.mentions(a);
    let held_b = tables.mentions(b);
    if held_a > held_b {
        return (b, a);
    }
    if held_a == held_b && a < b {
        return (b, a);
    }
    (a, b)
}

// Merges two rows, and the pairs that follow from it. The pairs wait as they were given, and are looked up in their
// turn.
pub fn merge(
    alloc: Global,
    tables: &mut Tables,
    rows: &mut Entries,
    waits: &mut Waiting,
    a: u64,
    b: u64,
) -> Result<(), AllocError>
    requires whole { IsWhole tables.old }
    requires current { IsCurrent tables.old rows.old }
    requires left { live_of tables.old a ≡ true }
    requires right { live_of tables.old b ≡ true }
    requires kinds { entity_of tables.old a ≡ entity_of tables.old b }
    requires differ { a ≢ b }
    ensures whole { OnOk result (IsWhole tables.new) }
    ensures current { OnOk result (IsCurrent tables.new rows.new) }
    ensures image { OnOk result ((rep : ℕ → ℕ) × IsImage tables.old tables.new (rows_of rows.old)
        (rows_of rows.new) rep IsSame) }
    ensures sound { OnOk result ((s : Theory) (terms : ℕ → Term) → IsSound s tables.old (rows_of rows.old) terms
        → length s.generators ≡ length (rows_of rows.old) → Derives s (terms a) (terms b)
        → IsSound s tables.new (rows_of rows.new) terms) }
    ensures fewer { OnOk result (live_count tables.new < live_count tables.old) }
{
    let mut pending = Vec::new(alloc);
    pending.push((a, b))?;
    while let Some((left, right)) = pending.pop() {
        let one = rows.get(left);
        let other = rows.get(right);
        if one == other {
            continue;
        }
        let (from, to) = direction(tables, one, other);
        let given = tables.rename(from, to)?;
        rows.rename(from, to);
        waits.renamed(from, to);
        pending.extend_from_slice(&given)?;
    }
    Ok(())
}
