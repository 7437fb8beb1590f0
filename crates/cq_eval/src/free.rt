//! Variables that no where equation is left to be tested of.
ghost use Rattle.std.specs.Prelude.{◌≡◌, ◌<◌, ◌≤◌, ◌+◌, drop, true};
ghost use Rattle.cq_eval.specs.Join.{combinations};

use cq_base::number_at;

/// The most answers for an entity.
pub(crate) const MOST_ANSWERS: usize = 1_000_000;

/// Whether there are over 1,000,000 answers, where so many are found and more begin in one way and go on with any rows
/// below the counts behind the first `bound`. A number that doesn't fit counts as the greatest that does.
pub(crate) fn is_over(found: usize, counts: &[u32], bound: usize) -> bool
    requires { found ≤ 1000000 }
    ensures { result ≡ true → 1000000 < found + combinations (drop bound counts.now) }
{
    let mut choices: u64 = 1;
    for place in bound..counts.len() {
        let count = number_at(counts, place);
        choices = choices.saturating_mul(count as u64);
    }
    choices > (MOST_ANSWERS - found) as u64
}
