//! The keys that a path repeats at its end.
ghost use Rattle.std.specs.Prelude.{ℕ, List, ◌≡◌, ◌+◌, ◌≤◌, length, MatchBool, MatchOption};
ghost use Rattle.cq_growth.specs.Repeats.{EndsTwice, IsShortest, IsTwice};

/// The last keys of a path, where the path ends with these keys twice.
fn twice_at_end(path: &[u32], count: usize) -> Option<&[u32]>
    requires { count + count ≤ length path.now }
    ensures { MatchOption result ((block : List ℕ) → length block ≡ count → EndsTwice path.now block → ⊥)
        (λ block. (length block.now ≡ count) × EndsTwice path.now block.now) }
{
    let (start, last) = path.split_at(path.len() - count);
    let (_start, before) = start.split_at(start.len() - count);
    if before == last {
        return Some(last);
    }
    None
}

/// The fewest keys, at least one, that a path repeats at its end: it ends with them twice, and with no fewer ones.
pub fn repeated_keys(path: &[u32]) -> Option<&[u32]>
    ensures { MatchOption result ((block : List ℕ) → IsTwice path.now block → ⊥)
        (λ block. IsShortest path.now block.now) }
{
    for count in 1..path.len() / 2 + 1 {
        if let Some(block) = twice_at_end(path, count) {
            return Some(block);
        }
    }
    None
}
