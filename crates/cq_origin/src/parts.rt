//! Places in lists that stand behind one another.
ghost use Rattle.std.specs.Prelude.{◌≡◌, ◌+◌, ◌≤◌, ◌<◌, None, IfSome, sum, take, slice_index};

/// Of several lists the number of one, and a place in it, both from 0.
#[derive(Clone, Copy, Debug, PartialEq, Eq)]
pub struct PartPlace {
    pub part: usize,
    pub place: u64,
}

/// In which of some lists of these lengths, that stand behind one another, a place is, and where in it. None where the
/// place is behind them all.
pub fn part_of(lengths: &[u64], place: u64) -> Option<PartPlace>
    ensures place { IfSome result (λ p. place ≡ sum (take p.part lengths.now) + p.place) }
    ensures within { IfSome result (λ p. p.place < slice_index lengths.now p.part) }
    ensures behind { result ≡ None → sum lengths.now ≤ place }
{
    let mut rest = place;
    for (part, length) in lengths.iter().enumerate() {
        if rest < *length {
            return Some(PartPlace { part, place: rest });
        }
        rest -= *length;
    }
    None
}
