//! Places, counted along.
ghost use Rattle.std.specs.Prelude.{◌≡◌, ◌<◌, ◌≤◌, ◌^◌, ◌+◌, ℕ, List, length, ◌++◌, ◌∷◌, []};
ghost use Rattle.cq_lex.specs.Place.{place_behind};
ghost use Rattle.cq_lex.specs.Front as found;

use crate::fault::Fault;
use crate::refusal::LexRefusal;
use cq_base::Place;

/// The place of the first byte of a file.
pub(crate) fn start() -> Place
    ensures { result ≡ place_behind [] }
{
    Place { line: 1, col: 1 }
}

/// The place behind a byte that stands at `place`.
fn step(place: Place, byte: u8) -> Place
    requires line { place.line < 2 ^ 31 }
    requires col { place.col < 2 ^ 31 }
    ensures place { (before : List ℕ) → place ≡ place_behind before → result ≡ place_behind (before ++ byte ∷ []) }
    ensures line { result.line ≤ place.line + 1 }
    ensures col { result.col ≤ place.col + 1 }
{
    if byte == b'\n' {
        Place {
            line: place.line + 1,
            col: 1,
        }
    } else {
        Place {
            line: place.line,
            col: place.col + 1,
        }
    }
}

/// The place where `rest` begins, which ends `bytes`, where these begin at `place`.
pub(crate) fn advance(place: Place, bytes: &[u8], rest: &[u8]) -> Place
    requires line { place.line + length bytes.now < 2 ^ 31 }
    requires col { place.col + length bytes.now < 2 ^ 31 }
    requires inside { length rest.now ≤ length bytes.now }
    ensures { (before : List ℕ) → place ≡ place_behind before
        → result ≡ place_behind (before ++ found.passed bytes.now rest.now) }
{
    let mut here = place;
    for byte in &bytes[..bytes.len() - rest.len()] {
        here = step(here, *byte);
    }
    here
}

/// The refusal for a fault in `bytes`, which begin at `place`.
pub(crate) fn told(fault: Fault, place: Place, bytes: &[u8]) -> LexRefusal
    requires line { place.line + length bytes.now < 2 ^ 31 }
    requires col { place.col + length bytes.now < 2 ^ 31 }
    requires inside { found.LiesIn fault bytes.now }
    ensures { (before : List ℕ) → place ≡ place_behind before → result ≡ found.told fault.entry before bytes.now }
{
    match fault {
        Fault::Memory => LexRefusal::Memory,
        Fault::BadByte(at) => LexRefusal::BadByte(advance(place, bytes, at)),
        Fault::OpenText(at) => LexRefusal::OpenText(advance(place, bytes, at)),
        Fault::OpenComment(at) => LexRefusal::OpenComment(advance(place, bytes, at)),
        Fault::LongName(at) => LexRefusal::LongName(advance(place, bytes, at)),
    }
}
