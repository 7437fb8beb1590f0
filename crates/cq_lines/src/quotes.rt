//! Quotes that stay open.
ghost use Rattle.std.specs.Prelude.{◌≡◌};
ghost use Rattle.csv.specs.declared.parser.State.TheVariants as State;
ghost use Rattle.cq_lines.specs.Quotes.{is_open, is_quoted};
ghost use Rattle.cq_lines.specs.Stands.{state_of};

use crate::stand::{Stand, step};

fn is_in_quotes(stand: Stand) -> bool
    ensures { result ≡ is_quoted (state_of stand) }
{
    match stand {
        Stand::Quoted => true,
        Stand::Record => false,
        Stand::Field => false,
        Stand::Bare => false,
        Stand::Closed => false,
        Stand::Returned => false,
    }
}

/// Whether the first record of a text, which begins with its first byte, opens a quote that is not closed before the
/// text ends.
pub fn is_left_open(text: &[u8]) -> bool
    ensures { result ≡ is_open State.StartRecord text.now }
{
    let mut stand = Stand::Record;
    for byte in text {
        let (next, ends) = step(stand, *byte);
        if ends {
            return false;
        }
        stand = next;
    }
    is_in_quotes(stand)
}
