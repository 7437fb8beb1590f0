//! Comments.
ghost use Rattle.std.specs.Prelude.{◌≡◌, drop};
ghost use Rattle.std.specs.List.{prefix_len};
ghost use Rattle.std.specs.Option.{option_map};
ghost use Rattle.cq_lex.specs.Place.{stays_on_line};
ghost use Rattle.cq_lex.specs.Front as found;

use crate::bytes::line_len;

/// The bytes from the end of the line on.
pub(crate) fn behind_line(bytes: &[u8]) -> &[u8]
    ensures { result.now ≡ drop (prefix_len stays_on_line bytes.now) bytes.now }
{
    bytes.split_at(line_len(bytes)).1
}

/// The bytes behind the end of a block comment.
pub(crate) fn behind_block(bytes: &[u8]) -> Option<&[u8]>
    ensures { option_map (λ rest. rest.now) result ≡ found.behind_block bytes.now }
{
    let mut rest = bytes;
    'bytes: while let [first, after @ ..] = rest {
        if let [second, behind @ ..] = after {
            if *first == b'*' && *second == b'/' {
                return Some(behind);
            }
        }
        rest = after;
    }
    None
}
