//! Escapes in quoted texts.
ghost use Rattle.std.specs.Prelude.{◌≡◌};
ghost use Rattle.cq_base.specs.Escapes as escapes;

/// The byte for which a backslash and this one stand: `"` and `\` for themselves, `n` for a line feed, `t` for a tab,
/// `r` for a carriage return. No other byte may stand behind a backslash.
pub fn unescape(byte: u8) -> Option<u8>
    ensures { result ≡ escapes.unescape byte }
{
    match byte {
        b'"' => Some(b'"'),
        b'\\' => Some(b'\\'),
        b'n' => Some(b'\n'),
        b't' => Some(b'\t'),
        b'r' => Some(b'\r'),
        _ => None,
    }
}
