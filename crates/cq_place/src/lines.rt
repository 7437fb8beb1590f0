//! The lines of a file.
ghost use Rattle.std.specs.Prelude.{◌≡◌, ◌-◌, ◌≤◌, length};
ghost use Rattle.std.specs.List.{after_first, before_first, position_or_len};
ghost use Rattle.cq_place.specs.Lines.{behind_lines, is_line_end, line_of};

/// The line of a number, counted from 1, without its end. Behind the last line there are empty ones.
pub(crate) fn line_of(text: &[u8], number: u32) -> &[u8]
    ensures { result.now ≡ line_of text.now number }
{
    line_at_front(behind_lines(text, number.saturating_sub(1)))
}

/// What stands behind the first so many ends of lines.
fn behind_lines(text: &[u8], count: u32) -> &[u8]
    ensures { result.now ≡ behind_lines count text.now }
{
    let mut rest = text;
    for _line in 0..count {
        rest = behind_line(rest);
    }
    rest
}

/// What stands behind the first end of a line.
fn behind_line(text: &[u8]) -> &[u8]
    ensures { result.now ≡ after_first is_line_end text.now }
{
    let end = line_len(text);
    if end < text.len() {
        &text[end + 1..]
    } else {
        &text[end..]
    }
}

/// What stands before the first end of a line.
fn line_at_front(text: &[u8]) -> &[u8]
    ensures { result.now ≡ before_first is_line_end text.now }
{
    &text[..line_len(text)]
}

/// How many bytes stand before the first end of a line.
fn line_len(text: &[u8]) -> usize
    ensures len { result ≡ position_or_len is_line_end text.now }
    ensures within { result ≤ length text.now }
{
    text.iter().take_while(|byte| **byte != b'\n').count()
}
