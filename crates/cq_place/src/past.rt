//! What leads past a text, to the column behind it.
ghost use Rattle.std.specs.Prelude.{◌≡◌, ◌++◌, ◌≤◌, OnOk, codes, replicate};
ghost use Rattle.std.specs.List.{flat_map};
ghost use Rattle.std.specs.Str.{chars};
ghost use Rattle.cq_place.specs.Shown.{past, past_byte, past_char};

use std::alloc::AllocError;
use unicode_width::UnicodeWidthChar;

/// Appends what leads past these bytes: each tab as it is, and else blanks, as many as the text is wide. Bytes that
/// are no text have a column each.
pub(crate) fn append_past(bytes: &[u8], out: &mut Vec<u8>) -> Result<(), AllocError>
    ensures { OnOk result (out.new.items ≡ out.old.items ++ past bytes.now) }
{
    match std::str::from_utf8(bytes) {
        Ok(text) => append_past_text(text, out),
        Err(_) => append_past_bytes(bytes, out),
    }
}

fn append_past_text(text: &str, out: &mut Vec<u8>) -> Result<(), AllocError>
    ensures { OnOk result (out.new.items ≡ out.old.items ++ flat_map past_char (chars text.now)) }
{
    for c in text.chars() {
        append_past_char(c, out)?;
    }
    Ok(())
}

fn append_past_char(c: char, out: &mut Vec<u8>) -> Result<(), AllocError>
    ensures { OnOk result (out.new.items ≡ out.old.items ++ past_char c) }
{
    if c == '\t' {
        out.extend_from_slice(b"\t")?;
        return Ok(());
    }
    let width = UnicodeWidthChar::width(c).unwrap_or(0);
    append_blanks(width, out)
}

fn append_past_bytes(bytes: &[u8], out: &mut Vec<u8>) -> Result<(), AllocError>
    ensures { OnOk result (out.new.items ≡ out.old.items ++ flat_map past_byte bytes.now) }
{
    for byte in bytes {
        append_past_byte(*byte, out)?;
    }
    Ok(())
}

fn append_past_byte(byte: u8, out: &mut Vec<u8>) -> Result<(), AllocError>
    ensures { OnOk result (out.new.items ≡ out.old.items ++ past_byte byte) }
{
    let past = if byte == b'\t' { b'\t' } else { b' ' };
    out.push(past)?;
    Ok(())
}

/// Appends so many blanks.
pub(crate) fn append_blanks(count: usize, out: &mut Vec<u8>) -> Result<(), AllocError>
    ensures { OnOk result (out.new.items ≡ out.old.items ++ replicate count 32) }
{
    for _blank in 0..count {
        out.push(b' ')?;
    }
    Ok(())
}
