//! Sentences with names filled in.
ghost use Rattle.std.specs.Prelude.{◌≡◌, ◌++◌, OnOk, IfOk, drop, map};
ghost use Rattle.cq_sentences.specs.Filled.{filled, left_behind, piece};

use std::alloc::AllocError;

/// Appends a sentence with these texts, one after the other, in the place of each `#`. Where they are too few, nothing
/// stands in the places that are left.
pub fn append_filled(sentence: &str, texts: &[&[u8]], out: &mut Vec<u8>) -> Result<(), AllocError>
    ensures { OnOk result (out.new.items ≡ out.old.items ++ filled sentence.now (map (λ text. text.now) texts.now)) }
{
    let mut used = 0;
    for byte in sentence.as_bytes() {
        used = append_byte(*byte, texts, used, out)?;
    }
    Ok(())
}

/// Appends a byte of a sentence, or in its place the first of the texts behind those that are used, and answers how
/// many are then used.
fn append_byte(
    byte: u8,
    texts: &[&[u8]],
    used: usize,
    out: &mut Vec<u8>,
) -> Result<usize, AllocError>
    ensures piece { OnOk result (out.new.items
        ≡ out.old.items ++ piece byte (drop used (map (λ text. text.now) texts.now))) }
    ensures left { IfOk result (λ next. drop next (map (λ text. text.now) texts.now)
        ≡ left_behind byte (drop used (map (λ text. text.now) texts.now))) }
{
    if byte != b'#' {
        out.push(byte)?;
        return Ok(used);
    }
    match texts.get(used) {
        Some(text) => {
            out.extend_from_slice(text)?;
            Ok(used + 1)
        }
        None => Ok(used),
    }
}
