//! What is told of a fault.
ghost use Rattle.std.specs.Prelude.{◌≡◌, ◌++◌, IfOk};
ghost use Rattle.cq_place.specs.Shown.{shown_at};

use crate::page::{Page, append_remedy, append_sentence};
use crate::texts::quoted_text;
use cq_base::Place;
use cq_place::append_place;
use cq_sentences::Code;
use std::alloc::{AllocError, Global};

/// The place that is shown of a fault, and the words that follow.
#[derive(Drop)]
pub struct Telling {
    pub place: Place,
    pub words: Vec<u8>,
}

/// The sentence of a code at a place, and what there is to mend.
pub fn telling_at(alloc: Global, place: Place, code: Code) -> Result<Telling, AllocError>
    ensures { IfOk result (λ telling. telling.place ≡ place) }
{
    let mut words = Vec::new(alloc);
    append_sentence(code, &[], &mut words)?;
    append_remedy(code.remedy(), &mut words)?;
    Ok(Telling { place, words })
}

/// The sentence of a code with the token that stands at a place, and what there is to mend.
pub fn telling_at_token(
    alloc: Global,
    page: Page<'_>,
    place: Place,
    code: Code,
) -> Result<Telling, AllocError>
    ensures { IfOk result (λ telling. telling.place ≡ place) }
{
    let text = token_text(alloc, page, place)?;
    let mut words = Vec::new(alloc);
    append_sentence(code, &[text.as_slice()], &mut words)?;
    append_remedy(code.remedy(), &mut words)?;
    Ok(Telling { place, words })
}

/// What is written of the token at a place, between quotes.
fn token_text(alloc: Global, page: Page<'_>, place: Place) -> Result<Vec<u8>, AllocError> {
    let spelling = match page.token_at(place) {
        Some(token) => page.spelling(token),
        None => b"",
    };
    if spelling.is_empty() {
        Ok(Vec::from_slice(alloc, b"the end of the file")?)
    } else {
        quoted_text(alloc, spelling)
    }
}

/// The line of a text at the place, under it a caret, and the words.
pub fn shown(alloc: Global, text: &[u8], telling: &Telling) -> Result<Vec<u8>, AllocError>
    ensures { IfOk result (λ out.
        out.items ≡ shown_at text.now telling.now.place ++ telling.now.words.items) }
{
    let mut out = Vec::new(alloc);
    append_place(text, telling.place, &mut out)?;
    out.extend_from_slice(telling.words.as_slice())?;
    Ok(out)
}

/// Three texts, one behind the other.
pub fn one_text(front: Vec<u8>, middle: &[u8], back: &[u8]) -> Result<Vec<u8>, AllocError>
    ensures { IfOk result (λ made. made.items ≡ front.items ++ middle.now ++ back.now) }
{
    let mut made = front;
    made.extend_from_slice(middle)?;
    made.extend_from_slice(back)?;
    Ok(made)
}
