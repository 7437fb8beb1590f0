//! The place of a name among the tokens of a file.
ghost use Rattle.std.specs.Prelude.{◌≡◌, find};
ghost use Rattle.std.specs.Option.{option_copied};
ghost use Rattle.cq_known.specs.Spelled.{first_spelled, is_before, number_among, number_spelled, place_and_number};
ghost use Rattle.cq_known.specs.Spelled.{spells_from};

use cq_base::{Name, Place};
use cq_lex::{Kind, Token};

/// The place of the first token from a place on that spells one of these names, and the number of that name.
pub fn first_spelled(tokens: &[Token], from: Place, names: &[Name]) -> Option<(Place, usize)>
    ensures { result ≡ first_spelled tokens.now from names.now }
{
    match first_token(tokens, from, names) {
        Some(token) => place_and_number(token, names),
        None => None,
    }
}

/// The first token from a place on that spells one of these names.
fn first_token<'a>(tokens: &'a [Token], from: Place, names: &[Name]) -> Option<&'a Token>
    ensures { option_copied result ≡ find (spells_from from names.now) tokens.now }
{
    for token in tokens {
        if spells_from(token, from, names) {
            return Some(token);
        }
    }
    None
}

/// The place of a token, and the number of the name that it spells.
fn place_and_number(token: &Token, names: &[Name]) -> Option<(Place, usize)>
    ensures { result ≡ place_and_number names.now token.now }
{
    match number_spelled(token, names) {
        Some(number) => Some((token.place, number)),
        None => None,
    }
}

/// Whether a token stands at the place or behind it, and spells one of the names.
fn spells_from(token: &Token, from: Place, names: &[Name]) -> bool
    ensures { result ≡ spells_from from names.now token.now }
{
    !is_before(token.place, from) && number_spelled(token, names).is_some()
}

/// Whether a place stands before another.
fn is_before(place: Place, other: Place) -> bool
    ensures { result ≡ is_before place other }
{
    place.line < other.line || (place.line == other.line && place.col < other.col)
}

/// The number of the name that a token spells.
fn number_spelled(token: &Token, names: &[Name]) -> Option<usize>
    ensures { result ≡ number_spelled names.now token.now }
{
    match &token.kind {
        Kind::Word(name) => number_among(names, name),
        Kind::Text(name) => number_among(names, name),
        Kind::Mark(_) => None,
        Kind::End => None,
    }
}

/// The number of a name among some.
fn number_among(names: &[Name], word: &Name) -> Option<usize>
    ensures { result ≡ number_among names.now word.now }
{
    names.iter().position(|name| name == word)
}
