//! Names at their limit, texts that are shared, and a table of names.
use cq_base::{Name, NameRefusal, Names, NamesRefusal, SharedTexts};
use std::alloc::Global;
use std::process::Abort;

/// A text of so many letters.
fn letters(rt: &impl Abort, alloc: Global, count: usize) -> String {
    let mut text = String::new(alloc);
    for _ in 0..count {
        text.push('a').expect(rt, "memory");
    }
    text
}

/// Why a text of so many letters is no name.
fn refusal(rt: &impl Abort, alloc: Global, count: usize) -> Option<NameRefusal> {
    Name::new(alloc, letters(rt, alloc, count).as_str()).err()
}

#[test]
fn a_name_has_at_most_255_bytes(rt: HostRuntime) {
    for (length, wanted) in [(0, None), (255, None), (256, Some(NameRefusal::Long))] {
        assert!(rt; refusal(&rt, rt.alloc(), length) == wanted, "{length}");
    }
}

/// The number that a name is given, or why it is given none.
fn added(
    rt: &impl Abort,
    alloc: Global,
    names: &mut Names,
    text: &str,
) -> Result<u32, NamesRefusal> {
    let name = Name::new(alloc, text).expect(rt, "memory");
    assert!(rt; names.len() < 10);
    names.add(name)
}

/// Names in the order in which they are added, with their numbers.
static ADDED: [(&str, Result<u32, NamesRefusal>); 4] = [
    ("a", Ok(0)),
    ("", Ok(1)),
    ("a", Err(NamesRefusal::Taken(0))),
    ("b", Ok(2)),
];

#[test]
fn names_are_numbered_as_they_are_added(rt: HostRuntime) {
    let alloc = rt.alloc();
    let mut names = Names::new(alloc);
    for (text, wanted) in &ADDED {
        assert!(rt; added(&rt, alloc, &mut names, text) == *wanted, "{text}");
    }
    assert_eq!(rt; names.len(), 3);
}

/// Whether a text is a name twice where it is a name, and else refused alike.
fn is_shared(alloc: Global, texts: &mut SharedTexts, text: &str) -> bool {
    let first = texts.name(text);
    let second = texts.name(text);
    let wanted = Name::new(alloc, text);
    first == wanted && second == wanted
}

#[test]
fn shared_texts_are_names_of_at_most_255_bytes(rt: HostRuntime) {
    let alloc = rt.alloc();
    let mut texts = SharedTexts::new(alloc);
    for length in 0..=256 {
        let text = letters(&rt, alloc, length);
        assert!(rt; is_shared(alloc, &mut texts, text.as_str()), "{length}");
    }
}
