//! A file's tokens and refusals, written out.
use cq_lex::{Kind, LexRefusal, Token, lex};
use std::alloc::{AllocError, Global};
use std::process::Abort;

// A file, and its tokens or its refusal. A token is its kind, its span and its place.
static FILES: [(&[u8], &str); 37] = [
    (b"", "End 0-0 1:1"),
    (b"{", "LeftBrace 0-1 1:1 End 1-1 1:2"),
    (b"}", "RightBrace 0-1 1:1 End 1-1 1:2"),
    (b"(", "LeftParen 0-1 1:1 End 1-1 1:2"),
    (b")", "RightParen 0-1 1:1 End 1-1 1:2"),
    (b"[", "LeftBracket 0-1 1:1 End 1-1 1:2"),
    (b"]", "RightBracket 0-1 1:1 End 1-1 1:2"),
    (b":", "Colon 0-1 1:1 End 1-1 1:2"),
    (b";", "Semicolon 0-1 1:1 End 1-1 1:2"),
    (b",", "Comma 0-1 1:1 End 1-1 1:2"),
    (b".", "Dot 0-1 1:1 End 1-1 1:2"),
    (b"=", "Equals 0-1 1:1 End 1-1 1:2"),
    (b"+", "Plus 0-1 1:1 End 1-1 1:2"),
    (b"->", "Arrow 0-2 1:1 End 2-2 1:3"),
    (
        b"a.b->c",
        "word a 0-1 1:1 Dot 1-2 1:2 word b 2-3 1:3 Arrow 3-5 1:4 word c 5-6 1:6 End 6-6 1:7",
    ),
    (
        b"Az_$09 9",
        "word Az_$09 0-6 1:1 word 9 7-8 1:8 End 8-8 1:9",
    ),
    (b" \t\r\n x\n", "word x 5-6 2:2 End 7-7 3:1"),
    (
        b"a// b \xff\nc",
        "word a 0-1 1:1 word c 8-9 2:1 End 9-9 2:2",
    ),
    (b"// a", "End 4-4 1:5"),
    (b"/* a /* \xff\n**/b*/", "BadByte 2:5"),
    (b"/* a /* \n**/b", "word b 12-13 2:4 End 13-13 2:5"),
    (b"/**/a", "word a 4-5 1:5 End 5-5 1:6"),
    (b"/*/ a", "OpenComment 1:1"),
    (b"a /", "BadByte 1:3"),
    (b"a / /", "BadByte 1:3"),
    (b"a - b", "BadByte 1:3"),
    (b"a\n\xc3\xa9", "BadByte 2:1"),
    (b"\"\"", "text  0-2 1:1 End 2-2 1:3"),
    (
        b"\"\xc3\xa9\" b",
        "text \u{e9} 0-4 1:1 word b 5-6 1:6 End 6-6 1:7",
    ),
    (
        b"\"\\\"\\\\\\n\\t\\r\"",
        "text \"\\\n\t\r 0-12 1:1 End 12-12 1:13",
    ),
    (b"\"a\nb\"c", "text a\nb 0-5 1:1 word c 5-6 2:3 End 6-6 2:4"),
    (b"x \"a\nb\\x\"", "BadByte 2:3"),
    (b"x \"ab", "OpenText 1:3"),
    (b"x \"ab\\", "OpenText 1:3"),
    (b"x \"\xff", "OpenText 1:3"),
    (b"x \"\xff\" @", "BadByte 1:3"),
    (b"x \"\xff\\a\"", "BadByte 1:6"),
];

fn write_kind(out: &mut String, kind: &Kind) -> Result<(), AllocError> {
    match kind {
        Kind::Word(name) => write!(out, "word {}", name.as_str()),
        Kind::Text(name) => write!(out, "text {}", name.as_str()),
        Kind::Mark(mark) => write!(out, "{mark:?}"),
        Kind::End => write!(out, "End"),
    }
}

fn write_token(out: &mut String, token: &Token) -> Result<(), AllocError> {
    write_kind(out, &token.kind)?;
    let Token {
        from,
        to,
        place,
        ..
    } = token;
    write!(out, " {from}-{to} {}:{}", place.line, place.col)
}

fn write_tokens(out: &mut String, tokens: &[Token]) -> Result<(), AllocError> {
    for token in tokens {
        if !out.is_empty() {
            write!(out, " ")?;
        }
        write_token(out, token)?;
    }
    Ok(())
}

fn write_refusal(out: &mut String, refusal: LexRefusal) -> Result<(), AllocError> {
    let (cause, place) = match refusal {
        LexRefusal::BadByte(place) => ("BadByte", place),
        LexRefusal::OpenText(place) => ("OpenText", place),
        LexRefusal::OpenComment(place) => ("OpenComment", place),
        LexRefusal::LongName(place) => ("LongName", place),
        LexRefusal::Memory => return Err(AllocError),
    };
    write!(out, "{cause} {}:{}", place.line, place.col)
}

fn shown(rt: &impl Abort, alloc: Global, bytes: &[u8]) -> String {
    assert!(rt; bytes.len() <= 1 << 23);
    let mut out = String::new(alloc);
    match lex(alloc, bytes) {
        Ok(tokens) => write_tokens(&mut out, tokens.as_slice()),
        Err(refusal) => write_refusal(&mut out, refusal),
    }
    .expect(rt, "memory");
    out
}

// Stops where a file is read otherwise.
fn try_file(rt: &impl Abort, alloc: Global, bytes: &[u8], wanted: &str) {
    let given = shown(rt, alloc, bytes);
    assert_eq!(rt; given.as_str(), wanted);
}

#[test]
fn files_are_read_as_written_here(rt: HostRuntime) {
    for (bytes, wanted) in &FILES {
        try_file(&rt, rt.alloc(), bytes, wanted);
    }
}

// The front, so many of the byte, and the back.
fn around(
    rt: &impl Abort,
    alloc: Global,
    front: &[u8],
    (byte, count): (u8, usize),
    back: &[u8],
) -> Vec<u8> {
    let mut bytes = Vec::from_slice(alloc, front).expect(rt, "memory");
    let times = vec![in alloc; byte; count].expect(rt, "memory");
    bytes
        .extend_from_slice(times.as_slice())
        .expect(rt, "memory");
    bytes.extend_from_slice(back).expect(rt, "memory");
    bytes
}

// A front, a byte and how often it stands behind that, a back; and the refusal.
static LONG: [(&[u8], u8, usize, &[u8], &str); 5] = [
    (b"", b'a', 256, b"", "LongName 1:1"),
    (b"\n ", b'a', 256, b" @", "LongName 2:2"),
    (b"\n \"", b'a', 256, b"\"", "LongName 2:2"),
    (b"\"\\n", b'a', 255, b"\"", "LongName 1:1"),
    (b"\"", 0xff, 256, b"\"", "BadByte 1:1"),
];

#[test]
fn a_name_of_256_bytes_is_refused(rt: HostRuntime) {
    let alloc = rt.alloc();
    for (front, byte, count, back, wanted) in &LONG {
        let bytes = around(&rt, alloc, front, (*byte, *count), back);
        try_file(&rt, alloc, bytes.as_slice(), wanted);
    }
}

fn longest(rt: &impl Abort, alloc: Global) -> String {
    let bytes = around(rt, alloc, b"\"\\n", (b'a', 254), b"\"+");
    shown(rt, alloc, bytes.as_slice())
}

#[test]
fn a_name_has_255_bytes(rt: HostRuntime) {
    let end = " 0-258 1:1 Plus 258-259 1:259 End 259-259 1:260";
    assert!(rt; longest(&rt, rt.alloc()).as_str().ends_with(end));
}
