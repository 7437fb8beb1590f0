//! Why a program is refused.
use cq_base::{Name, Seq};

/// The rule that a declaration breaks, with the details that its line shows. Texts are given by their bytes.
#[derive(Drop)]
pub enum Reason {
    /// The declared name is declared already.
    NameTaken,
    /// A used name isn't declared.
    NameUnknown,
    /// A used name stands for something of another kind.
    WrongKind,
    /// What a used name stands for doesn't fit the schema or the typeside of the others.
    WrongSchema,
    /// Two transforms that are pushed out start in two instances.
    NotASpan,
    /// An end of a transform that is moved isn't declared by the operation that moves it.
    WrongOperand,
    /// A part declares a name that stands already in its table.
    Duplicate,
    /// A name of a part isn't declared.
    Unknown,
    /// A symbol of a part is applied to another number of arguments than it has.
    WrongCount,
    /// Sorts of a part don't fit.
    WrongSort,
    /// A constant is empty or begins with `?` or `=`.
    Reserved,
    /// A term of a part has too many symbols, or the generators are too many.
    TooLarge,
    /// Nothing is given for this name.
    Missing(Name),
    /// The equation of this number isn't preserved.
    NotPreserved(u64),
    /// The equation of this number isn't decided within the depth.
    DutyDepth(u64),
    /// The equation of this number needs too many rows.
    DutyRows(u64),
    /// The equation of this number doesn't hold in the target.
    Broken(u64),
    /// The tables don't close within the depth.
    Depth,
    /// The tables have too many rows.
    TooManyRows,
    /// Two constants become equal.
    Inconsistent(Seq<u8>, Seq<u8>),
    /// What the declaration gives is too large.
    Oversized,
    /// The entity of this name gets too many rows.
    TooManyAnswers(Name),
    /// The parts of these numbers give one name twice.
    NameClash(u32, u32),
    /// The part of this number gives too long a name.
    LongName(u32),
    /// A record of a file can't be read.
    NotCsv(Seq<u8>, u32),
    /// The first record of a file is another than it must be.
    BadHeader(Seq<u8>),
    /// A cell of a file, by its record and column, means nothing.
    BadCell(Seq<u8>, u32, u32),
    /// A record of a file has an id that stood before.
    DoubleId(Seq<u8>, u32),
    /// A cell of a file, by its record and column, names no record.
    NoSuchId(Seq<u8>, u32, u32),
    /// The records are too many.
    ManyRecords,
}
