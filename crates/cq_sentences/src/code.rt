//! The codes of refusals.
ghost use Rattle.std.specs.Prelude.{◌≡◌};
ghost use Rattle.cq_sentences.specs.Code.{number_of};

/// A rule that a file, or a question about it, may break. Two codes have the name `Duplicate`, and others share theirs:
/// here each has a name of its own.
#[derive(Clone, Copy, Debug, PartialEq, Eq)]
pub enum Code {
    BadByte,
    OpenText,
    OpenComment,
    LongName,
    Syntax,
    TooDeep,
    Unsupported,
    BadOption,
    NameTaken,
    NameUnknown,
    WrongKind,
    WrongSchema,
    NotASpan,
    WrongOperand,
    NoInstance,
    BadTerm,
    Duplicate,
    Unknown,
    WrongCount,
    WrongSort,
    Reserved,
    TooLarge,
    Missing,
    NotPreserved,
    DutyDepth,
    DutyRows,
    Broken,
    Depth,
    TooManyRows,
    Inconsistent,
    Oversized,
    TooManyAnswers,
    NameClash,
    JoinedName,
    NotCsv,
    BadHeader,
    BadCell,
    DoubleId,
    NoSuchId,
    ManyRecords,
}

/// Why a file wasn't read.
#[derive(Clone, Copy, Debug, PartialEq, Eq)]
pub enum Unread {
    Absent,
    TooLong,
    Failed,
}

impl Code {
    /// The number that the line of a refusal has.
    pub fn number(self) -> u8
        ensures { result ≡ number_of self }
    {
        match self {
            Code::BadByte => 11,
            Code::OpenText => 12,
            Code::OpenComment => 13,
            Code::LongName => 14,
            Code::Syntax => 21,
            Code::TooDeep => 22,
            Code::Unsupported => 23,
            Code::BadOption => 24,
            Code::NameTaken => 31,
            Code::NameUnknown => 32,
            Code::WrongKind => 33,
            Code::WrongSchema => 34,
            Code::NotASpan => 35,
            Code::WrongOperand => 36,
            Code::NoInstance => 37,
            Code::BadTerm => 38,
            Code::Duplicate => 41,
            Code::Unknown => 42,
            Code::WrongCount => 43,
            Code::WrongSort => 44,
            Code::Reserved => 45,
            Code::TooLarge => 46,
            Code::Missing => 47,
            Code::NotPreserved => 51,
            Code::DutyDepth => 52,
            Code::DutyRows => 53,
            Code::Broken => 54,
            Code::Depth => 61,
            Code::TooManyRows => 62,
            Code::Inconsistent => 63,
            Code::Oversized => 64,
            Code::TooManyAnswers => 65,
            Code::NameClash => 71,
            Code::JoinedName => 72,
            Code::NotCsv => 84,
            Code::BadHeader => 85,
            Code::BadCell => 86,
            Code::DoubleId => 87,
            Code::NoSuchId => 88,
            Code::ManyRecords => 89,
        }
    }
}
