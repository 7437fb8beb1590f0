//! The code of each rule.
ghost use Rattle.std.specs.Prelude.{◌≡◌};
ghost use Rattle.cq_sentences.specs.Code.{number_of};
ghost use Rattle.cq_environment.specs.Lines.{code_of};

use cq_environment::{ReadCause, Reason};
use cq_sentences::{Code, Unread};

/// The code of a rule that a declaration breaks: that which the line of the refusal has.
pub fn code_of(reason: &Reason) -> Code
    ensures { number_of result ≡ code_of reason.now }
{
    match reason {
        Reason::NameTaken => Code::NameTaken,
        Reason::NameUnknown => Code::NameUnknown,
        Reason::WrongKind => Code::WrongKind,
        Reason::WrongSchema => Code::WrongSchema,
        Reason::NotASpan => Code::NotASpan,
        Reason::WrongOperand => Code::WrongOperand,
        Reason::Duplicate => Code::Duplicate,
        Reason::Unknown => Code::Unknown,
        Reason::WrongCount => Code::WrongCount,
        Reason::WrongSort => Code::WrongSort,
        Reason::Reserved => Code::Reserved,
        Reason::TooLarge => Code::TooLarge,
        Reason::Missing(_) => Code::Missing,
        Reason::NotPreserved(_) => Code::NotPreserved,
        Reason::DutyDepth(_) => Code::DutyDepth,
        Reason::DutyRows(_) => Code::DutyRows,
        Reason::Broken(_) => Code::Broken,
        Reason::Depth => Code::Depth,
        Reason::TooManyRows => Code::TooManyRows,
        Reason::Inconsistent(_, _) => Code::Inconsistent,
        Reason::Oversized => Code::Oversized,
        Reason::TooManyAnswers(_) => Code::TooManyAnswers,
        Reason::NameClash(_, _) => Code::NameClash,
        Reason::LongName(_) => Code::JoinedName,
        Reason::NotCsv(_, _) => Code::NotCsv,
        Reason::BadHeader(_) => Code::BadHeader,
        Reason::BadCell(_, _, _) => Code::BadCell,
        Reason::DoubleId(_, _) => Code::DoubleId,
        Reason::NoSuchId(_, _, _) => Code::NoSuchId,
        Reason::ManyRecords => Code::ManyRecords,
    }
}

/// Why a file wasn't read, as it is told.
pub(crate) fn unread_of(cause: ReadCause) -> Unread {
    match cause {
        ReadCause::Absent => Unread::Absent,
        ReadCause::TooLong => Unread::TooLong,
        ReadCause::Failed => Unread::Failed,
    }
}
