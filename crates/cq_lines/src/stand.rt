//! Where a walk over a text stands in a record, byte by byte.
ghost use Rattle.std.specs.Prelude.{◌≡◌};
ghost use Rattle.csv.specs.Machine.{in_field as in_field_is, start_field as start_field_is, step as step_is};
ghost use Rattle.csv.specs.Machine.{start_record as start_record_is};
ghost use Rattle.csv.specs.Reading.{default_config};
ghost use Rattle.csv.specs.declared.parser.State.TheVariants as State;
ghost use Rattle.cq_lines.specs.Stands.{Moves, state_of};

/// Before a record, before a field, in a field without quotes, in a quoted one, behind its closing quote, or behind a
/// carriage return that ended a record.
#[derive(Clone, Copy, Debug, PartialEq, Eq)]
pub enum Stand {
    Record,
    Field,
    Bare,
    Quoted,
    Closed,
    Returned,
}

fn in_field(byte: u8) -> (Stand, bool)
    ensures { Moves result.0 result.1 (in_field_is default_config byte) }
{
    if byte == b',' {
        (Stand::Field, false)
    } else if byte == b'\r' {
        (Stand::Returned, true)
    } else if byte == b'\n' {
        (Stand::Record, true)
    } else {
        (Stand::Bare, false)
    }
}

fn start_field(byte: u8) -> (Stand, bool)
    ensures { Moves result.0 result.1 (start_field_is default_config byte) }
{
    if byte == b'"' {
        (Stand::Quoted, false)
    } else {
        in_field(byte)
    }
}

fn start_record(byte: u8) -> (Stand, bool)
    ensures { Moves result.0 result.1 (start_record_is default_config byte) }
{
    if byte == b'\r' {
        (Stand::Record, false)
    } else if byte == b'\n' {
        (Stand::Record, false)
    } else {
        start_field(byte)
    }
}

fn in_quotes(byte: u8) -> (Stand, bool)
    ensures { Moves result.0 result.1 (step_is default_config State.InQuoted byte) }
{
    if byte == b'"' {
        (Stand::Closed, false)
    } else {
        (Stand::Quoted, false)
    }
}

fn behind_quote(byte: u8) -> (Stand, bool)
    ensures { Moves result.0 result.1 (step_is default_config State.AfterQuote byte) }
{
    if byte == b'"' {
        (Stand::Quoted, false)
    } else {
        in_field(byte)
    }
}

fn behind_return(byte: u8) -> (Stand, bool)
    ensures { Moves result.0 result.1 (step_is default_config State.AfterCr byte) }
{
    if byte == b'\n' {
        (Stand::Record, false)
    } else {
        start_record(byte)
    }
}

/// Where one more byte leads, and whether it ends the record.
pub fn step(stand: Stand, byte: u8) -> (Stand, bool)
    ensures { Moves result.0 result.1 (step_is default_config (state_of stand) byte) }
{
    match stand {
        Stand::Record => start_record(byte),
        Stand::Field => start_field(byte),
        Stand::Bare => in_field(byte),
        Stand::Quoted => in_quotes(byte),
        Stand::Closed => behind_quote(byte),
        Stand::Returned => behind_return(byte),
    }
}
