// Document 01's table of refusals: each with its place, a line, a position or the bytes needed.
ghost use Rattle.std.specs.Prelude.{◌≡◌};
ghost use Rattle.refusals.specs.Checks.{refuse_if};
ghost use Rattle.refusals.specs.Refusals.{refusal_row, returned};

#[derive(Clone, Copy)]
pub enum Refusal {
    TraceTooLong,
    TraceUnended,
    TraceTooManyLines,
    TraceMalformed(usize),
    EventMisnumbered(usize),
    TraceAddressBit(usize),
    TokenTwice(usize),
    TokenTooEarly(usize),
    TablesTooLong,
    TablesUnended,
    TablesTooManyLines,
    TablesMalformed(usize),
    TablesAddressBit(usize),
    KeyTwice(usize),
    OrderIncomplete,
    EventTooEarly(usize),
    ListShort(usize),
    TablesShort(usize),
    AnswersShort(usize),
    PageShort(usize),
    OrdersUneven,
    TrialsShort(usize),
    RangeReversed(usize),
    TimeBackward(usize),
}

// Refused where the test says yes.
pub fn refused_if(found: bool, refusal: Refusal) -> Result<(), Refusal>
    ensures { result ≡ refuse_if found refusal }
{
    if found { Err(refusal) } else { Ok(()) }
}

// The text that the place of a refusal is a line of.
#[derive(Clone, Copy)]
pub enum Source {
    Neither,
    Trace,
    Tables,
}

// What is returned of a refusal: number, place, and the text of which the place is a line.
#[derive(Clone, Copy)]
pub struct Returned {
    pub number: u8,
    pub place: usize,
    pub source: Source,
}

fn row(number: u8, place: usize, source: Source) -> Returned
    ensures { result ≡ refusal_row number place source }
{
    Returned {
        number,
        place,
        source,
    }
}

impl Refusal {
    pub fn returned(self) -> Returned
        ensures { result ≡ returned self }
    {
        match self {
            Refusal::TraceTooLong => row(1, 0, Source::Neither),
            Refusal::TraceUnended => row(2, 0, Source::Neither),
            Refusal::TraceTooManyLines => row(3, 0, Source::Neither),
            Refusal::TraceMalformed(line) => row(4, line, Source::Trace),
            Refusal::EventMisnumbered(line) => row(5, line, Source::Trace),
            Refusal::TraceAddressBit(line) => row(6, line, Source::Trace),
            Refusal::TokenTwice(later) => row(7, later, Source::Trace),
            Refusal::TokenTooEarly(line) => row(8, line, Source::Trace),
            Refusal::TablesTooLong => row(11, 0, Source::Neither),
            Refusal::TablesUnended => row(12, 0, Source::Neither),
            Refusal::TablesTooManyLines => row(13, 0, Source::Neither),
            Refusal::TablesMalformed(line) => row(14, line, Source::Tables),
            Refusal::TablesAddressBit(line) => row(15, line, Source::Tables),
            Refusal::KeyTwice(later) => row(16, later, Source::Tables),
            Refusal::OrderIncomplete => row(21, 0, Source::Neither),
            Refusal::EventTooEarly(position) => row(22, position, Source::Neither),
            Refusal::ListShort(needed) => row(31, needed, Source::Neither),
            Refusal::TablesShort(needed) => row(32, needed, Source::Neither),
            Refusal::AnswersShort(needed) => row(33, needed, Source::Neither),
            Refusal::PageShort(needed) => row(51, needed, Source::Neither),
            Refusal::OrdersUneven => row(52, 0, Source::Neither),
            Refusal::TrialsShort(needed) => row(53, needed, Source::Neither),
            Refusal::RangeReversed(line) => row(54, line, Source::Trace),
            Refusal::TimeBackward(earlier) => row(55, earlier, Source::Trace),
        }
    }
}
