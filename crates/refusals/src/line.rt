// The refused line, handed back as a part of the text that it stands in.
ghost use Rattle.std.specs.Prelude.{◌≡◌};
ghost use Rattle.refusals.specs.Refusals.{text_in, line_of};

use crate::refusal::{Refusal, Source};

// The text that a line stands in; empty where the place is no line.
pub fn text_in<'a>(source: Source, trace: &'a [u8], tables: &'a [u8]) -> &'a [u8]
    ensures { result.now ≡ text_in source trace.now tables.now }
{
    match source {
        Source::Neither => &[],
        Source::Trace => trace,
        Source::Tables => tables,
    }
}

// The line without its LF, a part of the trace or of the tables; empty where the place is no line.
#[tactic(auto, unfolding(crate::specs::Refusals::line_of))]
pub fn refused_line<'a>(trace: &'a [u8], tables: &'a [u8], refusal: Refusal) -> &'a [u8]
    ensures { result.now ≡ line_of trace.now tables.now refusal }
{
    let returned = refusal.returned();
    text_lines::nth_line(text_in(returned.source, trace, tables), returned.place)
}
