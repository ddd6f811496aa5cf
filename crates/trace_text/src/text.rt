// The text of a trace: its limits, its lines from the first, its tokens, its clocks.
ghost use Rattle.std.specs.Prelude.{◌≡◌, ◌≤◌, length, Some, Err};
ghost use Rattle.text_lines.specs.Lines.{lines};
ghost use Rattle.text_reader.specs.Each.{read_each};
ghost use Rattle.refusals.specs.Checks.{◌▹◌, refuse_limit};
ghost use Rattle.trace_line.specs.EventLine.{read_event};
ghost use Rattle.trace_text.specs.TraceText.{read_trace};
ghost use Rattle.trace_text.specs.Inner.{TraceOf, check_events};

use crate::tokens::check_tokens;
use refusals::Refusal;
use text_lines::Limit;
use text_reader::LineReader;
use trace_clocks::check_clocks;
use trace_events::Trace;
use trace_line::event_line;

// The refusal of a text that exceeds a limit.
fn refused(limit: Limit) -> Refusal
    ensures { refuse_limit (Some limit) Refusal.TraceTooLong Refusal.TraceUnended Refusal.TraceTooManyLines ≡ Err result }
{
    match limit {
        Limit::TooLong => Refusal::TraceTooLong,
        Limit::Unended => Refusal::TraceUnended,
        Limit::TooManyLines => Refusal::TraceTooManyLines,
    }
}

// The lines from the first, each as an event; the first refusal stands.
fn read_lines(text: &[u8]) -> Result<Trace, Refusal>
    requires { length (lines text.now) ≤ 256 }
    ensures { TraceOf (read_each read_event 0 (lines text.now)) result }
{
    let mut trace = Trace::empty();
    for line in LineReader::new(text) {
        let k = trace.len;
        trace.events[k] = event_line(line, k)?;
        trace.len = k + 1;
    }
    Ok(trace)
}

// The lines, then the tokens, then the clocks.
#[tactic(auto, unfolding(crate::specs::Inner::check_events, crate::specs::Inner::check_tokens, trace_clocks::specs::Backward::check_clocks, trace_events::specs::Events::events_of))]
fn read_events(text: &[u8], delay: u32) -> Result<Trace, Refusal>
    requires { length (lines text.now) ≤ 256 }
    ensures { TraceOf (read_each read_event 0 (lines text.now) ▹ check_events delay) result }
{
    let trace = read_lines(text)?;
    check_tokens(&trace.events[..trace.len])?;
    check_clocks(trace, delay)?;
    Ok(trace)
}

// The events of a trace text, or what is refused.
#[tactic(auto, unfolding(crate::specs::TraceText::read_trace, crate::specs::Inner::check_events, trace_clocks::specs::Backward::check_clocks))]
pub fn read_trace(text: &[u8], delay: u32) -> Result<Trace, Refusal>
    ensures { TraceOf (read_trace delay text.now) result }
{
    if let Some(limit) = text_lines::limit_of(text) {
        return Err(refused(limit));
    }
    read_events(text, delay)
}
