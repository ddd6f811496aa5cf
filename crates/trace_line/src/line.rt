// One line of a trace, taken apart or else refused by number.
ghost use Rattle.std.specs.Prelude.{◌≡◌};
ghost use Rattle.trace_line.specs.EventLine.{read_event};

use refusals::{Refusal, refused_if};
use text_numbers::number_at;
use trace_events::Event;
use trace_head::head_at;
use trace_operation::{clear_operation, operation_at};
use trace_words::word_at;

// The line of that number: malformed, misnumbered, an address bit past its prefix, a range reversed, in this order; else its
// event.
#[tactic(auto, unfolding(crate::specs::EventLine::read_event, crate::specs::EventLine::read_numbered_event, crate::specs::EventLine::read_numbered, crate::specs::EventLine::read_items, crate::specs::EventLine::read_behind, crate::specs::EventLine::read_parts, text_numbers::specs::Reading::both, text_numbers::specs::Reading::and_then, text_numbers::specs::Reading::mapped))]
pub fn event_line(s: &[u8], line: usize) -> Result<Event, Refusal>
    ensures { result ≡ read_event line s.now }
{
    let malformed = Refusal::TraceMalformed(line);
    let Some((number, next)) = number_at(s, 0, b"ev=", 255) else {
        return Err(malformed);
    };
    let Some((word, next)) = word_at(s, next) else {
        return Err(malformed);
    };
    let (head, next) = head_at(s, next, malformed)?;
    let (operation, next) = operation_at(s, next, malformed, word)?;
    let event = Event { head, operation };
    refused_if(next != s.len(), malformed)?;
    refused_if(number as usize != line, Refusal::EventMisnumbered(line))?;
    refused_if(!clear_operation(operation), Refusal::TraceAddressBit(line))?;
    refused_if(head.to < head.from, Refusal::RangeReversed(line))?;
    Ok(event)
}
