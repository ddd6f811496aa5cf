// The tokens of a trace: none put out twice, none taken in before it is put out.
ghost use Rattle.std.specs.Prelude.{◌≡◌, ◌≤◌, length, take, Ok};
ghost use Rattle.std.specs.List.{list_any};
ghost use Rattle.basics.specs.Searches.{shares, lowest};
ghost use Rattle.trace_events.specs.Events.{tokens_of};
ghost use Rattle.refusals.specs.Checks.{◌▹◌};
ghost use Rattle.trace_text.specs.TraceText.{twice, taken_early};
ghost use Rattle.trace_text.specs.Inner.{all_outs, check_tokens};

use refusals::Refusal;
use trace_events::{Event, Tokens};

// What each line puts out: a small array, so that the searches go over no events.
fn all_outs(events: &[Event]) -> [Tokens; 256]
    requires { length events.now ≤ 256 }
    ensures { take (length events.now) result ≡ all_outs events.now }
{
    let mut all = [Tokens::none(); 256];
    for (k, event) in events.iter().enumerate() {
        all[k] = event.head.outs;
    }
    all
}

// Some line puts out one of the tokens; where there are none, no line is looked at. The search goes on past a line that does, so that
// several lines are looked at together.
fn puts_out(tokens: Tokens, outs: &[Tokens]) -> bool
    ensures { result ≡ list_any (λ o. shares (tokens_of tokens) (tokens_of o)) outs.now }
{
    if tokens.count == 0 {
        return false;
    }
    let mut found = false;
    for o in outs {
        found |= tokens.shares(*o);
    }
    found
}

// The lowest line that puts out a token which an earlier line puts out.
fn twice(events: &[Event], outs: &[Tokens]) -> Option<usize>
    requires { outs.now ≡ all_outs events.now }
    ensures { result ≡ lowest (twice events.now) (length events.now) }
{
    for (k, event) in events.iter().enumerate() {
        if puts_out(event.head.outs, &outs[..k]) {
            return Some(k);
        }
    }
    None
}

// The lowest line that takes in a token which this or a later line puts out.
fn taken_early(events: &[Event], outs: &[Tokens]) -> Option<usize>
    requires { outs.now ≡ all_outs events.now }
    ensures { result ≡ lowest (taken_early events.now) (length events.now) }
{
    for (k, event) in events.iter().enumerate() {
        if puts_out(event.head.ins, &outs[k..]) {
            return Some(k);
        }
    }
    None
}

// The lowest line with a token twice; then the lowest with one too early.
#[tactic(auto, unfolding(crate::specs::Inner::check_tokens))]
pub(crate) fn check_tokens(events: &[Event]) -> Result<(), Refusal>
    requires { length events.now ≤ 256 }
    ensures { (result ▹ λ _. Ok events.now) ≡ check_tokens events.now }
{
    let all = all_outs(events);
    let outs = &all[..events.len()];
    if let Some(line) = twice(events, outs) {
        return Err(Refusal::TokenTwice(line));
    }
    if let Some(line) = taken_early(events, outs) {
        return Err(Refusal::TokenTooEarly(line));
    }
    Ok(())
}
