// What `racelist` prints, put into a buffer.
ghost use Rattle.std.specs.Prelude.{◌≡◌, ◌+◌, ◌≤◌, ◌<◌, ◌^◌, length};
ghost use Rattle.text_numbers.specs.Inner.{Put};
ghost use Rattle.call_answers.specs.Inner.{Small};
ghost use Rattle.trace_events.specs.Events.{events_of};
ghost use Rattle.list_pairs.specs.List.{listing_of};
ghost use Rattle.basics.specs.Text.{zeros};
ghost use Rattle.list_report.specs.Report.{race_line, race_lines, counts_line, list_text, report_text};

use call_answers::Counts;
use refusals_text::put_key_number;
use text_numbers::put_byte;
use trace_events::Trace;

// `race=3,4`
fn put_race(out: &mut [u8], at: usize, i: u8, j: u8) -> usize
    requires { at < 2 ^ 30 }
    ensures put { Put (race_line i j) at out.old result out.new }
    ensures upper_bound { result ≤ at + 74 }
{
    let a = put_key_number(out, at, b"race=", i as usize);
    let b = put_key_number(out, a, b",", j as usize);
    put_byte(out, b, b'\n');
    b + 1
}

// A line for each pair of a list.
fn put_races(out: &mut [u8], list: &[u8]) -> usize
    requires { length list.now ≤ 131072 }
    ensures put { Put (race_lines list.now) 0 out.old result out.new }
    ensures upper_bound { result < 2 ^ 30 }
{
    let mut at = 0;
    let mut left = list;
    while let [lower, higher, rest @ ..] = left {
        at = put_race(out, at, *lower, *higher);
        left = rest;
    }
    at
}

// `pairs=2 ordered=1 commuting=0 listed=1`
fn put_counts(out: &mut [u8], at: usize, c: Counts) -> usize
    requires { (at < 2 ^ 30) × Small c }
    ensures { Put (counts_line c) at out.old result out.new }
{
    let p = put_key_number(out, at, b"pairs=", c.pairs);
    let o = put_key_number(out, p, b" ordered=", c.ordered);
    let m = put_key_number(out, o, b" commuting=", c.commuting);
    let l = put_key_number(out, m, b" listed=", c.listed);
    put_byte(out, l, b'\n');
    l + 1
}

// Room for all that is printed of a trace.
pub fn room() -> [u8; 425000]
    ensures { (result ≡ zeros 425000) × (length result ≡ 425000) }
{
    [0u8; 425000]
}

// Of the events of an accepted trace: a line for each listed pair, then the counts line.
fn put_listing(out: &mut [u8], t: Trace, delay: u32) -> usize
    requires { t.len ≤ 256 }
    ensures { Put (list_text (listing_of delay (events_of t))) 0 out.old result out.new }
{
    let mut pairs = list_pairs::pair_room();
    let counts = list_pairs::list_of(t, delay, &mut pairs);
    let n = 2 * counts.listed;
    let at = put_races(out, &pairs[..n]);
    put_counts(out, at, counts)
}

// What `racelist` prints of a trace under a delay.
#[tactic(auto, unfolding(crate::specs::Report::report_text))]
pub fn report(trace: &[u8], delay: u32, out: &mut [u8]) -> usize
    ensures put { Put (report_text delay trace.now) 0 out.old result out.new }
    ensures upper_bound { result ≤ 425000 }
{
    match trace_text::read_trace(trace, delay) {
        Ok(events) => put_listing(out, events, delay),
        Err(refusal) => refusals_text::refused(out, trace, &trace[..0], refusal),
    }
}
