// Reads a trace from standard input, and writes its races and their counts, or what is refused, to standard output.
#![tactic(auto)]

ghost use Rattle.std.specs.Prelude.{◌≡◌, length, replicate};

use program_delay::DELAY;

// Room for all that is printed of any trace.
fn answer_in_full<R: Print + Eprint>(rt: &R, trace: &[u8]) {
    let mut out = list_report::room();
    let n = list_report::report(trace, DELAY, &mut out);
    program_output::write(rt, &out[..n]);
}

// Room for the report on a short trace, but for the longest lists.
fn short_room() -> [u8; 16384]
    ensures { (result ≡ replicate 16384 0) × (length result ≡ 16384) }
{
    [0u8; 16384]
}

// The report goes out with one write. That of a short trace mostly fits a small buffer, which takes less time to clear.
fn answer<R: Print + Eprint>(rt: &R, trace: &[u8]) {
    if trace.len() <= 8192 {
        let mut out = short_room();
        let n = list_report::report(trace, DELAY, &mut out);
        if n <= 16384 {
            program_output::write(rt, &out[..n]);
            return;
        }
    }
    answer_in_full(rt, trace);
}

fn main(rt: HostRuntime) {
    let mut buf = [0u8; 65536];
    if let Some(n) = program_input::read_input(&rt, b"usage: racelist < TRACE\n", &mut buf) {
        answer(&rt, &buf[..n]);
    }
}
