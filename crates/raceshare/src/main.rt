// Reads a trace from standard input, and writes how many of its unordered pairs commute, or what is refused, to standard output.
#![tactic(auto)]

use program_delay::DELAY;

fn answer<R: Print + Eprint>(rt: &R, trace: &[u8]) {
    match share_call::share(trace, DELAY) {
        Ok(x) => {
            let mut out = [0u8; 109];
            let n = share_report::put_share(&mut out, x);
            program_output::write(rt, text_lines::front(&out, n));
        }
        Err(e) => {
            program_output::write_refused(rt, trace, b"", e);
        }
    }
}

fn main(rt: HostRuntime) {
    let mut buf = [0u8; 65536];
    if let Some(n) = program_input::read_input(&rt, b"usage: raceshare < TRACE\n", &mut buf) {
        answer(&rt, &buf[..n]);
    }
}
