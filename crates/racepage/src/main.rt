// Reads a trace from standard input, and writes the page of its list, or what is refused, to standard output.
#![tactic(auto)]

ghost use Rattle.std.specs.Prelude.{◌≡◌, length};
ghost use Rattle.basics.specs.Text.{zeros};

use program_delay::DELAY;

// Room for the page of any trace: 61 bytes for each of 32,640 pairs and four counts.
fn page_room() -> [u8; 1991284]
    ensures { (result ≡ zeros 1991284) × (length result ≡ 1991284) }
{
    [0u8; 1991284]
}

fn answer<R: Print + Eprint>(rt: &R, trace: &[u8]) {
    let mut out = page_room();
    match page_call::page(trace, DELAY, &mut out) {
        Ok(n) => {
            program_output::write(rt, text_lines::front(&out, n));
        }
        Err(e) => {
            program_output::write_refused(rt, trace, b"", e);
        }
    }
}

fn main(rt: HostRuntime) {
    let mut buf = [0u8; 65536];
    if let Some(n) = program_input::read_input(&rt, b"usage: racepage < TRACE\n", &mut buf) {
        answer(&rt, &buf[..n]);
    }
}
