// Prints the report on each trace text of its data files. What must come out is in the file `stdout`.
#![tactic(auto)]

use program_delay::DELAY;
use std::rt::Files;

// The files 000 and on: the worked lines and no events; each refusal; barriers, messages and chains through tokens; pairs that commute or
// do not; 256 events; traces drawn at random; from 054 on barriers and chains again, every two operations, many switches and events;
// from 077 on clocks.
const CASES: u8 = 84;

fn print_report<R: Print + Eprint>(rt: &R, trace: &[u8]) {
    let mut out = list_report::room();
    let n = list_report::report(trace, DELAY, &mut out);
    program_output::write(rt, text_lines::front(&out, n));
}

fn read_file<R: Files + Print + Eprint>(rt: &R, path: &[u8]) {
    let mut buf = [0u8; 65536];
    if let Some(n) = program_input::read_file(rt, path, &mut buf) {
        print_report(rt, &buf[..n]);
    }
}

fn run<R: Files + Print + Eprint>(rt: &R, path: &[u8]) {
    program_output::write(rt, b"trace ");
    program_output::write(rt, path);
    program_output::end_line(rt);
    read_file(rt, path);
}

// The file that a number names by its three digits.
fn numbered<R: Files + Print + Eprint>(rt: &R, i: u8) {
    let name = [b'0' + i / 100 % 10, b'0' + i / 10 % 10, b'0' + i % 10];
    run(rt, &name);
}

// The rehearsals of examples/, each with its repaired trace, and the one with clocks close together and apart.
fn rehearsals<R: Files + Print + Eprint>(rt: &R) {
    run(rt, b"packet_early");
    run(rt, b"packet_early_repaired");
    run(rt, b"one_key");
    run(rt, b"one_key_repaired");
    run(rt, b"overlap");
    run(rt, b"overlap_repaired");
    run(rt, b"aisle");
    run(rt, b"aisle_repaired");
    run(rt, b"shared_cable");
    run(rt, b"shared_cable_repaired");
    run(rt, b"sent_out_as_pkt");
    run(rt, b"sent_out");
    run(rt, b"clock_close");
    run(rt, b"clock_apart");
}

fn main(rt: HostRuntime) {
    rehearsals(&rt);
    for i in 0..CASES {
        numbered(&rt, i);
    }
}
