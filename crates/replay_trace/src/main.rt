// replay_trace TRACE TABLES [ORDER [DELAY]]: replays the trace of a file from the tables of another, in the order whose bytes a third
// holds, one for each event; left out, in the recorded order. DELAY is in milliseconds; left out, it is the usual one. Prints the end
// tables and then the answers, or what is refused.
#![tactic(auto)]

use program_input::{has_arg, read_arg};
use std::rt::{Env, Files};

// Both texts, or the refusal. The buffers hold the longest texts that there are: 512 lines of 115 bytes, and 256 of 28.
fn print_replay<'a, R: Print + Eprint>(
    rt: &R,
    trace: &'a [u8],
    tables: &'a [u8],
    order: &[u8],
    delay: u32,
) {
    let mut ends = [0u8; 65536];
    let mut answers = [0u8; 8192];
    match replay_call::replay(trace, tables, order, delay, &mut ends, &mut answers) {
        Ok((n, m)) => {
            if program_output::write(rt, text_lines::front(&ends, n)) {
                program_output::write(rt, text_lines::front(&answers, m));
            }
        }
        Err(e) => {
            program_output::write_refused(rt, trace, tables, e);
        }
    }
}

// In the recorded order of a trace with so many lines.
fn print_recorded<'a, R: Print + Eprint>(rt: &R, trace: &'a [u8], tables: &'a [u8], delay: u32) {
    let order = order_check::recorded_order();
    print_replay(
        rt,
        trace,
        tables,
        text_lines::front(&order, text_lines::count_lines(trace)),
        delay,
    );
}

// In the order of the third file. One that is longer than any trace is as wrong as one of 257 bytes.
fn print_ordered<'a, R: Env + Files + Print + Eprint>(
    rt: &R,
    trace: &'a [u8],
    tables: &'a [u8],
    delay: u32,
) {
    let mut buf = [0u8; 257];
    if let Some(n) = read_arg(rt, 3, &mut buf) {
        print_replay(rt, trace, tables, &buf[..n], delay);
    }
}

fn print_texts<'a, R: Env + Files + Print + Eprint>(
    rt: &R,
    trace: &'a [u8],
    tables: &'a [u8],
    delay: u32,
) {
    if has_arg(rt, 3) {
        print_ordered(rt, trace, tables, delay);
    } else {
        print_recorded(rt, trace, tables, delay);
    }
}

fn main(rt: HostRuntime) {
    if !has_arg(&rt, 2) || has_arg(&rt, 5) {
        let _ = rt.eprintln("usage: replay_trace TRACE TABLES [ORDER [DELAY]]");
        return;
    }
    let Some(delay) = program_delay::delay_arg(&rt, 4) else {
        return;
    };
    let mut trace = [0u8; 65536];
    let mut tables = [0u8; 65536];
    let Some(n) = read_arg(&rt, 1, &mut trace) else {
        return;
    };
    let Some(m) = read_arg(&rt, 2, &mut tables) else {
        return;
    };
    print_texts(&rt, &trace[..n], &tables[..m], delay);
}
