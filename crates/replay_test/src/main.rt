// Replays the traces of its data files in the recorded order, into buffers that are a byte too short, and in the orders of another
// file, a line for each. What must come out is in the file `stdout`: `ops` has each operation and its answers, each on a switch of
// its own; `small` all 120 orders of five events, and orders that are none; `pout` all 24 orders of a rule, a barrier and two
// packets; `clock` all 24 orders of four events that clocks order in part; `full` 256 events on 256 entries.
#![tactic(auto)]

use program_delay::DELAY;
use refusals::Refusal;
use std::rt::Files;

// An answer: both texts, or the refusal.
fn print_answer<'a, R: Print + Eprint>(
    rt: &R,
    trace: &'a [u8],
    tables: &'a [u8],
    a: Result<(usize, usize), Refusal>,
    ends: &[u8],
    answers: &[u8],
) {
    match a {
        Ok((n, m)) => {
            program_output::write(rt, text_lines::front(ends, n));
            program_output::write(rt, text_lines::front(answers, m));
        }
        Err(e) => {
            program_output::write_refused(rt, trace, tables, e);
        }
    }
}

fn replay_order<'a, R: Print + Eprint>(rt: &R, trace: &'a [u8], tables: &'a [u8], order: &[u8]) {
    let mut ends = [0u8; 65536];
    let mut answers = [0u8; 8192];
    let a = replay_call::replay(trace, tables, order, DELAY, &mut ends, &mut answers);
    print_answer(rt, trace, tables, a, &ends, &answers);
}

fn wide(x: u8) -> u64 {
    x as u64
}

// Into both buffers, and then the first byte of the tables buffer.
fn replay_within<'a, R: Print + Eprint>(
    rt: &R,
    trace: &'a [u8],
    tables: &'a [u8],
    order: &[u8],
    ends: &mut [u8],
    answers: &mut [u8],
) {
    let a = replay_call::replay(trace, tables, order, DELAY, ends, answers);
    print_answer(rt, trace, tables, a, ends, answers);
    if 0 < ends.len() {
        program_output::field(rt, b"first=", wide(ends[0]));
        program_output::end_line(rt);
    }
}

// Into buffers of these lengths.
fn replay_short<'a, R: Print + Eprint>(
    rt: &R,
    trace: &'a [u8],
    tables: &'a [u8],
    order: &[u8],
    n: usize,
    m: usize,
) {
    let mut ends = [0u8; 65536];
    let mut answers = [0u8; 8192];
    if n <= 65536 {
        if m <= 8192 {
            replay_within(rt, trace, tables, order, &mut ends[..n], &mut answers[..m]);
        }
    }
}

// Into a tables buffer and then into an answers buffer that is a byte too short.
fn replay_shorter<'a, R: Print + Eprint>(rt: &R, trace: &'a [u8], tables: &'a [u8], order: &[u8]) {
    let mut ends = [0u8; 65536];
    let mut answers = [0u8; 8192];
    if let Ok((n, m)) = replay_call::replay(trace, tables, order, DELAY, &mut ends, &mut answers) {
        if 0 < n {
            replay_short(rt, trace, tables, order, n - 1, m);
        }
        if 0 < m {
            replay_short(rt, trace, tables, order, n, m - 1);
        }
    }
}

fn replay_recorded<'a, R: Print + Eprint>(rt: &R, trace: &'a [u8], tables: &'a [u8]) {
    let order = order_check::recorded_order();
    let recorded = text_lines::front(&order, text_lines::count_lines(trace));
    program_output::write(rt, b"order recorded\n");
    replay_order(rt, trace, tables, recorded);
    replay_shorter(rt, trace, tables, recorded);
}

fn replay_line<'a, R: Print + Eprint>(
    rt: &R,
    trace: &'a [u8],
    tables: &'a [u8],
    orders: &[u8],
    k: usize,
) {
    program_output::field(rt, b"order ", k as u64);
    program_output::end_line(rt);
    replay_order(rt, trace, tables, text_lines::nth_line(orders, k));
}

fn replay_lines<'a, R: Print + Eprint>(rt: &R, trace: &'a [u8], tables: &'a [u8], orders: &[u8]) {
    for k in 0..text_lines::count_lines(orders) {
        replay_line(rt, trace, tables, orders, k);
    }
}

fn replay_texts<'a, R: Files + Print + Eprint>(
    rt: &R,
    trace: &'a [u8],
    tables: &'a [u8],
    orders_name: &[u8],
) {
    let mut orders = [0u8; 4096];
    if let Some(n) = program_input::read_file(rt, orders_name, &mut orders) {
        replay_recorded(rt, trace, tables);
        replay_lines(rt, trace, tables, &orders[..n]);
    }
}

fn replay_files<R: Files + Print + Eprint>(
    rt: &R,
    name: &[u8],
    trace_name: &[u8],
    tables_name: &[u8],
    orders_name: &[u8],
) {
    program_output::write(rt, b"trace ");
    program_output::write(rt, name);
    program_output::end_line(rt);
    let mut trace = [0u8; 65536];
    let mut tables = [0u8; 65536];
    let first = program_input::read_file(rt, trace_name, &mut trace);
    let second = program_input::read_file(rt, tables_name, &mut tables);
    if let (Some(n), Some(m)) = (first, second) {
        replay_texts(rt, &trace[..n], &tables[..m], orders_name);
    }
}

fn main(rt: HostRuntime) {
    replay_files(&rt, b"ops", b"ops_trace", b"ops_tables", b"ops_orders");
    replay_files(
        &rt,
        b"small",
        b"small_trace",
        b"small_tables",
        b"small_orders",
    );
    replay_files(&rt, b"pout", b"pout_trace", b"pout_tables", b"pout_orders");
    replay_files(
        &rt,
        b"clock",
        b"clock_trace",
        b"clock_tables",
        b"clock_orders",
    );
    replay_files(&rt, b"full", b"full_trace", b"full_tables", b"full_orders");
}
