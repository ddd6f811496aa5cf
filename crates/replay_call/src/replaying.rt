// The replay of a trace: the checks in their order, then the run.
ghost use Rattle.std.specs.Prelude.{◌≡◌, ◌≤◌, length};
ghost use Rattle.refusals.specs.Checks.{written};
ghost use Rattle.trace_events.specs.Events.{events_of};
ghost use Rattle.rows.specs.Rows.{rows_of, SortedRows};
ghost use Rattle.replay_texts.specs.Writing.{replay_answer, tables_to_write, answers_to_write};
ghost use Rattle.replay_texts.specs.Inner.{fitting_both, Leaves};
ghost use Rattle.replay_call.specs.Replay.{replayed};
ghost use Rattle.replay_call.specs.Inner.{row_texts, ordered_from};

use inputs::read_both;
use order_check::check_order;
use refusals::Refusal;
use replay_texts::write_both;
use rows::Rows;
use trace_events::Trace;

// An accepted order, run from the rows of the tables: 32, 33, or both texts.
fn run_order(
    t: Trace,
    start: Rows,
    order: &[u8],
    out: &mut [u8],
    answered: &mut [u8],
) -> Result<(usize, usize), Refusal>
    requires { (t.len ≤ 256) × (start.len ≤ 256) × SortedRows (rows_of start) × (length order.now ≤ 256) }
    ensures { Leaves (fitting_both (row_texts (events_of t) order.now (rows_of start)) (length out.old) (length answered.old)) result out.old out.new answered.old answered.new }
{
    let n = t.len;
    let ran = order_run::run(t, start, order);
    let rows = ran.rows;
    let answers = ran.answers;
    write_both(rows, answers, n, out, answered)
}

// 21, 22; then the run.
fn replay_order(
    t: Trace,
    start: Rows,
    order: &[u8],
    delay: u32,
    out: &mut [u8],
    answered: &mut [u8],
) -> Result<(usize, usize), Refusal>
    requires { (t.len ≤ 256) × (start.len ≤ 256) × SortedRows (rows_of start) }
    ensures { Leaves (ordered_from delay (events_of t) (rows_of start) order.now (length out.old) (length answered.old)) result out.old out.new answered.old answered.new }
{
    let earlier = happens_before::happens_before(t, delay);
    check_order(t.len, &earlier, order)?;
    run_order(t, start, order, out, answered)
}

// A trace's events in the given order, under a delay, from the tables of a text: the normalised end tables and the answers, each from its buffer's
// start, and both lengths. The bytes past them, or all after a refusal, stay as they were.
pub fn replay(
    trace: &[u8],
    tables: &[u8],
    order: &[u8],
    delay: u32,
    tables_out: &mut [u8],
    answers_out: &mut [u8],
) -> Result<(usize, usize), Refusal>
    ensures value { result ≡ replay_answer (replayed delay trace.now tables.now order.now (length tables_out.old) (length answers_out.old)) }
    ensures tables_out_after { tables_out.new ≡ written (tables_to_write (replayed delay trace.now tables.now order.now (length tables_out.old) (length answers_out.old))) tables_out.old }
    ensures answers_out_after { answers_out.new ≡ written (answers_to_write (replayed delay trace.now tables.now order.now (length tables_out.old) (length answers_out.old))) answers_out.old }
{
    let inputs = read_both(trace, tables, delay).accepted()?;
    replay_order(
        inputs.trace,
        inputs.rows,
        order,
        delay,
        tables_out,
        answers_out,
    )
}
