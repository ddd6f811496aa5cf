// The calls for other programs: the answer of each call, as numbers.
#![tactic(auto)]

ghost use Rattle.std.specs.Prelude.{◌≡◌, length};
ghost use Rattle.refusals.specs.Checks.{written};
ghost use Rattle.exports_values.specs.Values.{list_as, normal_as, page_as, replay_as, share_as, trials_as};
ghost use Rattle.list_call.specs.Races.{list_races, list_answer, list_out};
ghost use Rattle.tables_normal.specs.Normal.{normalised, normal_answer};
ghost use Rattle.page_call.specs.Paged.{paged, page_answer};
ghost use Rattle.share_call.specs.Shared.{shared};
ghost use Rattle.replay_texts.specs.Writing.{replay_answer, tables_to_write, answers_to_write};
ghost use Rattle.replay_call.specs.Replay.{replayed};
ghost use Rattle.trials_call.specs.Tried.{tried, trials_answer};

use exports_values::{
    Listed, Normalised, Paged, Replayed, Shared, Tried, list_as, normal_as, page_as, replay_as,
    share_as, trials_as,
};

// The listed pairs of a trace, two bytes each, from the buffer's start. The bytes after them, or all after a refusal, stay as they
// were.
#[unsafe(no_mangle)]
pub extern "C" fn gellunka_list_races(trace: &[u8], delay: u32, out: &mut [u8]) -> Listed
    ensures value { result ≡ list_as trace.now (list_answer (list_races delay trace.now (length out.old))) }
    ensures out_after { out.new ≡ written (list_out (list_races delay trace.now (length out.old))) out.old }
{
    let answer = list_call::list_races(trace, delay, out);
    list_as(trace, answer)
}

// The normal form of a table text, from the buffer's start. The bytes after it, or all after a refusal, stay as they were.
#[unsafe(no_mangle)]
pub extern "C" fn gellunka_normalise(tables: &[u8], out: &mut [u8]) -> Normalised
    ensures value { result ≡ normal_as tables.now (normal_answer (normalised tables.now (length out.old))) }
    ensures out_after { out.new ≡ written (normalised tables.now (length out.old)) out.old }
{
    let answer = tables_normal::normalise(tables, out);
    normal_as(tables, answer)
}

// The page of a trace's list, from the buffer's start. The bytes after it, or all after a refusal, stay as they were.
#[unsafe(no_mangle)]
pub extern "C" fn gellunka_page(trace: &[u8], delay: u32, out: &mut [u8]) -> Paged
    ensures value { result ≡ page_as trace.now (page_answer (paged delay trace.now (length out.old))) }
    ensures out_after { out.new ≡ written (paged delay trace.now (length out.old)) out.old }
{
    let answer = page_call::page(trace, delay, out);
    page_as(trace, answer)
}

// How many of 1,000 unordered pairs of a trace commute, with what is left over.
#[unsafe(no_mangle)]
pub extern "C" fn gellunka_share(trace: &[u8], delay: u32) -> Shared
    ensures { result ≡ share_as trace.now (shared delay trace.now) }
{
    let answer = share_call::share(trace, delay);
    share_as(trace, answer)
}

// A trace's events in the given order, one byte for each event, from the tables of a text: the normalised end tables and the
// answers, each from its buffer's start. The bytes after them, or all after a refusal, stay as they were.
#[unsafe(no_mangle)]
pub extern "C" fn gellunka_replay<'a>(
    trace: &'a [u8],
    tables: &'a [u8],
    order: &[u8],
    delay: u32,
    out: &mut [u8],
    answered: &mut [u8],
) -> Replayed
    ensures value { result ≡ replay_as trace.now tables.now (replay_answer (replayed delay trace.now tables.now order.now (length out.old) (length answered.old))) }
    ensures out_after { out.new ≡ written (tables_to_write (replayed delay trace.now tables.now order.now (length out.old) (length answered.old))) out.old }
    ensures answered_after { answered.new ≡ written (answers_to_write (replayed delay trace.now tables.now order.now (length out.old) (length answered.old))) answered.old }
{
    let answer = replay_call::replay(trace, tables, order, delay, out, answered);
    replay_as(trace, tables, answer)
}

// Orders of a trace's events end to end, one byte for each event, from the tables of a text: a byte an order, from the buffer's start.
// The bytes after them, or all after a refusal, stay as they were.
#[unsafe(no_mangle)]
pub extern "C" fn gellunka_try_orders<'a>(
    trace: &'a [u8],
    tables: &'a [u8],
    orders: &[u8],
    delay: u32,
    out: &mut [u8],
) -> Tried
    ensures value { result ≡ trials_as trace.now tables.now (trials_answer (tried delay trace.now tables.now orders.now (length out.old))) }
    ensures out_after { out.new ≡ written (tried delay trace.now tables.now orders.now (length out.old)) out.old }
{
    let answer = trials_call::try_orders(trace, tables, orders, delay, out);
    trials_as(trace, tables, answer)
}
