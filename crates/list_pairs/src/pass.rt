// One pass over the pairs of a trace: one verdict a pair.
ghost use Rattle.std.specs.Prelude.{◌≡◌, ◌+◌, ◌≤◌, length};
ghost use Rattle.std.proofs.lemmas.List.Edits.{sets};
ghost use Rattle.trace_events.specs.Events.{events_of};
ghost use Rattle.happens_before.specs.Inner.{HappensBefore};
ghost use Rattle.list_pairs.specs.List.{pair_bytes, list_of, counts_of};
ghost use Rattle.list_verdicts.specs.Kinds.{listed};
ghost use Rattle.basics.specs.Searches.{only};
ghost use Rattle.list_pairs.specs.Inner.{counts};

use crate::counts::{counted, no_counts};
use crate::uses::all_uses;
use call_answers::Counts;
use list_verdicts::{Verdict, verdict_of};
use trace_events::Trace;

// The pair i, j at a place of the list, if its verdict is that it is listed.
fn put_listed(list: &mut [u8], at: usize, i: u8, j: u8, v: Verdict)
    requires { at + 2 ≤ length list.old }
    ensures { list.new ≡ sets list.old at (pair_bytes (only (counts listed v) (record { lower = i; higher = j }))) }
{
    if let Verdict::Listed = v {
        list[at] = i;
        list[at + 1] = j;
    }
}

// All pairs: the four counts, and the listed pairs from the list's start. Both loops stand here, since an inner call would copy
// what the events are at each turn. The delay is that of the rows, which hold all that it decides.
pub(crate) fn scan(t: Trace, delay: u32, rows: &[[u64; 4]; 256], list: &mut [u8]) -> Counts
    requires len_bound { (t.len ≤ 256) × (131072 ≤ length list.old) }
    requires happens_before { HappensBefore delay (events_of t) rows.now }
    ensures value { result ≡ counts_of delay (events_of t) }
    ensures list_after { list.new ≡ sets list.old 0 (pair_bytes (list_of delay (events_of t))) }
{
    let uses = all_uses(t);
    let mut sum = no_counts();
    for i in 0..t.len {
        let a = uses[i];
        for j in i + 1..t.len {
            let b = uses[j];
            let ordered = happens_before::is_before(rows, i as u8, j as u8);
            let v = verdict_of(a, b, ordered);
            put_listed(list, 2 * sum.listed, i as u8, j as u8, v);
            sum = counted(sum, v);
        }
    }
    sum
}
