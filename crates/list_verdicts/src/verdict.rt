// The verdict on one pair of events.
ghost use Rattle.std.specs.Prelude.{◌≡◌};
ghost use Rattle.flow_table.specs.FlowTable.{effect_of};
ghost use Rattle.flow_table.specs.Switches.{uses_table};
ghost use Rattle.commuting.specs.InnerFootprints.{NarrowEffect};
ghost use Rattle.list_verdicts.specs.Inner.{table_use, uses_paired, verdict_by};

use commuting::Footprint;
use commuting_pairs::commutes;
use flow_table::{Operation, effect_of};
use trace_events::switch_of;

// No pair; or a pair that is ordered, commuting or listed.
#[derive(Clone, Copy)]
pub enum Verdict {
    Unpaired,
    Ordered,
    Commuting,
    Listed,
}

// What an event is to the list: whether it uses a table, of which switch, and the footprint of what it does there. Worked out once an
// event, not once a pair.
#[derive(Clone, Copy)]
pub struct TableUse {
    pub uses: bool,
    pub switch: u8,
    pub footprint: Footprint,
}

fn uses_table(o: Operation) -> bool
    ensures { result ≡ uses_table o }
{
    match o {
        Operation::Other => false,
        Operation::Barrier(_) => false,
        Operation::Message(_) => false,
        Operation::Table(_, _) => true,
    }
}

pub fn use_of(o: Operation) -> TableUse
    ensures { (result ≡ table_use o) × NarrowEffect (effect_of o) }
{
    let effect = effect_of(o);
    let footprint = Footprint::of(effect);
    TableUse {
        uses: uses_table(o),
        switch: switch_of(o),
        footprint,
    }
}

// Two table events of one switch.
fn is_paired(a: TableUse, b: TableUse) -> bool
    ensures { result ≡ uses_paired a b }
{
    a.uses & (b.uses & (a.switch == b.switch))
}

// Of two events, where `ordered` says whether the first happens before the second. What costs most comes last.
pub fn verdict_of(a: TableUse, b: TableUse, ordered: bool) -> Verdict
    ensures { result ≡ verdict_by a b «ordered» }
{
    if !is_paired(a, b) {
        return Verdict::Unpaired;
    }
    if ordered {
        return Verdict::Ordered;
    }
    let v = a.footprint;
    let w = b.footprint;
    if commutes(v, w) {
        return Verdict::Commuting;
    }
    Verdict::Listed
}
