// What an event does to its switch's table.
ghost use Rattle.std.specs.Prelude.{◌≡◌};
ghost use Rattle.flow_table.specs.FlowTable.{table_effect, effect_of};

use crate::operation::{Operation, TableOperation};
use flow::{Action, Entry, Key, Match, Packet};

// By document 01's words; `mods` reads as `add`, `pout` as `pkt`; `oth`, `bar` and `msg` do nothing.
#[derive(Clone, Copy)]
pub enum Effect {
    Pkt(Packet),
    Add(Key, Action),
    Addc(Key, Action),
    Modn(Key, Action),
    Dels(Key),
    Deln(Match),
    Idle,
}

pub fn table_effect(o: TableOperation) -> Effect
    ensures { result ≡ table_effect o }
{
    match o {
        TableOperation::Packet(_, p) => Effect::Pkt(p),
        TableOperation::Add(Entry { key, action })
        | TableOperation::ModifyStrict(Entry { key, action }) => Effect::Add(key, action),
        TableOperation::AddChecked(Entry { key, action }) => Effect::Addc(key, action),
        TableOperation::Modify(Entry { key, action }) => Effect::Modn(key, action),
        TableOperation::DeleteStrict(k) => Effect::Dels(k),
        TableOperation::Delete(m) => Effect::Deln(m),
    }
}

pub fn effect_of(o: Operation) -> Effect
    ensures { result ≡ effect_of o }
{
    match o {
        Operation::Other | Operation::Barrier(_) | Operation::Message(_) => Effect::Idle,
        Operation::Table(_, t) => table_effect(t),
    }
}
