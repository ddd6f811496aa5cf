// What a table operation carries.
ghost use Rattle.std.specs.Prelude.{◌≡◌};
ghost use Rattle.flow_table.specs.Carried.{carried_of};

use crate::operation::TableOperation;
use flow::{Entry, Key, Match, Packet};

// `pkt` and `pout` a packet; `add`, `addc`, `mods` and `modn` an entry; `dels` a key; `deln` a match.
#[derive(Clone, Copy)]
pub enum Carried {
    Packet(Packet),
    Entry(Entry),
    Key(Key),
    Match(Match),
}

pub fn carried_by(o: TableOperation) -> Carried
    ensures { result ≡ carried_of o }
{
    match o {
        TableOperation::Packet(_, p) => Carried::Packet(p),
        TableOperation::Add(e)
        | TableOperation::AddChecked(e)
        | TableOperation::ModifyStrict(e)
        | TableOperation::Modify(e) => Carried::Entry(e),
        TableOperation::DeleteStrict(k) => Carried::Key(k),
        TableOperation::Delete(m) => Carried::Match(m),
    }
}
