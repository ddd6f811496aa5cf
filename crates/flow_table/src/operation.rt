// The operations of a trace, each with its own fields, and the answers of those that have one.
use flow::{Action, Entry, Key, Match, Packet};

// Where a packet that meets a table came from: received by the switch, `pkt`, or sent out by the controller, `pout`.
#[derive(Clone, Copy, PartialEq, Eq)]
pub enum Origin {
    Received,
    SentOut,
}

// An operation on one switch's table: `pkt` and `pout`, `add`, `addc`, `mods`, `modn`, `dels`, `deln`.
#[derive(Clone, Copy)]
pub enum TableOperation {
    Packet(Origin, Packet),
    Add(Entry),
    AddChecked(Entry),
    ModifyStrict(Entry),
    Modify(Entry),
    DeleteStrict(Key),
    Delete(Match),
}

// What an event does: `oth`, or on a switch `bar`, `msg` or an operation on its table.
#[derive(Clone, Copy)]
pub enum Operation {
    Other,
    Barrier(u8),
    Message(u8),
    Table(u8, TableOperation),
}

// No answer; of a packet a miss, or the priority, how many entries fit at it and the action of the first; of a checked add
// whether it added.
#[derive(Clone, Copy, PartialEq, Eq)]
pub enum Answer {
    Silent,
    Miss,
    Hit(u16, u16, Action),
    Done(bool),
}
