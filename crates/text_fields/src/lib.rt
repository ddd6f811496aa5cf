// The parts of a line that stand for a match, a packet, a key, an entry, an action: read from a place of a text.
#![tactic(auto)]

pub mod entry; // a priority, an action, a key, an entry
pub mod field; // `*` or a number; a prefix
pub mod matching; // the fields of a match and of a packet

pub use entry::{entry_at, key_at};
pub use matching::{match_at, packet_at};
