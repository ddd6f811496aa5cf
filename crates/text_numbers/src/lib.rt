// Numbers and keys as bytes: read from a place of a text, and put at a place of a buffer.
#![tactic(auto)]

pub mod text; // a byte, a key
pub mod read; // numbers from a place of a text on
pub mod put; // bytes and numbers at a place of a buffer

pub use put::{put_byte, put_bytes, put_hex, put_number};
pub use read::{hex_at, keyed, long_at, number_at, read_hex, read_long, read_number, word};
pub use text::{byte_at, starts_with};
