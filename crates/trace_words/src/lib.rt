// The words of `do`: read from a place of a line, and of an operation.
#![tactic(auto)]

pub mod read; // a word's text
pub mod word; // a word and its operations

pub use read::word_at;
pub use word::{SwitchWord, Word, Write, word_of, write_of};
