// Table texts, read into rows that are sorted by switch and then in table order.
#![tactic(auto)]

pub mod line; // a line as a row
pub mod read; // a text as sorted rows
mod store; // rows before the first is read

pub use line::row_line;
pub use read::read_tables;
