// What the calls for other programs answer, as numbers: a refusal is a number, a place and where the refused line stands.
#![tactic(auto)]

pub mod list; // the list of a trace
pub mod normal; // the normal form of a table text
pub mod page; // the page of a trace
pub mod replayed; // an order of a trace's events, replayed
pub mod share; // the commuting share of a trace
pub mod trials; // many orders of a trace's events, tried

pub use list::{Listed, list_as};
pub use normal::{Normalised, normal_as};
pub use page::{Paged, page_as};
pub use replayed::{Replayed, replay_as};
pub use share::{Shared, share_as};
pub use trials::{Tried, trials_as};
