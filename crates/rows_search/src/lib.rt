// The place of a row among rows in order, and a row put in at its place.
#![tactic(auto)]

pub mod places;

pub use places::{insert_at, place_of, put};
