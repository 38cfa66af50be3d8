// The records of a book, as slices: where a key is listed and how one is.

#![tactic(auto)]

pub mod listing;
pub mod record;
