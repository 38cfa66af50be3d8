// The search for fixtures: a book in lent memory, and the walk that fills it.

#![tactic(auto)]

pub mod book;
pub mod job;
mod pending;
pub mod walk;
