// The DALI line: a table of units, to which everything is said by frames.

#![tactic(auto)]

pub mod line;
mod wire;
