// The RDM line: fixtures on one cable, which a controller asks by frames and hears where their replies meet.

#![tactic(auto)]

pub mod asking;
pub mod cable;
pub mod hearing;
pub mod line;
pub mod mode;
pub mod overlay;
pub mod sending;
