// What a line is: the interface by which a search speaks to fixtures, and what it means.

#![tactic(auto)]

pub mod answers;
pub mod counted;
pub mod line;
pub mod roll_call;
pub mod twice;
