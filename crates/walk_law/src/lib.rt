// The walk over ranges of keys, as definitions and as a law over whole runs, and the words in which it speaks: phases,
// questions and answers.

#![tactic(auto)]

pub mod phase;
pub mod question;
