// The calls of a job as relations, and the promise over every chain of them.

#![tactic(auto)]

pub mod call;
