// A job: one search, from open to close. It is moved, and neither copied nor let go: close takes it for good.
use crate::walk::Walk;
use walk_law::phase::Phase;

// Its line and its book are given to each call, as the rule of the project is: their owner keeps both, and may look at them.
// The clauses name the members of the family one by one, as a bound has them: a record of them would be written out in each.
pub struct Job<K> {
    walk: Walk<K>,
}

// What is left of a job after close. Print takes it for good.
pub struct ClosedJob {
    phase: Phase,
    questions: u32,
}

pub mod chain;
pub mod committing;
pub mod laying;
pub mod opening;
pub mod running;
