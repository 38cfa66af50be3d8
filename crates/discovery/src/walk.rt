// The walk over ranges of keys: it tells its next question, and hears the answer.
use crate::pending::Pending;
use walk_law::phase::Phase;

// No more questions are counted.
pub(crate) const MOST_QUESTIONS: u32 = 0x100_0000;

#[derive(Drop)]
pub struct Walk<K> {
    phase: Phase,
    pending: Pending<K>,
    // The key whose hush is next, if one is; otherwise the lowest pending range is probed.
    hushing: Option<K>,
    // How many answers were heard.
    questions: u32,
}

mod ask;
mod course;
mod hear;
pub mod progress;
