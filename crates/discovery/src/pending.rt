// The ranges that a walk has still to ask about, in fixed memory.
ghost use Rattle.std.specs.Prelude.{◌≡◌, ◌≤◌, length};

use keys::range::Range;

// More are never pending, since no family has more than 48 levels.
pub(crate) const MOST_PENDING: usize = 49;

// The pending ranges are the first `depth` of these, the lowest last.
// Kept an array and a depth: a vector of fixed capacity writes a default into each place that it leaves, and keys have none.
#[derive(Drop)]
pub(crate) struct Pending<K> {
    pub(crate) ranges: [Range<K>; MOST_PENDING],
    pub(crate) depth: usize,
    ghost size: { length ranges ≡ 49 },
    ghost deep: { depth ≤ 49 },
}

pub(crate) mod edits;
