// What is done with the lowest pending range.
ghost use Rattle.std.specs.Prelude.{◌≡◌, [], ◌∷◌, ◌++◌, if◌then◌else◌};
ghost use Rattle.std.specs.Option.{option_map};
ghost use Rattle.walk_law.specs.Run.{range_ranks};
ghost use Rattle.discovery.specs.Pending.{ranks_of, first_of, without_first, has_memory};

use crate::pending::{MOST_PENDING, Pending};
use keys::family::Family;
use keys::order::{highest, lowest};
use keys::range::Range;

impl<K: Family> Pending<K> {
    // All keys are one range.
    pub(crate) fn all() -> Pending<K>
        ensures { ranks_of K.Family.rank result ≡ record { lo = 0; hi = K.Family.top } ∷ [] }
    {
        let all = Range {
            lo: lowest(),
            hi: highest(),
        };
        Pending {
            ranges: [all; MOST_PENDING],
            depth: 1,
        }
    }

    // The lowest of the ranges.
    pub(crate) fn first(&self) -> Option<Range<K>>
        ensures { option_map (range_ranks K.Family.rank) result ≡ first_of (ranks_of K.Family.rank self.now) }
    {
        self.ranges[..self.depth].last().copied()
    }

    // Drops the lowest of the ranges.
    pub(crate) fn drop_first(&mut self)
        ensures { ranks_of K.Family.rank self.new ≡ without_first (ranks_of K.Family.rank self.old) }
    {
        self.depth = self.depth.saturating_sub(1);
    }

    // Puts two ranges in the place of the lowest. Answers whether there was one, and memory for both; otherwise nothing
    // changes.
    pub(crate) fn replace_first(&mut self, lower: Range<K>, upper: Range<K>) -> bool
        ensures answer { result ≡ has_memory (ranks_of K.Family.rank self.old) }
        ensures after { ranks_of K.Family.rank self.new ≡ (if result then range_ranks K.Family.rank lower ∷ range_ranks K.Family.rank upper ∷ without_first (ranks_of K.Family.rank self.old) else ranks_of K.Family.rank self.old) }
    {
        let depth = self.depth;
        if depth == 0 || depth == MOST_PENDING {
            return false;
        }
        self.ranges[depth - 1] = upper;
        self.ranges[depth] = lower;
        self.depth = depth + 1;
        true
    }
}
