// Ranges of keys, both ends included, and their halves.
ghost use Rattle.keys.specs.Family.{Halves};

use crate::family::Family;
use crate::order::{after, half, is_below};

#[derive(Clone, Copy, PartialEq, Eq)]
pub struct Range<K> {
    pub lo: K,
    pub hi: K,
}

// Both halves of a range: lo to the half, and the key after it to hi. One key alone, or no key, has no halves.
pub fn split<K: Family>(range: Range<K>) -> Option<(Range<K>, Range<K>)>
    ensures { Halves K.rank range result }
{
    if !is_below(range.lo, range.hi) {
        return None;
    }
    let middle = half(range.lo, range.hi);
    let lower = Range {
        lo: range.lo,
        hi: middle,
    };
    let upper = Range {
        lo: after(middle)?,
        hi: range.hi,
    };
    Some((lower, upper))
}
