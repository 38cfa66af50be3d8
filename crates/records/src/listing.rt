// Listing keys in ascending order.
ghost use Rattle.std.specs.Prelude.{◌≡◌, suc, ◌≤◌, ◌++◌, length, take, drop, if◌then◌else◌, nat_lt};
ghost use Rattle.walk_law.specs.Ranks.{is_in};
ghost use Rattle.records.specs.Rows.{row_ranks, place_of, with_key};

use crate::record::Record;
use keys::family::Family;
use keys::order::{is_below, is_same};

// These two go through the rows from the first on. A binary search would ask that the rows ascend, as those of a book do, and
// other callers' need not.

// Whether a key is in one of the rows.
pub fn is_listed<K: Family>(rows: &[Record<K>], key: K) -> bool
    ensures { result ≡ is_in (K.Family.rank key) (row_ranks K.Family.rank rows.now) }
{
    rows.iter().any(|row| is_same(key, row.key))
}

// Where a key belongs: behind the first rows, as long as their keys are below it.
fn place<K: Family>(rows: &[Record<K>], key: K) -> usize
    ensures value { result ≡ place_of K.Family.rank (K.Family.rank key) rows.now }
    ensures bound { result ≤ length rows.now }
{
    rows.iter().take_while(|row| is_below(row.key, key)).count()
}

// Lists a key among so many rows at the beginning of some memory; those behind it move up by one. Answers whether there was
// a place for one more; otherwise nothing is written.
// The count is a number of its own, since it need not be within the memory: the answer tells.
pub fn list<K: Family>(memory: &mut [Record<K>], count: usize, key: K) -> bool
    ensures answer { result ≡ nat_lt count (length memory.old) }
    ensures after { memory.new ≡ (if nat_lt count (length memory.old) then with_key K.Family.rank key (take count memory.old) ++ drop (suc count) memory.old else memory.old) }
{
    if count >= memory.len() {
        return false;
    }
    let at = place(&memory[..count], key);
    memory[count] = Record::new(key);
    memory[at..=count].rotate_right(1);
    true
}
