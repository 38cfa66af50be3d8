// The book: the keys that were found, in ascending order, in memory that the caller lends.
ghost use Rattle.std.specs.Prelude.{◌≡◌, suc, ◌≤◌, length, if◌then◌else◌, nat_lt};
ghost use Rattle.std.specs.List.{slice_get};
ghost use Rattle.walk_law.specs.Ranks.{is_in};
ghost use Rattle.records.specs.Rows.{row_ranks};

use keys::family::Family;
use records::listing;
use records::record::Record;

// The most records that a book has, however much memory it is lent.
const MOST_PLACES: usize = 65_536;

// The rows are the first `count` records of the memory, never more than there are places. A slice with a count, since the
// memory is lent.
#[derive(Drop)]
pub struct Book<'a, K> {
    records: &'a mut [Record<K>],
    count: usize,
    ghost within: { count ≤ length records.now },
    ghost few: { count ≤ 65536 },
}

impl<'a, K: Family> Book<'a, K> {
    ghost use Rattle.discovery.specs.Books.{memory_of, rows_of, places_of, memory_with};

    // An empty book. No record is written.
    pub fn new(records: &'a mut [Record<K>]) -> Book<'a, K>
        ensures empty { result.count ≡ 0 }
        ensures memory { memory_of result ≡ records.old }
    {
        Book { records, count: 0 }
    }

    // Empties the book. No record is written.
    pub fn clear(&mut self)
        ensures empty { self.new.count ≡ 0 }
        ensures memory { memory_of self.new ≡ memory_of self.old }
    {
        self.count = 0;
    }

    // How many keys are listed.
    pub fn count(&self) -> usize
        ensures { result ≡ length (rows_of self.now) }
    {
        self.count
    }

    // How many keys can be listed.
    pub fn places(&self) -> usize
        ensures { result ≡ places_of self.now }
    {
        self.records.len().min(MOST_PLACES)
    }

    // The rows, in ascending order of their keys.
    pub fn rows(&self) -> &[Record<K>]
        ensures { result.now ≡ rows_of self.now }
    {
        &self.records[..self.count]
    }

    // The row with a number, counted from 0; none past the last.
    pub fn row(&self, i: usize) -> Option<Record<K>>
        ensures { result ≡ slice_get (rows_of self.now) i }
    {
        self.rows().get(i).copied()
    }

    // Whether a key is listed.
    pub fn is_listed(&self, key: K) -> bool
        ensures { result ≡ is_in (K.Family.rank key) (row_ranks K.Family.rank (rows_of self.now)) }
    {
        listing::is_listed(self.rows(), key)
    }

    // Lists a key where it belongs, with width 0 and no address; the rows behind it move up by one, and no other record is
    // written. Answers whether there was a place; otherwise nothing changes.
    pub(crate) fn list(&mut self, key: K) -> bool
        ensures answer { result ≡ nat_lt self.old.count (places_of self.old) }
        ensures count { self.new.count ≡ (if result then suc self.old.count else self.old.count) }
        ensures memory { memory_of self.new ≡ (if result then memory_with K.Family.rank key self.old else memory_of self.old) }
    {
        if self.count >= self.places() {
            return false;
        }
        let listed = listing::list(self.records, self.count, key);
        self.count += 1;
        listed
    }
}

mod numbering;
