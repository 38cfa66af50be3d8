// Numbering the rows of a book.
ghost use Rattle.std.specs.Prelude.{◌≡◌, ◌+◌, ◌<◌, ◌++◌, drop, sum};
ghost use Rattle.lines.specs.Rules.{query_answer};
ghost use Rattle.job_law.specs.Numbering.{address_at, numbered, told_widths, width_of};
ghost use Rattle.discovery.specs.Books.{memory_of, rows_of};

use crate::book::Book;
use keys::address::Address;
use keys::family::Family;
use lines::line::Line;
use records::record::Record;

// The address of a fixture of this width, if the next free slot is this one.
fn address_at(next: u16, width: u16) -> Option<Address>
    ensures { result ≡ address_at next width }
{
    (width > 0).then_some(Address { slot: next })
}

// How many slots a key takes: none if it does not answer.
fn width_of<L: Line>(line: &mut L, key: L::Key) -> u16
    ensures same { L.Line.means line.new ≡ L.Line.means line.old }
    ensures value { result ≡ width_of (query_answer (L.Line.means line.old) key) }
{
    line.query(key).map_or(0, |footprint| footprint.width)
}

// Asks the key of each row for its width, and gives it the next free slots.
fn number<L: Line>(line: &mut L, rows: &mut [Record<L::Key>], first: u16)
    requires { first + sum (told_widths (L.Line.means line.old) rows.old) < 65536 }
    ensures same { L.Line.means line.new ≡ L.Line.means line.old }
    ensures after { rows.new ≡ numbered first (L.Line.means line.old) rows.old }
{
    let mut next = first;
    // Kept a loop: the line changes with each question, and what a closure has changed is not known after it.
    for row in rows.iter_mut() {
        let width = width_of(line, row.key);
        row.width = width;
        row.address = address_at(next, width);
        next += width;
    }
}

impl<'a, K: Family> Book<'a, K> {
    // The same for all of its rows.
    pub(crate) fn number<L: Line<Key = K>>(&mut self, line: &mut L, first: u16)
        requires { first + sum (told_widths (L.Line.means line.old) (rows_of self.old)) < 65536 }
        ensures same { L.Line.means line.new ≡ L.Line.means line.old }
        ensures count { self.new.count ≡ self.old.count }
        ensures after { memory_of self.new ≡ numbered first (L.Line.means line.old) (rows_of self.old) ++ drop self.old.count (memory_of self.old) }
    {
        number(line, &mut self.records[..self.count], first);
    }
}
