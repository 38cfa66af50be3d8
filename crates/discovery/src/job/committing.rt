// Writing the addresses of a book to the fixtures.
ghost use Rattle.std.specs.Prelude.{◌≡◌};
ghost use Rattle.job_law.specs.Numbering.{address_suits, row_stands, all_stand, written_to, all_written};
ghost use Rattle.job_law.specs.Calls.{Commits, refused_or_done, rows_refusal};
ghost use Rattle.discovery.specs.Books.{rows_of};
ghost use Rattle.discovery.specs.Jobs.{scene_of};

use crate::book::Book;
use crate::job::Job;
use keys::address::{Address, is_in_family};
use keys::family::Family;
use lines::line::Line;
use records::record::Record;
use refusals::Refusal;
use walk_law::phase::Phase;

// Whether a fixture of this width can have this address: one of the family's above width 0, none at width 0.
fn address_suits<K: Family>(width: u16, address: Option<Address>) -> bool
    ensures { result ≡ address_suits K.Family.first K.Family.count width address }
{
    address.map_or(
        width == 0,
        |address| width != 0 && is_in_family::<K>(address),
    )
}

// Whether a row can be written to its fixture: it answers with the width that the row has, and the address suits that.
fn stands<L: Line>(line: &mut L, row: Record<L::Key>) -> bool
    ensures same { L.Line.means line.new ≡ L.Line.means line.old }
    ensures value { result ≡ row_stands L.Key.Family.first L.Key.Family.count (L.Line.means line.old) row }
{
    line.query(row.key).is_some_and(|footprint| {
        footprint.width == row.width && address_suits::<L::Key>(row.width, row.address)
    })
}

fn all_stand<L: Line>(line: &mut L, rows: &[Record<L::Key>]) -> bool
    ensures same { L.Line.means line.new ≡ L.Line.means line.old }
    ensures value { result ≡ all_stand L.Key.Family.first L.Key.Family.count (L.Line.means line.old) rows.now }
{
    // Kept a loop: the line changes with each question, and what a closure has changed is not known after it.
    for row in rows {
        if !stands(line, *row) {
            return false;
        }
    }
    true
}

// Gives a fixture the address of its row, if that has one.
fn write_row<L: Line>(line: &mut L, row: Record<L::Key>)
    ensures { L.Line.means line.new ≡ written_to L.Key.Family.rank L.Key.Family.first L.Key.Family.count (L.Line.means line.old) row.key row.address }
{
    if let Some(address) = row.address {
        line.set(row.key, address);
    }
}

fn write_rows<L: Line>(line: &mut L, rows: &[Record<L::Key>])
    ensures { L.Line.means line.new ≡ all_written L.Key.Family.rank L.Key.Family.first L.Key.Family.count (L.Line.means line.old) rows.now }
{
    // Kept a loop: the line changes with each row, and what a closure has changed is not known after it.
    for row in rows {
        write_row(line, *row);
    }
}

// Why a job cannot be committed, if it cannot.
fn check<L: Line>(line: &mut L, book: &Book<'_, L::Key>, phase: Phase) -> Result<(), Refusal>
    ensures same { L.Line.means line.new ≡ L.Line.means line.old }
    ensures value { result ≡ refused_or_done (rows_refusal phase L.Key.Family.first L.Key.Family.count (L.Line.means line.old) (rows_of book.now)) }
{
    // A match by a rule of the project: a phase and a call decide together.
    match phase {
        Phase::Laid => {
            if all_stand(line, book.rows()) {
                Ok(())
            } else {
                Err(Refusal::NoAnswer)
            }
        }
        Phase::Walking | Phase::Walked | Phase::Set | Phase::Full | Phase::Contradicted => {
            Err(Refusal::WrongPhase)
        }
    }
}

impl<K: Family> Job<K> {
    // Writes the address of every row to its fixture, after a look at every row. Refuses outside laid (20), and when a
    // fixture does not answer with the width that its row has or the address does not suit that (24); then nothing changes.
    pub fn commit<L: Line<Key = K>>(
        &mut self,
        line: &mut L,
        book: &Book<'_, K>,
    ) -> Result<(), Refusal>
        ensures { Commits K.Family.rank K.Family.first K.Family.count (scene_of K.Family.rank (L.Line.means line.old) book.now self.old) result (scene_of K.Family.rank (L.Line.means line.new) book.now self.new) }
    {
        check(line, book, self.walk.phase())?;
        write_rows(line, book.rows());
        self.walk.enter(Phase::Set);
        Ok(())
    }
}
