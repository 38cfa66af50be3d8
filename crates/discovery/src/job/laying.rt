// Numbering the fixtures of a book.
ghost use Rattle.std.specs.Prelude.{◌≡◌, ◌+◌, ◌<◌, ◌++◌, take, drop, sum};
ghost use Rattle.lines.specs.Rules.{query_answer};
ghost use Rattle.job_law.specs.Numbering.{address_at, all_answered, asked_widths, numbered, told_widths, total_of, width_of};
ghost use Rattle.job_law.specs.Calls.{Lays, refused_or_done, width_refusal, widths_refusal};
ghost use Rattle.discovery.specs.Books.{rows_of};
ghost use Rattle.discovery.specs.Jobs.{scene_of};

use crate::book::Book;
use crate::job::Job;
use keys::address::Address;
use keys::family::Family;
use lines::line::Line;
use records::record::Record;
use refusals::Refusal;
use walk_law::phase::Phase;

// The widths that the keys of the rows tell, in sum; none if one of them does not answer.
fn total_width<L: Line>(line: &mut L, rows: &[Record<L::Key>]) -> Option<u128>
    ensures same { L.Line.means line.new ≡ L.Line.means line.old }
    ensures value { result ≡ total_of (L.Line.means line.old) rows.now }
{
    let mut total = 0;
    // Kept a loop: the line changes with each question, and what a closure has changed is not known after it.
    for row in rows {
        total += u128::from(line.query(row.key)?.width);
    }
    Some(total)
}

// Why the rows of a book cannot be numbered, if they cannot. Every key is asked.
fn check_widths<L: Line>(line: &mut L, book: &Book<'_, L::Key>) -> Result<(), Refusal>
    ensures same { L.Line.means line.new ≡ L.Line.means line.old }
    ensures value { result ≡ refused_or_done (width_refusal L.Key.Family.count (all_answered (asked_widths (L.Line.means line.old) (rows_of book.now))) (sum (told_widths (L.Line.means line.old) (rows_of book.now)))) }
{
    let total = total_width(line, book.rows()).ok_or(Refusal::NoAnswer)?;
    if total > u128::from(L::Key::address_count()) {
        return Err(Refusal::TooWide);
    }
    Ok(())
}

// Why a job cannot be laid, if it cannot.
fn check<L: Line>(line: &mut L, book: &Book<'_, L::Key>, phase: Phase) -> Result<(), Refusal>
    ensures same { L.Line.means line.new ≡ L.Line.means line.old }
    ensures value { result ≡ refused_or_done (widths_refusal phase L.Key.Family.count (L.Line.means line.old) (rows_of book.now)) }
{
    // A match by a rule of the project: a phase and a call decide together.
    match phase {
        Phase::Walked => check_widths(line, book),
        Phase::Walking | Phase::Laid | Phase::Set | Phase::Full | Phase::Contradicted => {
            Err(Refusal::WrongPhase)
        }
    }
}

impl<K: Family> Job<K> {
    // Asks every listed key for its width and gives each, in the order of the keys, the next free slots of the family.
    // Refuses outside walked (20), when a key does not answer (24), and when there are not so many slots (25); then nothing
    // changes.
    pub fn lay<L: Line<Key = K>>(
        &mut self,
        line: &mut L,
        book: &mut Book<'_, K>,
    ) -> Result<(), Refusal>
        ensures { Lays K.Family.first K.Family.count (scene_of K.Family.rank (L.Line.means line.old) book.old self.old) result (scene_of K.Family.rank (L.Line.means line.new) book.new self.new) }
    {
        check(line, book, self.walk.phase())?;
        book.number(line, K::first_address());
        self.walk.enter(Phase::Laid);
        Ok(())
    }
}
