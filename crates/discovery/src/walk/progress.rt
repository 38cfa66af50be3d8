// How far a walk has come, and what that promises.
ghost use Rattle.std.specs.Prelude.{◌≡◌, length};
ghost use Rattle.lines.specs.Meaning.{Meaning};
ghost use Rattle.walk_law.specs.Law.{Answered, KeepsInBounds, Reached, FindsEveryFixture};
ghost use Rattle.discovery.specs.Books.{rows_of, places_of};
ghost use Rattle.discovery.specs.Walks.{walk_of};

use crate::book::Book;
use crate::walk::Walk;
use keys::family::Family;
use walk_law::phase::Phase;

#[derive(Clone, Copy)]
pub struct Progress {
    pub phase: Phase,
    // How many keys the book lists.
    pub listed: usize,
    // How many answers were heard.
    pub questions: u32,
}

impl<K: Family> Walk<K> {
    // How far the walk and its book have come. Whatever was answered, it has stayed within its memory, and the book ascends;
    // and where a line gave the answers, the walk finds every fixture.
    pub fn progress(&self, book: &Book<'_, K>) -> Progress
        ensures value { result ≡ record { phase = self.now.phase; listed = length (rows_of book.now); questions = self.now.questions } }
        ensures keeps_in_bounds { Answered K.Family.top (places_of book.now) (walk_of K.Family.rank self.now (rows_of book.now)) → KeepsInBounds K.Family.levels (places_of book.now) (walk_of K.Family.rank self.now (rows_of book.now)) }
        ensures finds_every_fixture { (m : Meaning K) → Reached K.Family.rank K.Family.top (places_of book.now) m (walk_of K.Family.rank self.now (rows_of book.now)) → FindsEveryFixture K.Family.rank K.Family.levels (places_of book.now) m (walk_of K.Family.rank self.now (rows_of book.now)) }
    {
        Progress {
            phase: self.phase,
            listed: book.count(),
            questions: self.questions,
        }
    }
}
