// Where a job begins and ends.
ghost use Rattle.std.specs.Prelude.{◌≡◌};
ghost use Rattle.lines.specs.Rules.{rested};
ghost use Rattle.job_law.specs.Calls.{Opens};
ghost use Rattle.discovery.specs.Books.{memory_of};
ghost use Rattle.discovery.specs.Jobs.{scene_of};

use crate::book::Book;
use crate::job::{ClosedJob, Job};
use crate::walk::Walk;
use keys::family::Family;
use lines::line::Line;

impl<K: Family> Job<K> {
    // Rouses the line, empties the book and begins a walk with 0 questions.
    pub fn open<L: Line<Key = K>>(line: &mut L, book: &mut Book<'_, K>) -> Job<K>
        ensures { Opens K.Family.top K.Family.first K.Family.count (L.Line.means line.old) (memory_of book.old) (scene_of K.Family.rank (L.Line.means line.new) book.new result) }
    {
        line.rouse();
        book.clear();
        Job {
            walk: Walk::begin(),
        }
    }

    // The same for an existing job, in any phase.
    pub fn again<L: Line<Key = K>>(&mut self, line: &mut L, book: &mut Book<'_, K>)
        ensures { Opens K.Family.top K.Family.first K.Family.count (L.Line.means line.old) (memory_of book.old) (scene_of K.Family.rank (L.Line.means line.new) book.new self.new) }
    {
        let Job { walk } = Job::open(line, book);
        self.walk = walk;
    }

    // Takes the job for good and rests the line. The closed job has its phase and its questions.
    pub fn close<L: Line<Key = K>>(self, line: &mut L) -> ClosedJob
        ensures line { L.Line.means line.new ≡ rested (L.Line.means line.old) }
        ensures job { result ≡ record { phase = self.walk.phase; questions = self.walk.questions } }
    {
        line.rest();
        let Job { walk } = self;
        ClosedJob {
            phase: walk.phase(),
            questions: walk.questions(),
        }
    }
}
