// Where a walk begins, how far it has come and what it asks.
ghost use Rattle.std.specs.Prelude.{◌≡◌, []};
ghost use Rattle.std.specs.Option.{option_map};
ghost use Rattle.walk_law.specs.Run.{question_ranks};
ghost use Rattle.walk_law.specs.Walk.{begun, asked};
ghost use Rattle.discovery.specs.Walks.{walk_of};

use crate::pending::Pending;
use crate::walk::Walk;
use keys::family::Family;
use walk_law::phase::Phase;
use walk_law::question::Question;

impl<K: Family> Walk<K> {
    // All keys are to be asked about, and none is listed.
    pub fn begin() -> Walk<K>
        ensures { walk_of K.Family.rank result [] ≡ begun K.Family.top }
    {
        Walk {
            phase: Phase::Walking,
            pending: Pending::all(),
            hushing: None,
            questions: 0,
        }
    }

    pub fn phase(&self) -> Phase
        ensures { result ≡ self.now.phase }
    {
        self.phase
    }

    pub(crate) fn enter(&mut self, phase: Phase)
        ensures { self.new ≡ record { phase = phase; pending = self.old.pending; hushing = self.old.hushing; questions = self.old.questions } }
    {
        self.phase = phase;
    }

    // How many answers were heard.
    pub fn questions(&self) -> u32
        ensures { result ≡ self.now.questions }
    {
        self.questions
    }

    // The next question; none outside walking.
    pub fn next(&self) -> Option<Question<K>>
        ensures { option_map (question_ranks K.Family.rank) result ≡ asked (walk_of K.Family.rank self.now []) }
    {
        match (self.phase, self.pending.first(), self.hushing) {
            (Phase::Walking, Some(_), Some(key)) => Some(Question::Hush(key)),
            (Phase::Walking, Some(range), None) => Some(Question::Probe(range)),
            _ => None,
        }
    }
}
