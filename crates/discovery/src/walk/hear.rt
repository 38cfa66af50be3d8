// What an answer makes of a walk and its book.
ghost use Rattle.std.specs.Prelude.{◌≡◌, ℕ, ◌^◌, ◌<◌, List};
ghost use Rattle.std.specs.Option.{option_map};
ghost use Rattle.records.specs.Rows.{row_ranks};
ghost use Rattle.lines.specs.Meaning.{Meaning};
ghost use Rattle.walk_law.specs.Listing.{lists_in, lists_key};
ghost use Rattle.walk_law.specs.Law.{Reached, LeadsOn};
ghost use Rattle.walk_law.specs.Run.{answer_ranks, Honest};
ghost use Rattle.walk_law.specs.Walk.{in_memory, after_answer, refusal_in, hearing_told, heard};
ghost use Rattle.walk_law.specs.declared.phase.Phase.TheVariants.{Walking};
ghost use Rattle.job_law.specs.Calls.{refused_or_done};
ghost use Rattle.discovery.specs.Books.{rows_of, places_of, BookAfter};
ghost use Rattle.discovery.specs.Courses.{course_ranks, taken};
ghost use Rattle.discovery.specs.Pending.{ranks_of};
ghost use Rattle.discovery.specs.Walks.{standing, walk_of};

use crate::book::Book;
use crate::walk::course::{Course, after_no, after_probe, after_yes};
use crate::walk::{MOST_QUESTIONS, Walk};
use keys::family::Family;
use refusals::Refusal;
use walk_law::phase::Phase;
use walk_law::question::Answer;

impl<K: Family> Walk<K> {
    // Takes a course, and counts one question. There is always memory for both halves of a range.
    fn take(&mut self, course: Course<K>)
        requires few { self.old.questions < 2 ^ 24 }
        requires walking { self.old.phase ≡ Walking }
        ensures { (listed : List ℕ) → standing K.Family.rank self.new listed ≡ taken (course_ranks K.Family.rank course) (standing K.Family.rank self.old listed) }
    {
        self.questions += 1;
        match course {
            Course::Drop => {
                self.pending.drop_first();
                self.hushing = None;
                if self.pending.first().is_none() {
                    self.phase = Phase::Walked;
                }
            }
            Course::Probe => self.hushing = None,
            Course::Hush(key) => self.hushing = Some(key),
            Course::Split(lower, upper) => {
                if self.pending.replace_first(lower, upper) {
                    self.hushing = None;
                } else {
                    self.phase = Phase::Contradicted;
                }
            }
            Course::End(phase) => self.phase = phase,
        }
    }

    // What an answer makes of the walk while questions are counted.
    fn hear_answer(&mut self, book: &mut Book<'_, K>, answer: Answer<K>)
        requires few { self.old.questions < 2 ^ 24 }
        requires walking { self.old.phase ≡ Walking }
        ensures walk { walk_of K.Family.rank self.new (rows_of book.new) ≡ in_memory (walk_of K.Family.rank self.old (rows_of book.old)) (after_answer (places_of book.old) (ranks_of K.Family.rank self.old.pending) (option_map K.Family.rank self.old.hushing) (answer_ranks K.Family.rank answer) (walk_of K.Family.rank self.old (rows_of book.old))) }
        ensures book { BookAfter K.Family.rank self.old.hushing (lists_in (places_of book.old) (ranks_of K.Family.rank self.old.pending) (option_map K.Family.rank self.old.hushing) (answer_ranks K.Family.rank answer) (row_ranks K.Family.rank (rows_of book.old))) book.old book.new }
    {
        let Some(range) = self.pending.first() else {
            return;
        };
        match (self.hushing, answer) {
            (None, Answer::Probe(reply)) => self.take(after_probe(book, range, reply)),
            (Some(key), Answer::Hush(replied)) => {
                if replied {
                    self.take(after_yes(book, range, key));
                } else {
                    self.take(after_no(range));
                }
            }
            // An answer to the other kind of question changes nothing.
            (None, Answer::Hush(_)) => {}
            (Some(_), Answer::Probe(_)) => {}
        }
    }

    // Whether an answer is heard.
    fn check(&self, answer: Answer<K>) -> Result<(), Refusal>
        ensures { result ≡ refused_or_done (refusal_in self.now.phase self.now.questions (option_map K.Family.rank self.now.hushing) (answer_ranks K.Family.rank answer)) }
    {
        // A match by a rule of the project: the phase, the pending question and the answer decide together.
        match (self.phase, self.hushing, answer) {
            (Phase::Walking, _, _) if self.questions >= MOST_QUESTIONS => {
                Err(Refusal::QuestionsSpent)
            }
            (Phase::Walking, None, Answer::Probe(_)) | (Phase::Walking, Some(_), Answer::Hush(_)) =>
                Ok(()),
            (Phase::Walking, _, _) => Err(Refusal::OtherKind),
            _ => Err(Refusal::WrongPhase),
        }
    }

    // Hears the answer to the next question. Refuses, without a change: outside walking (20), when no more questions are
    // counted (23), an answer to the other kind of question (13). An answer that finds no place for a key (21) or
    // contradicts the line's own words (22) counts and ends the walk; the book stays as it was.
    // Every answer that a line may give is heard, and never contradicts.
    pub fn hear(&mut self, book: &mut Book<'_, K>, answer: Answer<K>) -> Result<(), Refusal>
        ensures answer { result ≡ hearing_told (places_of book.old) (walk_of K.Family.rank self.old (rows_of book.old)) (answer_ranks K.Family.rank answer) }
        ensures walk { walk_of K.Family.rank self.new (rows_of book.new) ≡ heard (places_of book.old) (walk_of K.Family.rank self.old (rows_of book.old)) (answer_ranks K.Family.rank answer) }
        ensures book { BookAfter K.Family.rank self.old.hushing (lists_key (places_of book.old) (walk_of K.Family.rank self.old (rows_of book.old)) (answer_ranks K.Family.rank answer)) book.old book.new }
        ensures honest_answers_lead_on { (m n : Meaning K) → Reached K.Family.rank K.Family.top (places_of book.old) m (walk_of K.Family.rank self.old (rows_of book.old)) → Honest K.Family.rank m (walk_of K.Family.rank self.old (rows_of book.old)) answer n → LeadsOn K.Family.rank K.Family.top (places_of book.old) n (walk_of K.Family.rank self.old (rows_of book.old)) (walk_of K.Family.rank self.new (rows_of book.new)) result }
    {
        self.check(answer)?;
        self.hear_answer(book, answer);
        self.phase.told()
    }
}
