// Asking and hearing.
ghost use Rattle.std.specs.Prelude.{◌≡◌, ◌^◌, ◌≤◌, true, ◌⊎◌, None, MatchBool};
ghost use Rattle.walk_law.specs.Walk.{asked};
ghost use Rattle.job_law.specs.Calls.{Asks, Questions, ran_answer, Runs};
ghost use Rattle.discovery.specs.Jobs.{scene_of, Replies, NothingToAsk, Stops};

use crate::book::Book;
use crate::job::Job;
use crate::walk::MOST_QUESTIONS;
use job_law::call::Ran;
use keys::family::Family;
use lines::line::Line;
use refusals::Refusal;
use walk_law::phase::Phase;
use walk_law::question::{Answer, Question};

fn put_question<L: Line>(line: &mut L, question: Question<L::Key>) -> Answer<L::Key>
    ensures { Replies L.Key.Family.rank (L.Line.means line.old) question result (L.Line.means line.new) }
{
    match question {
        Question::Probe(range) => Answer::Probe(line.probe(range)),
        Question::Hush(key) => Answer::Hush(line.hush(key)),
    }
}

// Puts the next question to the line and hears the answer. Answers whether there was one to be asked and counted.
fn ask<L: Line>(line: &mut L, book: &mut Book<'_, L::Key>, job: &mut Job<L::Key>) -> bool
    ensures { MatchBool result (Asks L.Key.Family.rank (scene_of L.Key.Family.rank (L.Line.means line.old) book.old job.old) (scene_of L.Key.Family.rank (L.Line.means line.new) book.new job.new)) (Stops (scene_of L.Key.Family.rank (L.Line.means line.old) book.old job.old) (scene_of L.Key.Family.rank (L.Line.means line.new) book.new job.new)) }
{
    if job.walk.questions() >= MOST_QUESTIONS {
        return false;
    }
    let Some(question) = job.walk.next() else {
        return false;
    };
    let answer = put_question(line, question);
    // What becomes of the walk is told by its phase.
    let _ = job.walk.hear(book, answer);
    true
}

// Asks until so many answers are heard, or there is nothing to be asked. Answers how many were heard.
fn ask_on<L: Line>(
    line: &mut L,
    book: &mut Book<'_, L::Key>,
    job: &mut Job<L::Key>,
    budget: u32,
) -> u32
    ensures bound { result ≤ budget }
    ensures questions { Questions L.Key.Family.rank (scene_of L.Key.Family.rank (L.Line.means line.old) book.old job.old) result (scene_of L.Key.Family.rank (L.Line.means line.new) book.new job.new) }
    ensures stops { (result ≡ budget) ⊎ NothingToAsk (scene_of L.Key.Family.rank (L.Line.means line.new) book.new job.new) }
{
    // Kept a loop: the line and the book change with each question, and what a closure has changed is not known after it.
    for heard in 0..budget {
        if !ask(line, book, job) {
            return heard;
        }
    }
    budget
}

// What a run answers: how much was heard and how far the walk has come, unless it ended as full or contradicted.
fn ran(heard: u32, phase: Phase) -> Result<Ran, Refusal>
    ensures { result ≡ ran_answer heard phase }
{
    phase.told()?;
    Ok(Ran { heard, phase })
}

impl<K: Family> Job<K> {
    // Asks and hears until so many answers are heard or the walk ends, or no more questions are counted. Refuses outside
    // walking (20) and when no more questions are counted (23), and then changes nothing; a walk that ends as full (21) or
    // contradicted (22) says so in place of an answer.
    pub fn run<L: Line<Key = K>>(
        &mut self,
        line: &mut L,
        book: &mut Book<'_, K>,
        budget: u32,
    ) -> Result<Ran, Refusal>
        ensures { Runs K.Family.rank budget (scene_of K.Family.rank (L.Line.means line.old) book.old self.old) result (scene_of K.Family.rank (L.Line.means line.new) book.new self.new) }
    {
        if !self.walk.phase().is_walking() {
            return Err(Refusal::WrongPhase);
        }
        if self.walk.questions() >= MOST_QUESTIONS {
            return Err(Refusal::QuestionsSpent);
        }
        let heard = ask_on(line, book, self, budget);
        ran(heard, self.walk.phase())
    }
}
