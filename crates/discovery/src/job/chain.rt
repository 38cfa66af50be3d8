// Chains of calls: each is made on the same line and book, and on the newest job.
ghost use Rattle.std.specs.Prelude.{◌≡◌, true, false, ◌∷◌};
ghost use Rattle.job_law.specs.Chain.{Link, with_job, is_made, made};
ghost use Rattle.job_law.specs.Promise.{GoesOn, LeadsHere};
ghost use Rattle.job_law.specs.declared.call.Call.TheVariants.{Open};
ghost use Rattle.discovery.specs.Books.{memory_of};
ghost use Rattle.discovery.specs.Jobs.{scene_of};
ghost use Rattle.discovery.specs.Chains.{state_of, is_closed};

use crate::book::Book;
use crate::job::{ClosedJob, Job};
use job_law::call::Call;
use keys::family::Family;
use lines::line::Line;

// The job that the last open or again began, or what close has left of it. An enum of its own, since a closed job is no error.
pub enum NewestJob<K> {
    Open(Job<K>),
    Closed(ClosedJob),
}

// Makes a call where there is a job. Calls are values, since chains of them are what the promise speaks of.
fn call_job<L: Line>(
    line: &mut L,
    book: &mut Book<'_, L::Key>,
    mut job: Job<L::Key>,
    call: Call,
) -> NewestJob<L::Key>
    ensures { Link L.Key.Family.rank L.Key.Family.top L.Key.Family.first L.Key.Family.count (with_job (scene_of L.Key.Family.rank (L.Line.means line.old) book.old job)) call (state_of L.Key.Family.rank (L.Line.means line.new) book.new result) }
{
    // Where a call is refused the phase tells what can be done next.
    match call {
        // A new search takes the place of the one before.
        Call::Open | Call::Again => job.again(line, book),
        Call::Run(budget) => {
            let _ = job.run(line, book, budget);
        }
        Call::Lay => {
            let _ = job.lay(line, book);
        }
        Call::Commit => {
            let _ = job.commit(line, book);
        }
        Call::Close => return NewestJob::Closed(job.close(line)),
    }
    NewestJob::Open(job)
}

impl<K: Family> NewestJob<K> {
    // Makes one call more of a chain. After close only an open is made; any other call changes nothing.
    pub fn then<L: Line<Key = K>>(
        self,
        line: &mut L,
        book: &mut Book<'_, K>,
        call: Call,
    ) -> NewestJob<K>
        ensures makes_the_call { is_made (is_closed self) call ≡ true → Link K.Family.rank K.Family.top K.Family.first K.Family.count (state_of K.Family.rank (L.Line.means line.old) book.old self) call (state_of K.Family.rank (L.Line.means line.new) book.new result) }
        ensures or_changes_nothing { is_made (is_closed self) call ≡ false → state_of K.Family.rank (L.Line.means line.new) book.new result ≡ state_of K.Family.rank (L.Line.means line.old) book.old self }
        ensures every_chain_goes_on_as_promised { is_made (is_closed self) call ≡ true → GoesOn K.Family.rank K.Family.levels K.Family.top K.Family.first K.Family.count (state_of K.Family.rank (L.Line.means line.old) book.old self) call (state_of K.Family.rank (L.Line.means line.new) book.new result) }
    {
        match self {
            NewestJob::Open(job) => call_job(line, book, job, call),
            NewestJob::Closed(
                ClosedJob {
                    phase: _,
                    questions: _,
                },
            ) if call.is_open() => NewestJob::Open(Job::open(line, book)),
            NewestJob::Closed(closed) => NewestJob::Closed(closed),
        }
    }
}

// Opens a job on a line and a book, and makes these calls, in their order.
pub fn follow<L: Line>(
    line: &mut L,
    book: &mut Book<'_, L::Key>,
    calls: &[Call],
) -> NewestJob<L::Key>
    ensures leads_here_as_promised { LeadsHere L.Key.Family.rank L.Key.Family.levels L.Key.Family.top L.Key.Family.first L.Key.Family.count (L.Line.means line.old) (memory_of book.old) (Open ∷ made false calls.now) (state_of L.Key.Family.rank (L.Line.means line.new) book.new result) }
{
    let mut newest = NewestJob::Open(Job::open(line, book));
    // Kept a loop: the line and the book change with each call, and what a closure has changed is not known after it.
    for call in calls {
        newest = newest.then(line, book, *call);
    }
    newest
}
