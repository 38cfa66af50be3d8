// The calls that a chain is made of.
ghost use Rattle.std.specs.Prelude.{◌≡◌};
ghost use Rattle.job_law.specs.Chain.{is_open};

use walk_law::phase::Phase;

#[derive(Clone, Copy, PartialEq, Eq)]
pub enum Call {
    // Begins a new search, in the place of the job before it.
    Open,
    // Begins the search anew.
    Again,
    // Asks and hears at most so many answers.
    Run(u32),
    // Numbers the fixtures in the book.
    Lay,
    // Writes the numbers to the fixtures.
    Commit,
    // Ends the job for good and shuts the line.
    Close,
}

// What a run answers.
#[derive(Clone, Copy)]
pub struct Ran {
    // How many answers it heard.
    pub heard: u32,
    pub phase: Phase,
}

impl Call {
    // Whether the call begins a new chain of work, as only open does after close.
    pub fn is_open(self) -> bool
        ensures { result ≡ is_open self }
    {
        self == Call::Open
    }
}
