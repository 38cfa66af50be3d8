// How far a job has come.
ghost use Rattle.std.specs.Prelude.{◌≡◌};
ghost use Rattle.walk_law.specs.Phases.{phase_number, is_walking};
ghost use Rattle.walk_law.specs.Walk.{told};

use refusals::Refusal;

#[derive(Clone, Copy, PartialEq, Eq)]
pub enum Phase {
    // Ranges are pending.
    Walking = 0,
    // Every range was walked: the book lists every fixture.
    Walked = 1,
    // Every fixture in the book has its address there.
    Laid = 2,
    // Every fixture on the line has its address.
    Set = 3,
    // A fixture was found for which the book has no place.
    Full = 4,
    // The line answered what no line can answer.
    Contradicted = 5,
}

impl Phase {
    // The number by which a sheet of what was found tells it. A method, which says so; the numbers stand beside the cases.
    pub fn number(self) -> u8
        ensures { result ≡ phase_number self }
    {
        self as u8
    }

    // Whether questions are asked.
    pub fn is_walking(self) -> bool
        ensures { result ≡ is_walking self }
    {
        self == Phase::Walking
    }

    // What is told after a run or an answer: a walk that has ended as full or contradicted says so in place of an answer.
    pub fn told(self) -> Result<(), Refusal>
        ensures { result ≡ told self }
    {
        match self {
            Phase::Full => Err(Refusal::BookFull),
            Phase::Contradicted => Err(Refusal::Contradicted),
            Phase::Walking | Phase::Walked | Phase::Laid | Phase::Set => Ok(()),
        }
    }
}
