// Every refusal of the project, and the number by which programs, scripts and C tell it.

#![tactic(auto)]

ghost use Rattle.std.specs.Prelude.{◌≡◌};
ghost use Rattle.refusals.specs.Numbers.{number_of};

#[derive(Clone, Copy, Debug, PartialEq, Eq)]
pub enum Refusal {
    // A number that is no key of its family.
    NotAKey = 1,
    // The lower end of a range is above its upper end.
    LowerAboveUpper = 2,
    // An address outside the family.
    AddressOutside = 3,
    // The buffer is too short for what is to be written.
    BufferTooShort = 4,
    // The bytes begin otherwise than such a frame or reply does.
    WrongStart = 5,
    // The bytes are more or fewer than they have to be.
    WrongLength = 6,
    // A pair of bytes of a branch reply lacks the bits that are always set.
    MissingBits = 7,
    // The sum at the end is not that of the bytes.
    WrongChecksum = 8,
    // A good reply, but not to this question.
    NoMatch = 9,
    // Malformed, missing or extra; unequal lists.
    Malformed = 10,
    // Above a limit.
    AboveLimit = 11,
    // A key that was there before.
    KeyTwice = 12,
    // An answer to another kind of question.
    OtherKind = 13,
    // The phase does not allow the call.
    WrongPhase = 20,
    // A fixture was found and the book has no place for it.
    BookFull = 21,
    // The line contradicted itself.
    Contradicted = 22,
    // No more questions are counted.
    QuestionsSpent = 23,
    // A fixture does not answer as the book has it.
    NoAnswer = 24,
    // The widths need more addresses than the family has.
    TooWide = 25,
}

impl Refusal {
    // A method, which says that it is a number; the numbers stand beside the cases.
    pub fn number(self) -> u8
        ensures { result ≡ number_of self }
    {
        self as u8
    }
}
