// Questions that are put to every fixture of a table.
ghost use Rattle.std.specs.Prelude.{◌≡◌};
ghost use Rattle.rdm_line.specs.Asking.{asked, replies};
ghost use Rattle.rdm_line.specs.Cable.{signal_on};

use crate::cable::Cable;
use crate::mode::Mode;
use crate::sending::send;
use fixtures::fixture::Fixture;
use rdm::question::Question;

// The transaction number of every question.
pub const TRANSACTION: u8 = 0;

// No question is longer than the one about a branch: 24 bytes of header, two keys and a checksum.
const LONGEST_QUESTION: usize = 38;

// Writes a question, lends its bytes to every fixture of a table and answers what is then on the cable. What the writer
// refuses is not sent, and the cable stays quiet. Fixtures and mode come apart, as in `send`.
pub fn ask(fixtures: &mut [Fixture], mode: Mode, question: Question) -> Cable
    ensures table { fixtures.new ≡ asked question fixtures.old }
    ensures signal { signal_on result ≡ replies mode question fixtures.old }
{
    let mut buf = [0; LONGEST_QUESTION];
    // A match: one arm changes the fixtures, and a proof hardly learns what a closure has changed.
    match question.write(TRANSACTION, &mut buf) {
        Ok(len) => send(fixtures, &buf[0..len], mode),
        Err(_) => Cable::Quiet,
    }
}
