// Frames that every fixture of a table hears.
ghost use Rattle.std.specs.Prelude.{◌≡◌, map};
ghost use Rattle.rdm_line.specs.Cable.{signal_on};
ghost use Rattle.rdm_line.specs.Sending.{reply_to, after, replies_to};

use crate::cable::{Cable, Sent};
use crate::mode::Mode;
use fixtures::fixture::Fixture;

// Lends a frame to one fixture, and answers what it puts on the cable.
fn speak_to(fixture: &mut Fixture, frame: &[u8]) -> Cable
    ensures fixture { fixture.new ≡ after frame.now fixture.old }
    ensures signal { signal_on result ≡ reply_to frame.now fixture.old }
{
    let sender = fixture.key;
    fixture.react(frame).map_or(
        Cable::Quiet,
        |message| Cable::Carries(Sent { message, sender }),
    )
}

// Lends a frame to every fixture of a table, and answers what is then on the cable. Fixtures and mode come apart, so that a
// caller may keep its table as it likes.
pub fn send(fixtures: &mut [Fixture], frame: &[u8], mode: Mode) -> Cable
    ensures table { fixtures.new ≡ map (after frame.now) fixtures.old }
    ensures signal { signal_on result ≡ replies_to mode frame.now fixtures.old }
{
    let mut cable = Cable::Quiet;
    // A loop: it changes each fixture, which the proof of a chain does not see.
    for fixture in fixtures.iter_mut() {
        cable = cable.join(mode, speak_to(fixture, frame));
    }
    cable
}
