// The cable that replies meet on.
ghost use Rattle.std.specs.Prelude.{◌≡◌, ℕ};
ghost use Rattle.branch.specs.Overlaid.{overlaid};
ghost use Rattle.rdm_line.specs.Cable.{signal_on, sent_bytes, lower, collided, joined};
ghost use Rattle.rdm_line.specs.Joining.{Joins};

use crate::mode::Mode;
use crate::overlay::overlay;
use fixtures::message::Message;
use keys::uid::Uid;

// A message, and the lowest key of those that sent it.
#[derive(Clone, Copy)]
pub struct Sent {
    pub message: Message,
    pub sender: Uid,
}

#[derive(Clone, Copy)]
pub enum Cable {
    // Nobody replied.
    Quiet,
    Carries(Sent),
    // Something that cannot be read.
    Noise,
}

// Both messages at once, bit by bit.
fn mix<F: Fn(u8, u8) -> u8>(first: Sent, second: Sent, join: F) -> Sent
    requires { F.IsAlwaysCallable join }
    ensures bytes { (together : ℕ → ℕ → ℕ) → Joins (F.post join) together → sent_bytes result ≡ overlaid together (sent_bytes first) (sent_bytes second) }
    ensures sender { result.sender ≡ lower first.sender second.sender }
{
    Sent {
        message: overlay(&first.message, &second.message, join),
        sender: first.sender.min(second.sender),
    }
}

// What two messages become together.
fn collide(mode: Mode, first: Sent, second: Sent) -> Cable
    ensures { signal_on result ≡ collided mode (sent_bytes first) first.sender (sent_bytes second) second.sender }
{
    match mode {
        Mode::Garble => Cable::Noise,
        Mode::Or => Cable::Carries(mix(first, second, |x, y| x | y)),
        Mode::And => Cable::Carries(mix(first, second, |x, y| x & y)),
        Mode::Lowest if second.sender < first.sender => Cable::Carries(second),
        Mode::Lowest => Cable::Carries(first),
    }
}

impl Cable {
    // What is on the cable when another signal comes to it.
    pub fn join(self, mode: Mode, other: Cable) -> Cable
        ensures { signal_on result ≡ joined mode (signal_on self) (signal_on other) }
    {
        match self {
            Cable::Quiet => other,
            Cable::Noise => Cable::Noise,
            Cable::Carries(first) => match other {
                Cable::Quiet => Cable::Carries(first),
                Cable::Noise => Cable::Noise,
                Cable::Carries(second) => collide(mode, first, second),
            },
        }
    }
}
