// Messages that overlap bit by bit.
ghost use Rattle.std.specs.Prelude.{◌≡◌, ℕ};
ghost use Rattle.branch.specs.Overlaid.{overlaid};
ghost use Rattle.fixtures.specs.Message.{message_bytes};
ghost use Rattle.rdm_line.specs.Joining.{Joins};

use fixtures::message::{LONGEST, Message};

// Two messages at once, byte for byte, as long as both last. How two bytes meet is the caller's to say.
pub fn overlay<F: Fn(u8, u8) -> u8>(a: &Message, b: &Message, join: F) -> Message
    requires { F.IsAlwaysCallable join }
    ensures { (joined : ℕ → ℕ → ℕ) → Joins (F.post join) joined → message_bytes result ≡ overlaid joined (message_bytes a.now) (message_bytes b.now) }
{
    let mut bytes = [0; LONGEST];
    let len = a.len.min(b.len);
    // By index: once a loop over `iter_mut().zip(..)` is done, its proof knows no element of the array.
    for i in 0..len {
        bytes[i] = join(a.bytes[i], b.bytes[i]);
    }
    Message { bytes, len }
}
