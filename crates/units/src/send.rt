// Sending a frame to every unit.
ghost use Rattle.units.specs.Sent.{Sent};

use crate::bus::Bus;
use crate::received::Received;
use crate::unit::Unit;
use dali::frame::Frame;

// Sends the bytes of a frame over the bus. Every unit reads them and reacts, and the replies meet. Units and bus come apart,
// so that a caller may keep its units as it likes.
pub fn send(units: &mut [Unit], bus: &mut Bus, frame: Frame) -> Received
    ensures { Sent units.old bus.old frame result units.new bus.new }
{
    let bytes = frame.bytes();
    let mut received = Received::Nothing;
    // A loop: it changes each unit, which the proof of a chain does not see.
    for unit in units.iter_mut() {
        received = received.with(unit.hear(bytes, bus));
    }
    bus.hear(bytes);
    received
}
