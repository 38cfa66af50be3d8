// What a unit does on a frame.
ghost use Rattle.std.specs.Prelude.{◌≡◌};
ghost use Rattle.dali.specs.Frame.{frame_bytes};
ghost use Rattle.units.specs.Unit.{is_sought, is_selected, unit_after, unit_reply};

use crate::bus::Bus;
use crate::state::State;
use crate::unit::Unit;
use dali::frame::Frame;
use dali::reply::{YES, address_reply};

impl Unit {
    // The unit whose key is the search address.
    fn is_sought(&self, bus: &Bus) -> bool
        ensures { result ≡ is_sought bus.now self.now }
    {
        self.key.number() == bus.search.number()
    }

    // The unit at the search address, unless it is disabled.
    fn is_selected(&self, bus: &Bus) -> bool
        ensures { result ≡ is_selected bus.now self.now }
    {
        self.state != State::Disabled && self.is_sought(bus)
    }

    fn reply(&self, frame: Frame, bus: &Bus) -> Option<u8>
        ensures { result ≡ unit_reply bus.now frame self.now }
    {
        match frame {
            Frame::Compare
                if self.state == State::Enabled && self.key.number() <= bus.search.number() => Some(
                YES,
            ),
            Frame::QueryShortAddress if self.is_selected(bus) => Some(address_reply(self.address)),
            _ => None,
        }
    }

    fn change(&mut self, frame: Frame, bus: &Bus)
        ensures { self.new ≡ unit_after bus.now frame self.old }
    {
        match frame {
            Frame::Terminate => self.state = State::Disabled,
            Frame::Initialise if bus.was_initialise() => self.state = State::Enabled,
            Frame::Withdraw if self.state == State::Enabled && self.is_sought(bus) => {
                self.state = State::Withdrawn;
            }
            Frame::Program(address) if self.is_selected(bus) => self.address = Some(address),
            Frame::Delete if self.is_selected(bus) => self.address = None,
            _ => {}
        }
    }

    // A unit reacts to a frame: it may reply with a byte, and it may change. The bus is as it was before the frame.
    pub fn react(&mut self, frame: Frame, bus: &Bus) -> Option<u8>
        ensures answer { result ≡ unit_reply bus.now frame self.old }
        ensures after { self.new ≡ unit_after bus.now frame self.old }
    {
        let reply = self.reply(frame, bus);
        self.change(frame, bus);
        reply
    }

    // The same for the two bytes of a frame, as they come over the bus. Each pair of bytes is one frame.
    pub fn hear(&mut self, bytes: [u8; 2], bus: &Bus) -> Option<u8>
        ensures answer { (frame : Frame) → frame_bytes frame ≡ bytes → result ≡ unit_reply bus.now frame self.old }
        ensures after { (frame : Frame) → frame_bytes frame ≡ bytes → self.new ≡ unit_after bus.now frame self.old }
    {
        let [first, second] = bytes;
        self.react(Frame::read(first, second), bus)
    }
}
