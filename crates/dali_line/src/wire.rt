// Units on the bus that they share, and what a controller says to them, frame by frame.
ghost use Rattle.std.specs.Prelude.{◌≡◌, ◌≤◌, length, map, is_some, filter};
ghost use Rattle.std.specs.List.{list_any};
ghost use Rattle.keys.specs.RandomAddress.{random_number};
ghost use Rattle.dali.specs.declared.frame.Frame.TheVariants.{Initialise, Compare, QueryShortAddress};
ghost use Rattle.units.specs.declared.state.State.TheVariants.{Enabled};
ghost use Rattle.units.specs.Unit.{with_state};
ghost use Rattle.units.specs.Sent.{Sent};

use crate::line::PLACES;
use arrayvec::ArrayVec;
use dali::frame::Frame;
use dali::reply::read_address_reply;
use dali::search::search_frames;
use dali::short_address::ShortAddress;
use keys::random_address::RandomAddress;
use units::bus::Bus;
use units::received::Received;
use units::send::send;
use units::unit::Unit;

#[derive(Drop)]
pub struct Wire {
    pub units: ArrayVec<Unit, PLACES>,
    pub bus: Bus,
    ghost within: { length units.items ≤ 64 },
}

impl Wire {
    ghost use Rattle.dali_line.specs.Controller.{Becomes, units_after_all, bus_after_all, seeking, said_to, said, withdrawn_at, selected_at, compares_up_to, addressed_at, told};

    // Sends a frame to every unit.
    pub fn send(&mut self, frame: Frame) -> Received
        ensures { Sent self.old.units.items self.old.bus frame result self.new.units.items self.new.bus }
    {
        send(&mut self.units, &mut self.bus, frame)
    }

    // Sends frames to which no unit replies, one after the other.
    fn send_all(&mut self, frames: &[Frame])
        ensures { Becomes self.new (units_after_all self.old.bus frames.now self.old.units.items) (bus_after_all self.old.bus frames.now) }
    {
        for frame in frames {
            self.send(*frame);
        }
    }

    // Sets the search address to a key. No unit changes.
    fn seek(&mut self, key: RandomAddress)
        ensures { Becomes self.new self.old.units.items (seeking (random_number key)) }
    {
        self.send_all(&search_frames(key));
    }

    // Enables every unit, those that were withdrawn too: A500 counts only right behind another A500.
    pub fn enable(&mut self)
        ensures { Becomes self.new (map (with_state Enabled) self.old.units.items) (said self.old.bus Initialise) }
    {
        self.send_all(&[Frame::Terminate, Frame::Initialise, Frame::Initialise]);
    }

    // Whether an enabled unit is at or below a key.
    pub fn compare(&mut self, key: RandomAddress) -> bool
        ensures answer { result ≡ list_any (compares_up_to (random_number key)) self.old.units.items }
        ensures after { Becomes self.new self.old.units.items (said_to (random_number key) Compare) }
    {
        self.seek(key);
        self.send(Frame::Compare) != Received::Nothing
    }

    // Withdraws the unit at a key. Answers whether there is one that tells its address.
    pub fn withdraw(&mut self, key: RandomAddress) -> bool
        ensures answer { result ≡ list_any (selected_at (random_number key)) self.old.units.items }
        ensures after { Becomes self.new (map (withdrawn_at (random_number key)) self.old.units.items) (said_to (random_number key) QueryShortAddress) }
    {
        self.seek(key);
        self.send(Frame::Withdraw);
        self.send(Frame::QueryShortAddress) != Received::Nothing
    }

    // The address of the unit at a key, if it tells it.
    pub fn query_address(&mut self, key: RandomAddress) -> Option<Option<ShortAddress>>
        ensures answer { result ≡ told (filter (selected_at (random_number key)) self.old.units.items) }
        ensures after { Becomes self.new self.old.units.items (said_to (random_number key) QueryShortAddress) }
    {
        self.seek(key);
        match self.send(Frame::QueryShortAddress) {
            Received::One(byte) => read_address_reply(byte),
            Received::Nothing | Received::Several => None,
        }
    }

    // Gives the unit at a key an address. Answers whether it then tells that address.
    pub fn program(&mut self, key: RandomAddress, address: ShortAddress) -> bool
        ensures answer { result ≡ is_some (told (filter (selected_at (random_number key)) self.old.units.items)) }
        ensures after { Becomes self.new (map (addressed_at (random_number key) address) self.old.units.items) (said_to (random_number key) QueryShortAddress) }
    {
        self.seek(key);
        self.send(Frame::Program(address));
        self.send(Frame::QueryShortAddress) == Received::One(address.byte())
    }
}
