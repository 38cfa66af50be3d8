// What all units share.
ghost use Rattle.std.specs.Prelude.{◌≡◌};
ghost use Rattle.dali.specs.Frame.{frame_bytes};
ghost use Rattle.units.specs.Bus.{fresh_bus, was_initialise, bus_after};

use crate::search_address::SearchAddress;
use dali::frame::Frame;

#[derive(Clone, Copy)]
pub struct Bus {
    pub search: SearchAddress,
    // The frame before, since A500 counts only right behind another A500.
    pub before: Option<Frame>,
}

impl Bus {
    pub fn fresh() -> Bus
        ensures { result ≡ fresh_bus }
    {
        Bus {
            search: SearchAddress {
                high: 0xFF,
                middle: 0xFF,
                low: 0xFF,
            },
            before: None,
        }
    }

    // Whether the frame before was A500.
    pub fn was_initialise(&self) -> bool
        ensures { result ≡ was_initialise self.now.before }
    {
        self.before == Some(Frame::Initialise)
    }

    // A frame has gone over the bus, and every unit has reacted to it.
    pub fn pass(&mut self, frame: Frame)
        ensures { self.new ≡ bus_after self.old frame }
    {
        match frame {
            Frame::SearchHigh(high) => self.search.high = high,
            Frame::SearchMiddle(middle) => self.search.middle = middle,
            Frame::SearchLow(low) => self.search.low = low,
            _ => {}
        }
        self.before = Some(frame);
    }

    // The same for the two bytes of a frame. Each pair of bytes is one frame.
    pub fn hear(&mut self, bytes: [u8; 2])
        ensures { (frame : Frame) → frame_bytes frame ≡ bytes → self.new ≡ bus_after self.old frame }
    {
        let [first, second] = bytes;
        self.pass(Frame::read(first, second));
    }
}
