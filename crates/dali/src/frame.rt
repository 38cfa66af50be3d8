// The frames, each of two bytes, as a controller sends them and a unit reads them.
ghost use Rattle.std.specs.Prelude.{◌≡◌, [], ◌∷◌, take, IfOk, None};
ghost use Rattle.dali.specs.Codes.{is_command, is_program, named};
ghost use Rattle.dali.specs.Frame.{frame_bytes, Found};
ghost use Rattle.octets.specs.Writers.{answered, left_in};

use crate::other_frame::OtherFrame;
use crate::short_address::ShortAddress;
use octets::buffer::write_bytes;
use refusals::Refusal;

#[derive(Clone, Copy, PartialEq, Eq)]
pub enum Frame {
    // A100, TERMINATE: all units are disabled.
    Terminate,
    // A500, INITIALISE: sent twice, all units are enabled.
    Initialise,
    // A900, COMPARE: is a key at or below the search address?
    Compare,
    // AB00, WITHDRAW: the unit at the search address takes no more part.
    Withdraw,
    // BB00, QUERY SHORT ADDRESS: which address has the unit at the search address?
    QueryShortAddress,
    // B1, B3 and B5, SEARCHADDRH, M and L: one byte of the search address.
    SearchHigh(u8),
    SearchMiddle(u8),
    SearchLow(u8),
    // B7, PROGRAM SHORT ADDRESS: the unit at the search address takes this address.
    Program(ShortAddress),
    // B7FF: it has none any more.
    Delete,
    // Any other pair of bytes.
    Other(OtherFrame),
}

// `bytes` and `read` are methods, as `to_be_bytes` of a number is one: each says which bytes they are.
impl Frame {
    pub fn bytes(self) -> [u8; 2]
        ensures { result ≡ frame_bytes self }
    {
        match self {
            Frame::Terminate => [0xA1, 0x00],
            Frame::Initialise => [0xA5, 0x00],
            Frame::Compare => [0xA9, 0x00],
            Frame::Withdraw => [0xAB, 0x00],
            Frame::QueryShortAddress => [0xBB, 0x00],
            Frame::SearchHigh(high) => [0xB1, high],
            Frame::SearchMiddle(middle) => [0xB3, middle],
            Frame::SearchLow(low) => [0xB5, low],
            Frame::Program(address) => [0xB7, address.byte()],
            Frame::Delete => [0xB7, 0xFF],
            Frame::Other(other) => [other.first, other.second],
        }
    }

    // Writes the two bytes and answers their number. Refuses a buffer that is too short (4), and then writes nothing. No
    // other frame has these bytes, so a frame reads back as itself.
    pub fn write(self, buf: &mut [u8]) -> Result<usize, Refusal>
        ensures answer { result ≡ answered None (frame_bytes self) buf.old }
        ensures after { buf.new ≡ left_in None (frame_bytes self) buf.old }
        ensures reads_back { IfOk result (λ n. (read : Frame) → frame_bytes read ≡ take n buf.new → read ≡ self) }
    {
        write_bytes(&self.bytes(), buf)
    }

    // The frame of a command that stands for itself, with 00 behind it.
    fn read_command(first: u8) -> Option<Frame>
        ensures { Found (is_command first) (first ∷ 0x00 ∷ []) result }
    {
        match first {
            0xA1 => Some(Frame::Terminate),
            0xA5 => Some(Frame::Initialise),
            0xA9 => Some(Frame::Compare),
            0xAB => Some(Frame::Withdraw),
            0xBB => Some(Frame::QueryShortAddress),
            _ => None,
        }
    }

    fn read_program(second: u8) -> Option<Frame>
        ensures { Found (is_program second) (0xB7 ∷ second ∷ []) result }
    {
        if second == 0xFF {
            return Some(Frame::Delete);
        }
        ShortAddress::from_byte(second).map(Frame::Program)
    }

    // The frame that two bytes are, if it is one with a name.
    fn read_named(first: u8, second: u8) -> Option<Frame>
        ensures { Found (named first second) (first ∷ second ∷ []) result }
    {
        match first {
            0xB1 => Some(Frame::SearchHigh(second)),
            0xB3 => Some(Frame::SearchMiddle(second)),
            0xB5 => Some(Frame::SearchLow(second)),
            0xB7 => Frame::read_program(second),
            _ if second == 0x00 => Frame::read_command(first),
            _ => None,
        }
    }

    // The frame that two bytes are, as a unit reads them: each pair of bytes is one frame.
    pub fn read(first: u8, second: u8) -> Frame
        ensures { frame_bytes result ≡ first ∷ second ∷ [] }
    {
        match Frame::read_named(first, second) {
            Some(frame) => frame,
            // No `unwrap_or`: that these bytes have no name is known here alone.
            None => Frame::Other(OtherFrame { first, second }),
        }
    }
}
