// The layout that every RDM packet has: 24 bytes of header, the data, and a checksum of two bytes.
ghost use Rattle.std.specs.Prelude.{◌≤◌, length};

use crate::header::Header;

// A packet as it was read. Its data is a part of the bytes that it was read from.
#[derive(Clone, Copy)]
pub struct Packet<'a> {
    pub header: Header,
    pub payload: &'a [u8],
    ghost short: { length payload.now ≤ 231 },
}
