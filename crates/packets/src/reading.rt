// Reading a packet.
ghost use Rattle.std.specs.Prelude.{◌≡◌, ◌≤◌, true, length};
ghost use Rattle.packets.specs.Opened.{starts, sized, summed, header_at, opened, held};

use crate::header::Header;
use crate::packet::Packet;
use octets::checksum::checksum;
use octets::numbers::{six_at, two_at};
use refusals::Refusal;

fn has_start(bytes: &[u8]) -> bool
    ensures { result ≡ starts bytes.now }
{
    bytes.starts_with(&[0xCC, 0x01])
}

fn has_size(bytes: &[u8]) -> bool
    ensures value { result ≡ sized bytes.now }
    ensures bound { result ≡ true → (26 ≤ length bytes.now) × (length bytes.now ≤ 257) }
{
    bytes.len() >= 26
        && bytes[2] as usize + 2 == bytes.len()
        && bytes[2] as usize == 24 + bytes[23] as usize
}

// Three steps of one reading: a type for bytes of the right size would last for two calls.
fn has_sum(bytes: &[u8]) -> bool
    requires { 26 ≤ length bytes.now }
    ensures { result ≡ summed bytes.now }
{
    let end = bytes.len() - 2;
    two_at(bytes, end) == checksum(&bytes[..end])
}

fn header_of(bytes: &[u8]) -> Header
    requires { 26 ≤ length bytes.now }
    ensures { result ≡ header_at bytes.now }
{
    Header {
        destination: six_at(bytes, 3),
        source: six_at(bytes, 9),
        transaction: bytes[15],
        kind: bytes[16],
        class: bytes[20],
        pid: two_at(bytes, 21),
    }
}

// Takes bytes apart, or answers the first of the refusals 5, 6 and 8 that they earn.
pub fn read_packet(bytes: &[u8]) -> Result<Packet<'_>, Refusal>
    ensures { held result ≡ opened bytes.now }
{
    if !has_start(bytes) {
        return Err(Refusal::WrongStart);
    }
    if !has_size(bytes) {
        return Err(Refusal::WrongLength);
    }
    if !has_sum(bytes) {
        return Err(Refusal::WrongChecksum);
    }
    Ok(Packet {
        header: header_of(bytes),
        payload: &bytes[24..bytes.len() - 2],
    })
}
