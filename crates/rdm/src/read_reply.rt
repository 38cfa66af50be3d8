// The reply reader: what it is told of the question decides which replies match.
ghost use Rattle.std.specs.Prelude.{◌≡◌, ◌≤◌, length, IfOk, Ok};
ghost use Rattle.rdm.specs.ReadReply.{expects, response_at, matches, reply_in, reply_at, reply_held, info_at};

use crate::question::CONTROLLER;
use crate::reply::{DeviceInfo, NO_ADDRESS, Response};
use crate::reply_as_read::ReadReply;
use keys::address::Address;
use keys::uid::Uid;
use octets::numbers::two_at;
use packets::header::Header;
use packets::packet::Packet;
use packets::parameter::Parameter;
use packets::reading::read_packet;
use refusals::Refusal;

// The question's class, parameter ID and transaction number, and the number of the key that was asked. They may come
// from outside, so they can be codes that no question has, and a number that is no key.
#[derive(Clone, Copy, PartialEq, Eq)]
pub struct Expected {
    pub class: u8,
    pub pid: u16,
    pub transaction: u8,
    pub key: u64,
}

impl Expected {
    pub fn new(parameter: Parameter, transaction: u8, key: Uid) -> Expected
        ensures { result ≡ expects parameter transaction key }
    {
        Expected {
            class: parameter.class(),
            pid: parameter.pid(),
            transaction,
            key: key.number(),
        }
    }

    fn matches_header(self, header: Header) -> bool
        ensures { result ≡ matches self header }
    {
        header.class as u16 == self.class as u16 + 1
            && header.pid == self.pid
            && header.transaction == self.transaction
            && header.source == self.key
            && header.destination == CONTROLLER
            && Uid::from_number(self.key).is_some()
    }
}

// The response of a type, if it has the data that such a response has: type and size tell it together.
fn read_response(kind: u8, size: usize) -> Option<Response>
    ensures { result ≡ response_at kind size }
{
    match (kind, size) {
        (0x00, _) => Some(Response::Ack),
        (0x02, 2) => Some(Response::Nack),
        _ => None,
    }
}

// The reply in a packet, if it is one to the question that is expected to be answered.
fn match_reply(expected: Expected, packet: Packet<'_>) -> Result<ReadReply<'_>, Refusal>
    ensures { reply_held result ≡ reply_in expected (Ok (packet.entry.header, packet.entry.payload.now)) }
{
    if !expected.matches_header(packet.header) {
        return Err(Refusal::NoMatch);
    }
    let response = read_response(packet.header.kind, packet.payload.len()).ok_or(Refusal::NoMatch)?;
    Ok(ReadReply {
        response,
        place: 24,
        payload: packet.payload,
    })
}

// Reads a reply to the question that is expected to be answered, or answers the first of the refusals 5, 6, 8 and 9.
pub fn read_reply(expected: Expected, bytes: &[u8]) -> Result<ReadReply<'_>, Refusal>
    ensures { reply_held result ≡ reply_at expected bytes.now }
{
    let packet = read_packet(bytes)?;
    match_reply(expected, packet)
}

// What a fixture tells of itself; none in data of another size.
pub fn read_device_info(payload: &[u8]) -> Option<DeviceInfo>
    ensures { result ≡ info_at payload.now }
{
    if payload.len() != 19 {
        return None;
    }
    let slot = two_at(payload, 14);
    Some(DeviceInfo {
        width: two_at(payload, 10),
        address: (slot != NO_ADDRESS).then_some(Address { slot }),
    })
}
