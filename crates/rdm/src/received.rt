// Questions as a fixture reads them.
ghost use Rattle.std.specs.Prelude.{◌≡◌};
ghost use Rattle.rdm.specs.Received.{asked_of, question_at};

use keys::address::Address;
use octets::numbers::{six_at, two_at};
use packets::parameter::Parameter;
use packets::reading::read_packet;

// What is asked. The ends of a branch are 48-bit numbers of any value, and an address is any two bytes.
#[derive(Clone, Copy, PartialEq, Eq)]
pub enum Asked {
    Branch { lo: u64, hi: u64 },
    Mute,
    UnMute,
    DeviceInfo,
    StartAddress(Address),
    // Another parameter, or data of another size.
    Other,
}

#[derive(Clone, Copy, PartialEq, Eq)]
pub struct Received {
    // 48-bit numbers, which need be no keys.
    pub destination: u64,
    pub source: u64,
    pub transaction: u8,
    pub asked: Asked,
}

fn read_asked(parameter: Option<Parameter>, payload: &[u8]) -> Asked
    ensures { result ≡ asked_of parameter payload.now }
{
    match (parameter, payload.len()) {
        (Some(Parameter::Branch), 12) => Asked::Branch {
            lo: six_at(payload, 0),
            hi: six_at(payload, 6),
        },
        (Some(Parameter::Mute), 0) => Asked::Mute,
        (Some(Parameter::UnMute), 0) => Asked::UnMute,
        (Some(Parameter::DeviceInfo), 0) => Asked::DeviceInfo,
        (Some(Parameter::StartAddress), 2) => Asked::StartAddress(Address {
            slot: two_at(payload, 0),
        }),
        _ => Asked::Other,
    }
}

// The question in a packet; none if a fixture has to ignore these bytes: wrong start, length or checksum.
pub fn read_question(bytes: &[u8]) -> Option<Received>
    ensures { result ≡ question_at bytes.now }
{
    let packet = read_packet(bytes).ok()?;
    let header = packet.header;
    let parameter = Parameter::from_codes(header.class, header.pid);
    Some(Received {
        destination: header.destination,
        source: header.source,
        transaction: header.transaction,
        asked: read_asked(parameter, packet.payload),
    })
}
