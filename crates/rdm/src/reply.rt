// The replies that a fixture gives, and the packets that carry them.
ghost use Rattle.std.specs.Prelude.{◌≡◌, ◌-◌, ◌^◌, ◌<◌, true, take, IfOk, Some, None, Ok};
ghost use Rattle.rdm.specs.ReadReply.{reply_at, expected_by, info_at};
ghost use Rattle.rdm.specs.Reply.{reply_parameter, response_of, response_code, reason_code, reply_header, info_bytes, slot_told, reply_payload, reply_frame};
ghost use Rattle.octets.specs.Writers.{answered, left_in};

use crate::received::Received;
use keys::address::Address;
use packets::header::Header;
use packets::parameter::Parameter;
use packets::writing::write_packet;
use refusals::Refusal;

// Byte 16 of a reply.
#[derive(Clone, Copy, PartialEq, Eq)]
pub enum Response {
    // ACK: yes.
    Ack = 0x00,
    // NACK_REASON: no, and why.
    Nack = 0x02,
}

// Why a fixture says no.
#[derive(Clone, Copy, PartialEq, Eq)]
pub enum Reason {
    // NR_UNKNOWN_PID: a fixture of width 0 has no start address.
    UnknownPid = 0x0000,
    // NR_DATA_OUT_OF_RANGE: no such address.
    DataOutOfRange = 0x0006,
}

// What a fixture tells of itself.
#[derive(Clone, Copy, PartialEq, Eq)]
pub struct DeviceInfo {
    // How many slots it takes.
    pub width: u16,
    // Where they begin.
    pub address: Option<Address>,
}

#[derive(Clone, Copy, PartialEq, Eq)]
pub enum Reply {
    Muted,
    UnMuted,
    Info(DeviceInfo),
    AddressTaken,
    AddressRefused(Reason),
}

impl Response {
    // A method, here and below, which says that it is the code in a packet; the codes stand beside the cases.
    pub fn code(self) -> u8
        ensures { result ≡ response_code self }
    {
        self as u8
    }
}

impl Reason {
    fn code(self) -> u16
        ensures { result ≡ reason_code self }
    {
        self as u16
    }
}

// FFFF stands for no start address.
pub(crate) const NO_ADDRESS: u16 = 0xFFFF;

// `to_bytes` as a number has it: it says which bytes they are.
impl DeviceInfo {
    // What is told reads back as itself, unless it is the slot that stands for none.
    pub fn to_bytes(self) -> [u8; 19]
        ensures value { result ≡ info_bytes self }
        ensures reads_back { slot_told self ≡ true → info_at result ≡ Some self }
    {
        let slot = self.address.map_or(NO_ADDRESS, |address| address.slot);
        let [w0, w1] = self.width.to_be_bytes();
        let [a0, a1] = slot.to_be_bytes();
        // Protocol version; model, category and software, all unknown; footprint; the first personality of one; start
        // address; no sub-devices and no sensors.
        [
            0x01, 0x00, 0, 0, 0, 0, 0, 0, 0, 0, w0, w1, 0x01, 0x01, a0, a1, 0, 0, 0,
        ]
    }
}

impl Reply {
    fn parameter(self) -> Parameter
        ensures { result ≡ reply_parameter self }
    {
        match self {
            Reply::Muted => Parameter::Mute,
            Reply::UnMuted => Parameter::UnMute,
            Reply::Info(_) => Parameter::DeviceInfo,
            Reply::AddressTaken | Reply::AddressRefused(_) => Parameter::StartAddress,
        }
    }

    fn response(self) -> Response
        ensures { result ≡ response_of self }
    {
        match self {
            Reply::AddressRefused(_) => Response::Nack,
            _ => Response::Ack,
        }
    }

    fn header(self, question: Received) -> Header
        ensures { result ≡ reply_header self question }
    {
        let parameter = self.parameter();
        Header {
            destination: question.source,
            source: question.destination,
            transaction: question.transaction,
            kind: self.response().code(),
            class: parameter.class() + 1,
            pid: parameter.pid(),
        }
    }

    // Writes the packet that answers a question and answers its length. Refuses a buffer that is too short (4), and then
    // writes nothing. A reply to the controller reads back as itself.
    pub fn write(self, question: Received, buf: &mut [u8]) -> Result<usize, Refusal>
        ensures answer { result ≡ answered None (reply_frame self question) buf.old }
        ensures after { buf.new ≡ left_in None (reply_frame self question) buf.old }
        ensures reads_back { question.source ≡ 0x7FF000000000 → question.destination < 2 ^ 48 - 1 → IfOk result (λ n. reply_at (expected_by self question) (take n buf.new) ≡ Ok (response_of self, 24, reply_payload self)) }
    {
        let header = self.header(question);
        match self {
            Reply::Muted | Reply::UnMuted => write_packet(header, &[0x00, 0x00], buf),
            Reply::Info(info) => write_packet(header, &info.to_bytes(), buf),
            Reply::AddressTaken => write_packet(header, &[], buf),
            Reply::AddressRefused(reason) => write_packet(
                header,
                &reason.code().to_be_bytes(),
                buf,
            ),
        }
    }
}
