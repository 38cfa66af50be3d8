// The questions that a controller asks, and the packets that carry them.
ghost use Rattle.std.specs.Prelude.{◌≡◌, take, IfOk, Some};
ghost use Rattle.std.specs.Result.{result_err};
ghost use Rattle.keys.specs.Uid.{uid_number};
ghost use Rattle.rdm.specs.Question.{destination_number, parameter_of, destination_of, header_of, ends_bytes, question_refusal, question_frame, heard};
ghost use Rattle.rdm.specs.Received.{question_at};
ghost use Rattle.octets.specs.Writers.{answered, left_in};

use keys::address::{Address, is_in_family};
use keys::range::Range;
use keys::uid::Uid;
use keys::uid::number::BROADCAST;
use packets::header::Header;
use packets::parameter::Parameter;
use packets::writing::write_packet;
use refusals::Refusal;

// The unique identifier of the box.
pub const CONTROLLER: u64 = 0x7FF0_0000_0000;

// Its port.
const PORT: u8 = 0x01;

// An enum of its own and no Option: to all is a destination too, and not the lack of one.
#[derive(Clone, Copy, PartialEq, Eq)]
pub enum Destination {
    All,
    One(Uid),
}

impl Destination {
    // Named as the number of a key is.
    fn number(self) -> u64
        ensures { result ≡ destination_number self }
    {
        match self {
            Destination::All => BROADCAST,
            Destination::One(key) => key.number(),
        }
    }
}

#[derive(Clone, Copy, PartialEq, Eq)]
pub enum Question {
    // To all: who from lo to hi is there and not muted?
    Branch(Range<Uid>),
    Mute(Destination),
    UnMute(Destination),
    DeviceInfo(Uid),
    StartAddress(Uid, Address),
}

impl Question {
    fn parameter(self) -> Parameter
        ensures { result ≡ parameter_of self }
    {
        match self {
            Question::Branch(_) => Parameter::Branch,
            Question::Mute(_) => Parameter::Mute,
            Question::UnMute(_) => Parameter::UnMute,
            Question::DeviceInfo(_) => Parameter::DeviceInfo,
            Question::StartAddress(_, _) => Parameter::StartAddress,
        }
    }

    fn destination(self) -> Destination
        ensures { result ≡ destination_of self }
    {
        match self {
            Question::Branch(_) => Destination::All,
            Question::Mute(to) => to,
            Question::UnMute(to) => to,
            Question::DeviceInfo(key) => Destination::One(key),
            Question::StartAddress(key, _) => Destination::One(key),
        }
    }

    fn header(self, transaction: u8) -> Header
        ensures { result ≡ header_of self transaction }
    {
        let parameter = self.parameter();
        Header {
            destination: self.destination().number(),
            source: CONTROLLER,
            transaction,
            kind: PORT,
            class: parameter.class(),
            pid: parameter.pid(),
        }
    }

    // What is wrong with the question itself, whatever buffer it is to go into. The ends are compared by the numbers that the
    // packet has: keys themselves compare by rank.
    fn check(self) -> Result<(), Refusal>
        ensures { result_err result ≡ question_refusal self }
    {
        match self {
            Question::Branch(range) if range.hi.number() < range.lo.number() => {
                Err(Refusal::LowerAboveUpper)
            }
            Question::StartAddress(_, address) if !is_in_family::<Uid>(address) => {
                Err(Refusal::AddressOutside)
            }
            _ => Ok(()),
        }
    }

    // Writes the packet and answers its length. Refuses a branch whose lower end is above its upper end (2), an
    // address outside the family (3) and a buffer that is too short (4), in this order, and then writes nothing.
    // What is written reads back as itself.
    pub fn write(self, transaction: u8, buf: &mut [u8]) -> Result<usize, Refusal>
        ensures answer { result ≡ answered (question_refusal self) (question_frame self transaction) buf.old }
        ensures after { buf.new ≡ left_in (question_refusal self) (question_frame self transaction) buf.old }
        ensures reads_back { IfOk result (λ n. question_at (take n buf.new) ≡ Some (heard self transaction)) }
    {
        self.check()?;
        let header = self.header(transaction);
        match self {
            Question::Branch(range) => write_packet(header, &ends_array(range), buf),
            Question::StartAddress(_, address) => write_packet(
                header,
                &address.slot.to_be_bytes(),
                buf,
            ),
            Question::Mute(_) | Question::UnMute(_) | Question::DeviceInfo(_) => write_packet(
                header,
                &[],
                buf,
            ),
        }
    }
}

fn ends_array(range: Range<Uid>) -> [u8; 12]
    ensures { result ≡ ends_bytes (uid_number range.lo) (uid_number range.hi) }
{
    let [_, _, l0, l1, l2, l3, l4, l5] = range.lo.number().to_be_bytes();
    let [_, _, h0, h1, h2, h3, h4, h5] = range.hi.number().to_be_bytes();
    [l0, l1, l2, l3, l4, l5, h0, h1, h2, h3, h4, h5]
}
