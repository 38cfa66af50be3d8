// Frames that go out, by the plain numbers of whoever asks for them: firmware in C, and programs that read text.

#![tactic(auto)]

ghost use Rattle.std.specs.Prelude.{◌≡◌};
ghost use Rattle.octets.specs.Writers.{answered, left_in};
ghost use Rattle.outgoing.specs.Numbers.{Destined};
ghost use Rattle.outgoing.specs.Outgoing.{outgoing_refusal, outgoing_frame};

use branch::write_branch_reply;
use dali::frame::Frame;
use dali::search::write_search;
use dali::short_address::ShortAddress;
use keys::address::Address;
use keys::random_address::RandomAddress;
use keys::range::Range;
use keys::uid::Uid;
use keys::uid::number::BROADCAST;
use rdm::question::{Destination, Question};
use refusals::Refusal;

// A key is the number that stands for it on the wire; `to` may also be FFFFFFFFFFFF, for all.
#[derive(Clone, Copy, PartialEq, Eq)]
pub enum Outgoing {
    Branch {
        transaction: u8,
        lo: u64,
        hi: u64,
    },
    Mute {
        transaction: u8,
        to: u64,
    },
    UnMute {
        transaction: u8,
        to: u64,
    },
    DeviceInfo {
        transaction: u8,
        key: u64,
    },
    StartAddress {
        transaction: u8,
        key: u64,
        slot: u32,
    },
    BranchReply {
        key: u64,
    },
    Search {
        key: u64,
    },
    Program {
        slot: u32,
    },
}

impl Outgoing {
    // Writes the frame and answers its length. Refuses in this order: a number that is no key (1), ends that are not in
    // order (2), an address outside the family (3), a buffer that is too short (4), and then writes nothing.
    // Inlined: each function for C calls it with one case, so that the other cases fall away there.
    #[inline(always)]
    pub fn write(self, buf: &mut [u8]) -> Result<usize, Refusal>
        ensures answer { result ≡ answered (outgoing_refusal self) (outgoing_frame self) buf.old }
        ensures after { buf.new ≡ left_in (outgoing_refusal self) (outgoing_frame self) buf.old }
    {
        match self {
            Outgoing::Branch {
                transaction,
                lo,
                hi,
            } => {
                let lo = Uid::from_number(lo).ok_or(Refusal::NotAKey)?;
                let hi = Uid::from_number(hi).ok_or(Refusal::NotAKey)?;
                Question::Branch(Range { lo, hi }).write(transaction, buf)
            }
            Outgoing::Mute { transaction, to } => {
                let to = destination(to).ok_or(Refusal::NotAKey)?;
                Question::Mute(to).write(transaction, buf)
            }
            Outgoing::UnMute { transaction, to } => {
                let to = destination(to).ok_or(Refusal::NotAKey)?;
                Question::UnMute(to).write(transaction, buf)
            }
            Outgoing::DeviceInfo { transaction, key } => {
                let key = Uid::from_number(key).ok_or(Refusal::NotAKey)?;
                Question::DeviceInfo(key).write(transaction, buf)
            }
            Outgoing::StartAddress {
                transaction,
                key,
                slot,
            } => {
                let key = Uid::from_number(key).ok_or(Refusal::NotAKey)?;
                let slot = u16::try_from(slot).map_err(|_| Refusal::AddressOutside)?;
                Question::StartAddress(key, Address { slot }).write(transaction, buf)
            }
            Outgoing::BranchReply { key } => {
                let key = Uid::from_number(key).ok_or(Refusal::NotAKey)?;
                write_branch_reply(key, buf)
            }
            Outgoing::Search { key } => {
                let key = RandomAddress::from_number(key).ok_or(Refusal::NotAKey)?;
                write_search(key, buf)
            }
            Outgoing::Program { slot } => {
                let slot = u16::try_from(slot).map_err(|_| Refusal::AddressOutside)?;
                let address = ShortAddress::try_from(Address { slot })?;
                Frame::Program(address).write(buf)
            }
        }
    }
}

// A key, or FFFFFFFFFFFF for all.
fn destination(number: u64) -> Option<Destination>
    ensures { Destined number result }
{
    if number == BROADCAST {
        return Some(Destination::All);
    }
    Uid::from_number(number).map(Destination::One)
}
