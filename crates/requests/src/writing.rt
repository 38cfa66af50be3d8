// Requests that ask for a frame to be written.
ghost use Rattle.std.specs.Prelude.{◌≡◌, ◌<◌, ◌≤◌, length, take, IfOk};
ghost use Rattle.outgoing.specs.Outgoing.{outgoing_refusal, outgoing_frame};
ghost use Rattle.requests.specs.Room.{answered_in};
ghost use Rattle.requests.specs.Writing.{asked, branch_at, ToKey, mute_at, un_mute_at, device_info_at, start_address_at, OfKey, branch_reply_at, search_at, program_at, writing_at};

use fields::{byte_field, decimal_field, hex_field, is_word, last_decimal};
use outgoing::Outgoing;
use refusals::Refusal;

// The frame, and the size of the buffer that is lent to its writer.
#[derive(Clone, Copy)]
pub struct Writing {
    pub frame: Outgoing,
    pub room: usize,
}

impl Writing {
    // What a line asks for, by the word that begins it.
    pub fn read(word: &[u8], line: &[u8]) -> Option<Writing>
        ensures { result ≡ writing_at word.now line.now }
    {
        // Kept a chain of tests: of a match on byte strings a proof learns the lengths, and not which words failed.
        if is_word(word, b"branch") {
            branch(line)
        } else if is_word(word, b"mute") {
            mute(line)
        } else if is_word(word, b"unmute") {
            un_mute(line)
        } else if is_word(word, b"info") {
            device_info(line)
        } else if is_word(word, b"start") {
            start_address(line)
        } else if is_word(word, b"branchreply") {
            branch_reply(line)
        } else if is_word(word, b"search") {
            search(line)
        } else if is_word(word, b"program") {
            program(line)
        } else {
            None
        }
    }

    // Writes the frame into a buffer as if it had the size that is asked for. No frame is longer than 64 bytes, so more
    // room makes no difference.
    pub fn write(self, buf: &mut [u8]) -> Result<usize, Refusal>
        requires { length buf.old ≡ 64 }
        ensures answer { result ≡ answered_in (outgoing_refusal self.frame) (outgoing_frame self.frame) self.room }
        ensures frame { IfOk result (λ n. (n ≤ 64) × (take n buf.new ≡ outgoing_frame self.frame)) }
    {
        let end = self.room.min(64);
        self.frame.write(&mut buf[0..end])
    }
}

// A frame, in the room that the last field tells.
fn asked(frame: Outgoing, place: usize, line: &[u8]) -> Option<Writing>
    requires { place < 16 }
    ensures { result ≡ asked frame place line.now }
{
    Some(Writing {
        frame,
        room: last_decimal(place, line)? as usize,
    })
}

// One function for each word. Those of one shape are told apart by the frame alone, which each makes.

// TN LO HI ROOM
#[tactic(auto, unfolding(crate::specs::Writing::branch_at))]
fn branch(line: &[u8]) -> Option<Writing>
    ensures { result ≡ branch_at line.now }
{
    let frame = Outgoing::Branch {
        transaction: byte_field(1, line)?,
        lo: hex_field(2, line)?,
        hi: hex_field(3, line)?,
    };
    asked(frame, 4, line)
}

// TN KEY ROOM
fn to_key<F: FnOnce(u8, u64) -> Outgoing>(line: &[u8], frame: F) -> Option<Writing>
    requires { F.IsAlwaysCallable frame }
    ensures { ToKey (F.post frame) line.now result }
{
    let transaction = byte_field(1, line)?;
    let key = hex_field(2, line)?;
    asked(frame(transaction, key), 3, line)
}

fn mute(line: &[u8]) -> Option<Writing>
    ensures { result ≡ mute_at line.now }
{
    to_key(line, |transaction, to| Outgoing::Mute { transaction, to })
}

fn un_mute(line: &[u8]) -> Option<Writing>
    ensures { result ≡ un_mute_at line.now }
{
    to_key(line, |transaction, to| Outgoing::UnMute { transaction, to })
}

fn device_info(line: &[u8]) -> Option<Writing>
    ensures { result ≡ device_info_at line.now }
{
    to_key(
        line,
        |transaction, key| Outgoing::DeviceInfo { transaction, key },
    )
}

// TN KEY ADDR ROOM
#[tactic(auto, unfolding(crate::specs::Writing::start_address_at))]
fn start_address(line: &[u8]) -> Option<Writing>
    ensures { result ≡ start_address_at line.now }
{
    let frame = Outgoing::StartAddress {
        transaction: byte_field(1, line)?,
        key: hex_field(2, line)?,
        slot: decimal_field(3, line)?,
    };
    asked(frame, 4, line)
}

// KEY ROOM
fn of_key<F: FnOnce(u64) -> Outgoing>(line: &[u8], frame: F) -> Option<Writing>
    requires { F.IsAlwaysCallable frame }
    ensures { OfKey (F.post frame) line.now result }
{
    let key = hex_field(1, line)?;
    asked(frame(key), 2, line)
}

fn branch_reply(line: &[u8]) -> Option<Writing>
    ensures { result ≡ branch_reply_at line.now }
{
    of_key(line, |key| Outgoing::BranchReply { key })
}

fn search(line: &[u8]) -> Option<Writing>
    ensures { result ≡ search_at line.now }
{
    of_key(line, |key| Outgoing::Search { key })
}

// ADDR ROOM
#[tactic(auto, unfolding(crate::specs::Writing::program_at))]
fn program(line: &[u8]) -> Option<Writing>
    ensures { result ≡ program_at line.now }
{
    let frame = Outgoing::Program {
        slot: decimal_field(1, line)?,
    };
    asked(frame, 2, line)
}
