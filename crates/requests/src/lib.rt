// The requests of the bench tool: from a request line to its answer line. Text is put by functions, as in `shown`, and each asks
// for the room that it takes.

#![tactic(auto)]

ghost use Rattle.std.specs.Prelude.{◌≡◌, ◌≤◌, length, if◌then◌else◌, Ok, Err, nat_lt};
ghost use Rattle.octets.specs.Buffer.{begun};
ghost use Rattle.octets.specs.Writer.{HasRoom, Wrote};
ghost use Rattle.refusals.specs.declared.Refusal.TheVariants.{BufferTooShort};
ghost use Rattle.requests.specs.Answer.{writing_text, expected_at, reply_answer, branch_answer, writing_answer, known_answer, answer_text, answer_line, Answered};

use crate::line::Line;
use crate::writing::Writing;
use branch::read_branch_reply;
use fields::{byte_field, field, hex_field, is_word, last_bytes, two_byte_field};
use octets::writer::Writer;
use rdm::read_reply::{Expected, read_reply};
use refusals::Refusal;
use shown::{put_key, put_refusal, put_reply};
use text::hexadecimal::put_hex;

mod line;
mod writing;

pub use line::LONGEST;

// CLASS PID TN KEY
fn read_expected(line: &[u8]) -> Option<Expected>
    ensures { result ≡ expected_at line.now }
{
    Some(Expected {
        class: byte_field(1, line)?,
        pid: two_byte_field(2, line)?,
        transaction: byte_field(3, line)?,
        key: hex_field(4, line)?,
    })
}

fn answer_reply(out: &mut Writer<'_>, line: Line<'_>) -> Option<()>
    requires { HasRoom 512 out.old }
    ensures { Answered out.old (reply_answer line.entry.text.now) result out.new }
{
    let expected = read_expected(line.text)?;
    let mut bytes = [0u8; 1024];
    let size = last_bytes(5, line.text, &mut bytes)?;
    put_reply(out, read_reply(expected, &bytes[..size]));
    Some(())
}

fn answer_branch(out: &mut Writer<'_>, line: Line<'_>) -> Option<()>
    requires { HasRoom 512 out.old }
    ensures { Answered out.old (branch_answer line.entry.text.now) result out.new }
{
    let mut bytes = [0u8; 1024];
    let size = last_bytes(1, line.text, &mut bytes)?;
    put_key(out, read_branch_reply(&bytes[..size]));
    Some(())
}

// The frame that was written, or its refusal.
fn put_writing(out: &mut Writer<'_>, writing: Writing)
    requires { HasRoom 128 out.old }
    ensures { Wrote out.old (writing_text writing) out.new }
{
    let mut buf = [0u8; 64];
    match writing.write(&mut buf) {
        Ok(n) => put_hex(out, &buf[0..n]),
        Err(refusal) => put_refusal(out, refusal),
    }
}

fn answer_writing(out: &mut Writer<'_>, word: &[u8], line: &[u8]) -> Option<()>
    requires { HasRoom 512 out.old }
    ensures { Answered out.old (writing_answer word.now line.now) result out.new }
{
    let writing = Writing::read(word, line)?;
    put_writing(out, writing);
    Some(())
}

// The answer to a request that can be read.
fn answer_known(out: &mut Writer<'_>, line: Line<'_>) -> Option<()>
    requires { HasRoom 512 out.old }
    ensures { Answered out.old (known_answer line.entry.text.now) result out.new }
{
    let word = field(0, line.text)?;
    // Tests, since of a match on byte strings a proof learns the lengths alone.
    if is_word(word, b"reply") {
        answer_reply(out, line)
    } else if is_word(word, b"readbranch") {
        answer_branch(out, line)
    } else {
        answer_writing(out, word, line.text)
    }
}

fn put_answer(out: &mut Writer<'_>, line: Line<'_>)
    requires { HasRoom 512 out.old }
    ensures { Wrote out.old (answer_text line.entry.text.now) out.new }
{
    if answer_known(out, line).is_none() {
        out.put(b"?");
    }
}

// A buffer that suffices for every answer.
pub const ROOM: usize = 4096;

fn put_line(out: &mut Writer<'_>, line: &[u8])
    requires { HasRoom 4096 out.old }
    ensures { Wrote out.old (answer_line line.now) out.new }
{
    if line.len() > LONGEST {
        out.put(b"= ?");
    } else {
        out.put(line);
        out.put(b" = ");
        put_answer(out, Line { text: line });
    }
}

// Writes a request line and its answer to the beginning of a buffer, and answers their length. Refuses a buffer of less
// than 4,096 bytes (4), and then writes nothing.
pub fn answer(line: &[u8], out: &mut [u8]) -> Result<usize, Refusal>
    ensures answer { result ≡ (if nat_lt (length out.old) 4096 then Err BufferTooShort else Ok (length (answer_line line.now))) }
    ensures after { out.new ≡ (if nat_lt (length out.old) 4096 then out.old else begun out.old (answer_line line.now)) }
{
    if out.len() < ROOM {
        return Err(Refusal::BufferTooShort);
    }
    let mut writer = Writer::new(out);
    put_line(&mut writer, line);
    Ok(writer.len())
}
