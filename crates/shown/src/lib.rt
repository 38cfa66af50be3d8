// Refusals, bytes, keys and replies as text.
// Functions, and no Display: a formatter may fail, and a writer whose room is known does not. Each asks for the room that it
// takes.

#![tactic(auto)]

ghost use Rattle.std.specs.Prelude.{◌≡◌, ◌+◌, ◌*◌, length};
ghost use Rattle.octets.specs.Writer.{HasRoom, Wrote};
ghost use Rattle.branch.specs.BranchReply.{key_number};
ghost use Rattle.rdm.specs.ReadReply.{reply_held};
ghost use Rattle.shown.specs.Shown.{refusal_text, bytes_text, key_text, read_reply_text, reply_text, response_text};

use keys::uid::Uid;
use octets::writer::Writer;
use rdm::reply::Response;
use rdm::reply_as_read::ReadReply;
use refusals::Refusal;
use text::decimal::put_decimal;
use text::hexadecimal::put_hex;

// ! N
pub fn put_refusal(out: &mut Writer<'_>, refusal: Refusal)
    requires { HasRoom 4 out.old }
    ensures { Wrote out.old (refusal_text refusal) out.new }
{
    out.put(b"! ");
    put_decimal(out, refusal.number() as u64);
}

// Bytes, or - for none.
pub fn put_bytes(out: &mut Writer<'_>, bytes: &[u8])
    requires { HasRoom (2 * length bytes.now + 1) out.old }
    ensures { Wrote out.old (bytes_text bytes.now) out.new }
{
    if bytes.is_empty() {
        out.put(b"-");
    } else {
        put_hex(out, bytes);
    }
}

// The key, or the refusal. A match here and below, since each puts its value by a function of its own.
pub fn put_key(out: &mut Writer<'_>, key: Result<Uid, Refusal>)
    requires { HasRoom 12 out.old }
    ensures { Wrote out.old (key_text (key_number key)) out.new }
{
    match key {
        Ok(key) => put_hex(out, &key.number().to_be_bytes()[2..]),
        Err(refusal) => put_refusal(out, refusal),
    }
}

// yes PLACE DATA, no PLACE REASON.
fn put_read_reply(out: &mut Writer<'_>, reply: ReadReply<'_>)
    requires { HasRoom 512 out.old }
    ensures { Wrote out.old (read_reply_text reply.entry.response reply.entry.place reply.entry.payload.now) out.new }
{
    put_response(out, reply.response);
    put_decimal(out, reply.place as u64);
    out.put(b" ");
    put_bytes(out, reply.payload);
}

// The same, or the refusal.
pub fn put_reply(out: &mut Writer<'_>, reply: Result<ReadReply<'_>, Refusal>)
    requires { HasRoom 512 out.old }
    ensures { Wrote out.old (reply_text (reply_held reply.entry)) out.new }
{
    match reply {
        Ok(reply) => put_read_reply(out, reply),
        Err(refusal) => put_refusal(out, refusal),
    }
}

fn put_response(out: &mut Writer<'_>, response: Response)
    requires { HasRoom 4 out.old }
    ensures { Wrote out.old (response_text response) out.new }
{
    match response {
        Response::Ack => out.put(b"yes "),
        Response::Nack => out.put(b"no "),
    }
}
