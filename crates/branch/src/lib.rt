// Branch replies: the one message that has no packet around it, made so that replies which overlap are noticed.

#![tactic(auto)]

ghost use Rattle.std.specs.Prelude.{◌≡◌, ℕ, ◌*◌, ◌≤◌, length, take, drop, IfOk, None, Ok};
ghost use Rattle.std.specs.Option.{option_map};
ghost use Rattle.keys.specs.Uid.{uid_number};
ghost use Rattle.branch.specs.BranchReply.{pairs_of, branch_reply, behind, behind_lead, pair_set, bits_set, carried, sum_carried, body_read, branch_read, key_number};
ghost use Rattle.octets.specs.Writer.{HasRoom, Wrote};
ghost use Rattle.octets.specs.Writers.{answered, left_in};

use keys::uid::Uid;
use octets::checksum::checksum;
use octets::writer::Writer;
use refusals::Refusal;

// Seven bytes FE that a repeater may swallow, and AA, behind which the key begins.
const LEAD: [u8; 8] = *b"\xFE\xFE\xFE\xFE\xFE\xFE\xFE\xAA";

const SIZE: usize = 24;

// Puts each byte b as the pair b OR AA, b OR 55.
fn put_pairs(out: &mut Writer<'_>, bytes: &[u8])
    requires { HasRoom (2 * length bytes.now) out.old }
    ensures { Wrote out.old (pairs_of bytes.now) out.new }
{
    for b in bytes {
        out.put(&[b | 0xAA, b | 0x55]);
    }
}

// Writes the reply of a key and answers its length. Refuses a buffer that is too short (4), and then writes nothing.
// What is written reads back as its key, with any number of lead bytes from 0 to 7 lost.
pub fn write_branch_reply(key: Uid, buf: &mut [u8]) -> Result<usize, Refusal>
    ensures answer { result ≡ answered None (branch_reply (uid_number key)) buf.old }
    ensures after { buf.new ≡ left_in None (branch_reply (uid_number key)) buf.old }
    ensures reads_back { IfOk result (λ n. (lost : ℕ) → lost ≤ 7 → branch_read (drop lost (take n buf.new)) ≡ Ok (uid_number key)) }
{
    if buf.len() < SIZE {
        return Err(Refusal::BufferTooShort);
    }
    let mut out = Writer::new(buf);
    out.put(&LEAD);
    put_pairs(&mut out, &key.number().to_be_bytes()[2..]);
    let sum = checksum(&out.written()[LEAD.len()..]);
    put_pairs(&mut out, &sum.to_be_bytes());
    Ok(out.len())
}

// What follows a beginning.
fn strip_start<'a>(start: &[u8], bytes: &'a [u8]) -> Option<&'a [u8]>
    ensures { option_map (λ x. x.now) result ≡ behind start.now bytes.now }
{
    bytes.strip_prefix(start)
}

// What follows the lead bytes, of which some at the front may be lost.
fn strip_lead<'a>(lead: &[u8], bytes: &'a [u8]) -> Option<&'a [u8]>
    ensures { option_map (λ x. x.now) result ≡ behind_lead lead.now bytes.now }
{
    // A loop: of `find_map` over how many are lost the proof did not close.
    let mut left = lead;
    while let Some((_, fewer)) = left.split_first() {
        if let Some(rest) = strip_start(left, bytes) {
            return Some(rest);
        }
        left = fewer;
    }
    None
}

// Whether both bytes of a pair have the bits that are always set.
fn is_pair(p: u8, q: u8) -> bool
    ensures { result ≡ pair_set p q }
{
    p & 0xAA == 0xAA && q & 0x55 == 0x55
}

fn has_set_bits(pairs: &[u8]) -> bool
    ensures { result ≡ bits_set pairs.now }
{
    let (pairs, _) = pairs.as_chunks::<2>();
    // A loop: the proof search does not see through `all` where the items are arrays.
    for [p, q] in pairs {
        if !is_pair(*p, *q) {
            return false;
        }
    }
    true
}

// The number that pairs carry.
fn carried_number(pairs: &[u8]) -> u64
    requires { length pairs.now ≤ 12 }
    ensures { result ≡ carried pairs.now }
{
    let (pairs, _) = pairs.as_chunks::<2>();
    // A loop: in a closure of a fold nothing bounds the number so far.
    let mut number = 0u64;
    for [p, q] in pairs {
        number = number * 256 + u64::from(p & q);
    }
    number
}

// Whether the last two pairs carry the sum of the twelve bytes before them.
fn has_sum(body: &[u8]) -> bool
    requires { length body.now ≡ 16 }
    ensures { result ≡ sum_carried body.now }
{
    let (key, sum) = body.split_at(12);
    carried_number(sum) == u64::from(checksum(key))
}

fn read_body(body: &[u8]) -> Result<Uid, Refusal>
    ensures { key_number result ≡ body_read body.now }
{
    if body.len() != 16 {
        return Err(Refusal::WrongLength);
    }
    if !has_set_bits(body) {
        return Err(Refusal::MissingBits);
    }
    if !has_sum(body) {
        return Err(Refusal::WrongChecksum);
    }
    Uid::from_number(carried_number(&body[..12])).ok_or(Refusal::NotAKey)
}

// The key whose reply the bytes are, less at most seven bytes at the front. Refuses in this order: a wrong start (5), a
// wrong length (6), a pair without its set bits (7), a wrong sum (8), a number that is no key (1).
pub fn read_branch_reply(bytes: &[u8]) -> Result<Uid, Refusal>
    ensures answer { key_number result ≡ branch_read bytes.now }
    ensures is_the_reply_of_its_key { IfOk result (λ key. (lost : ℕ) × (lost ≤ 7) × (bytes.now ≡ drop lost (branch_reply (uid_number key)))) }
{
    let body = strip_lead(&LEAD, bytes).ok_or(Refusal::WrongStart)?;
    read_body(body)
}
