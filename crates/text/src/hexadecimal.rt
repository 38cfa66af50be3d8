// Hexadecimal numbers and bytes, in capital digits.
ghost use Rattle.std.specs.Prelude.{◌≡◌, ◌*◌, ◌/◌, ◌^◌, ◌<◌, length, IfSome, Some};
ghost use Rattle.octets.specs.Writer.{HasRoom, Wrote};
ghost use Rattle.text.specs.Hexadecimal.{hex_at, hex_text, all_hex, hex_pairs, byte_of, bytes_of, hex_bytes, bytes_read, bytes_left};

use crate::{digit, digit_char, read_digits};
use octets::writer::Writer;

// The number that one to sixteen digits write; none if it is no such text.
pub fn read_hex(text: &[u8]) -> Option<u64>
    ensures value { result ≡ hex_at text.now }
    ensures bound { IfSome result (λ n. n < 16 ^ length text.now) }
{
    if text.is_empty() || text.len() > 16 {
        return None;
    }
    read_digits(16, text)
}

// Writes two digits for each byte.
pub fn put_hex(out: &mut Writer<'_>, bytes: &[u8])
    requires { HasRoom (2 * length bytes.now) out.old }
    ensures text { Wrote out.old (hex_text bytes.now) out.new }
    ensures reads_back { hex_bytes (hex_text bytes.now) ≡ Some bytes.now }
{
    for b in bytes {
        out.put(&[digit_char(*b / 16), digit_char(*b % 16)]);
    }
}

fn is_hex(text: &[u8]) -> bool
    ensures { result ≡ all_hex text.now }
{
    text.iter().all(|c| digit(*c).is_some())
}

// Whether text is pairs of digits, and how many bytes they are.
#[tactic(auto, using(crate::proofs::HexText::length_bytes), unfolding(crate::specs::Hexadecimal::hex_pairs))]
fn is_pairs(text: &[u8]) -> bool
    ensures value { result ≡ hex_pairs text.now }
    ensures size { length (bytes_of text.now) ≡ length text.now / 2 }
{
    text.len() % 2 == 0 && is_hex(text)
}

// The byte that two digits write.
#[tactic(auto, unfolding(crate::specs::Hexadecimal::byte_of))]
fn byte(a: u8, b: u8) -> u8
    ensures { result ≡ byte_of a b }
{
    digit(a).unwrap_or(0) * 16 + digit(b).unwrap_or(0)
}

// Writes the bytes of all pairs of digits.
fn put_pairs(out: &mut Writer<'_>, text: &[u8])
    requires { HasRoom (length text.now / 2) out.old }
    ensures { Wrote out.old (bytes_of text.now) out.new }
{
    let (pairs, _) = text.as_chunks::<2>();
    for [a, b] in pairs {
        out.put(&[byte(*a, *b)]);
    }
}

// Writes the bytes that pairs of digits write to the beginning of a buffer, and answers their number. None, and nothing is
// written, if the text is no such pairs or the buffer is too short for them.
pub fn read_hex_bytes(text: &[u8], buf: &mut [u8]) -> Option<usize>
    ensures answer { result ≡ bytes_read (hex_bytes text.now) buf.old }
    ensures after { buf.new ≡ bytes_left (hex_bytes text.now) buf.old }
{
    if !is_pairs(text) || text.len() / 2 > buf.len() {
        return None;
    }
    let mut out = Writer::new(buf);
    put_pairs(&mut out, text);
    Some(out.len())
}
