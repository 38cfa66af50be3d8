// The fields of a line of text, with one space between them, counted from 0.

#![tactic(auto)]

ghost use Rattle.std.specs.Prelude.{◌≡◌, ◌*◌, ◌^◌, ◌<◌, ◌≤◌, length, IfSome};
ghost use Rattle.std.specs.Option.{option_map};
ghost use Rattle.text.specs.Hexadecimal.{bytes_read, bytes_left};
ghost use Rattle.text.specs.Digits.{and_then};
ghost use Rattle.fields.specs.Fields.{field_at, decimal_field, hex_field, hex_of_size, byte_field, two_byte_field, last_field, last_decimal, last_bytes, bytes_in, bytes_begun, BytesAt, same_word};

use text::decimal::read_decimal;
use text::hexadecimal::{read_hex, read_hex_bytes};

pub fn field(n: usize, line: &[u8]) -> Option<&[u8]>
    ensures { option_map (λ x. x.now) result ≡ field_at n line.now }
{
    line.split(|c| *c == b' ').nth(n)
}

// A decimal number.
pub fn decimal_field(n: usize, line: &[u8]) -> Option<u32>
    ensures { result ≡ decimal_field n line.now }
{
    read_decimal(field(n, line)?)
}

// A hexadecimal number.
pub fn hex_field(n: usize, line: &[u8]) -> Option<u64>
    ensures { result ≡ hex_field n line.now }
{
    read_hex(field(n, line)?)
}

// A hexadecimal number of so many digits.
fn sized_field(n: usize, digits: usize, line: &[u8]) -> Option<u64>
    ensures value { result ≡ and_then (field_at n line.now) (hex_of_size digits) }
    ensures bound { IfSome result (λ number. number < 16 ^ digits) }
{
    read_hex(field(n, line).filter(|text| text.len() == digits)?)
}

// A byte, in two digits.
pub fn byte_field(n: usize, line: &[u8]) -> Option<u8>
    ensures { result ≡ byte_field n line.now }
{
    // No `map`, here and below: in its closure nothing bounds the number.
    Some(sized_field(n, 2, line)? as u8)
}

// Two bytes, in four digits.
pub fn two_byte_field(n: usize, line: &[u8]) -> Option<u16>
    ensures { result ≡ two_byte_field n line.now }
{
    Some(sized_field(n, 4, line)? as u16)
}

// A field that has none behind it. Its number, here and below, is a plain one, since callers name fields by literals.
fn last_field(n: usize, line: &[u8]) -> Option<&[u8]>
    requires { n < 16 }
    ensures { option_map (λ x. x.now) result ≡ last_field n line.now }
{
    field(n, line).filter(|_| field(n + 1, line).is_none())
}

// A decimal number in the last field.
pub fn last_decimal(n: usize, line: &[u8]) -> Option<u32>
    requires { n < 16 }
    ensures { result ≡ last_decimal n line.now }
{
    read_decimal(last_field(n, line)?)
}

// Bytes in the last field, two digits each, or - for none. Writes them to the beginning of a buffer, which has to be half
// as long as the line, and answers their number. None, and nothing is written, if it is no such field.
pub fn last_bytes(n: usize, line: &[u8], buf: &mut [u8]) -> Option<usize>
    requires few { n < 16 }
    requires room { length line.now ≤ 2 * length buf.old }
    ensures answer { result ≡ option_map length (last_bytes n line.now) }
    ensures after { buf.new ≡ bytes_begun (last_bytes n line.now) buf.old }
    ensures bytes { BytesAt (last_bytes n line.now) result buf.new }
{
    read_bytes(last_field(n, line)?, buf)
}

fn read_bytes(text: &[u8], buf: &mut [u8]) -> Option<usize>
    ensures answer { result ≡ bytes_read (bytes_in text.now) buf.old }
    ensures after { buf.new ≡ bytes_left (bytes_in text.now) buf.old }
{
    // Two tests: of a match on byte strings a proof learns the lengths alone.
    if is_word(text, b"-") {
        return Some(0);
    }
    if text.is_empty() {
        return None;
    }
    read_hex_bytes(text, buf)
}

// Whether a text is this word.
#[tactic(auto, unfolding(crate::specs::Fields::same_word))]
pub fn is_word(text: &[u8], word: &[u8]) -> bool
    ensures { result ≡ same_word text.now word.now }
{
    text == word
}
