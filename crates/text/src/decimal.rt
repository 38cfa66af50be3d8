// Decimal numbers. Those that are read have one to seven digits, with no leading zero but 0 alone.
ghost use Rattle.std.specs.Prelude.{◌≡◌, ◌^◌, ◌<◌, ◌≤◌, true, length, IfSome, Some, decimal as decimal-text};
ghost use Rattle.octets.specs.Writer.{HasRoom, Wrote};
ghost use Rattle.text.specs.Decimal.{fits_decimal, decimal_at};

use crate::{digit_char, read_digits};
use octets::writer::Writer;

fn has_shape(text: &[u8]) -> bool
    ensures value { result ≡ fits_decimal text.now }
    ensures bound { result ≡ true → length text.now ≤ 7 }
{
    let size = text.len();
    (1..=7).contains(&size) && (size == 1 || text[0] != b'0')
}

// The number that a text writes; none if it is no such text.
pub fn read_decimal(text: &[u8]) -> Option<u32>
    ensures value { result ≡ decimal_at text.now }
    ensures is_the_text_of_its_number { IfSome result (λ n. text.now ≡ decimal-text n) }
{
    if !has_shape(text) {
        return None;
    }
    // No `map`: in its closure nothing bounds the number.
    Some(read_digits(10, text)? as u32)
}

// Writes a number.
pub fn put_decimal(out: &mut Writer<'_>, number: u64)
    requires { HasRoom (length (decimal-text number)) out.old }
    ensures text { Wrote out.old (decimal-text number) out.new }
    ensures reads_back { number < 10 ^ 7 → decimal_at (decimal-text number) ≡ Some number }
{
    if number >= 10 {
        put_decimal(out, number / 10);
    }
    out.put(&[digit_char((number % 10) as u8)]);
}
