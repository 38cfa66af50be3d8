// Numbers and bytes as text: decimal and hexadecimal, both ways. The digits of a base, which both are made of, are here.
// Text is put by functions and no Display, whose formatter may fail where a writer with room does not.

#![tactic(auto)]

ghost use Rattle.std.specs.Prelude.{◌≡◌, ◌^◌, ◌<◌, ◌≤◌, length, IfSome};
ghost use Rattle.text.specs.Digits.{digit_of, digit_in, digits_after, digit_text};

pub mod decimal;
pub mod hexadecimal;

// The value of a digit: capital letters go on from 9.
fn digit(c: u8) -> Option<u8>
    ensures { result ≡ digit_of c }
{
    match c {
        b'0'..=b'9' => Some(c - b'0'),
        b'A'..=b'F' => Some(c - b'A' + 10),
        _ => None,
    }
}

// The digit that has a value.
fn digit_char(value: u8) -> u8
    requires { value < 16 }
    ensures { result ≡ digit_text value }
{
    if value < 10 {
        b'0' + value
    } else {
        b'A' + (value - 10)
    }
}

// The value of a digit of a base.
#[tactic(auto, unfolding(crate::specs::Digits::digit_in))]
fn digit_in(base: u8, c: u8) -> Option<u8>
    ensures { result ≡ digit_in base c }
{
    digit(c).filter(|value| *value < base)
}

// The number that digits of a base write; none if one of them is no such digit.
fn read_digits(base: u8, text: &[u8]) -> Option<u64>
    requires { (base ≤ 16) × (length text.now ≤ 16) }
    ensures value { result ≡ digits_after base 0 text.now }
    ensures bound { IfSome result (λ n. n < 16 ^ length text.now) }
{
    // Kept a loop: in a closure of a fold nothing bounds the number so far, and the product might not fit.
    let mut number = 0u64;
    for c in text {
        let digit = digit_in(base, *c)?;
        number = number * u64::from(base) + u64::from(digit);
    }
    Some(number)
}
