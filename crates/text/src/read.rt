// Numbers out of texts, each text read to its end; `None` where it is no such number.
ghost use Rattle.std.specs.Prelude.{◌≤◌, ◌^◌, ◌≡◌, length};
ghost use Rattle.text.specs.Parsed.{leading_zero, read_on, read_hex, read_hex_start, read_digits, read_decimal};
ghost use Rattle.text.specs.Inner.{digit_in};

use crate::write::HEX_DIGITS;

// Reads 16 hex digits in lower case, as a pattern of 64 bits is written.
pub fn read_hex(text: &[u8]) -> Option<u64>
    ensures { result ≡ read_hex text.now }
{
    if text.len() == HEX_DIGITS {
        value(text, 16)
    } else {
        None
    }
}

// Reads a pattern whose last digits are left out where they are zeros.
pub fn read_hex_start(text: &[u8]) -> Option<u64>
    ensures { result ≡ read_hex_start text.now }
{
    if HEX_DIGITS < text.len() {
        return None;
    }
    let mut whole = [b'0'; HEX_DIGITS];
    crate::write::write_text(&mut whole, 0, text);
    read_hex(&whole)
}

// Reads 1 to `most` decimal digits, and at most 19.
pub fn read_digits(text: &[u8], most: usize) -> Option<u64>
    ensures { result ≡ read_digits most text.now }
{
    let count = text.len();
    if 1 <= count && count <= most && count <= MOST_DIGITS {
        value(text, 10)
    } else {
        None
    }
}

// Reads 1 to `most` decimal digits, and at most 19, with no leading zero.
pub fn read_decimal(text: &[u8], most: usize) -> Option<u64>
    ensures { result ≡ read_decimal most text.now }
{
    if has_leading_zero(text) {
        None
    } else {
        read_digits(text, most)
    }
}

// As many decimal digits as 64 bits hold, whichever they are.
const MOST_DIGITS: usize = 19;

fn has_leading_zero(text: &[u8]) -> bool
    ensures { result ≡ leading_zero text.now }
{
    matches!(text, [b'0', _, ..])
}

// The number that all bytes of the text make as digits of a base.
fn value(text: &[u8], base: u64) -> Option<u64>
    requires { (base ≤ 16) × (base ^ length text.now ≤ 2 ^ 64) }
    ensures { result ≡ read_on base 0 text.now }
{
    let mut n = 0;
    for &byte in text {
        let Some(digit) = digit_value(byte, base) else {
            return None;
        };
        n = base * n + digit;
    }
    Some(n)
}

// The value of a byte as a digit of a base up to 16.
fn digit_value(byte: u8, base: u64) -> Option<u64>
    requires { base ≤ 16 }
    ensures { result ≡ digit_in base byte }
{
    let value = match byte {
        b'0'..=b'9' => byte as u64 - 48,
        b'a'..=b'f' => byte as u64 - 87,
        _ => return None,
    };
    if value < base { Some(value) } else { None }
}
