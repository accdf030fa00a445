// Texts into lent bytes. Each writer answers the place behind what it wrote; where there is no room for all of it, it
// writes nothing and answers `at`. A place goes in and a place comes out, with no cursor and no `Option`: these
// signatures and `written` are what callers were promised.
ghost use Rattle.std.specs.Prelude.{◌+◌, ◌≤◌, ◌<◌, ◌≡◌, leb, length};
ghost use Rattle.text.specs.Numerals.{digit, digits, hex, decimal};
ghost use Rattle.text.specs.Written.{written};
ghost use Rattle.text.specs.Inner.{Wrote, packed};

// Writes a text as it stands.
pub fn write_text(out: &mut [u8], at: usize, text: &[u8]) -> usize
    ensures { (result, out.new) ≡ written out.old at text.now }
{
    if !has_room(out.len(), at, text.len()) {
        return at;
    }
    let end = at + text.len();
    out[at..end].copy_from_slice(text);
    end
}

// Writes the 16 hex digits of a pattern of 64 bits.
pub fn write_hex(out: &mut [u8], at: usize, bits: u64) -> usize
    ensures { (result, out.new) ≡ written out.old at (hex bits) }
{
    if !has_room(out.len(), at, HEX_DIGITS) {
        return at;
    }
    write_half(out, at, (bits / HALF) as u32);
    write_half(out, at + HALF_DIGITS, (bits % HALF) as u32)
}

// Writes n in decimal, with no leading zero.
pub fn write_decimal(out: &mut [u8], at: usize, n: u64) -> usize
    ensures { (result, out.new) ≡ written out.old at (decimal n) }
{
    write_digits(out, at, n, decimal_length(n))
}

// Writes the last `places` decimal digits of n.
pub fn write_digits(out: &mut [u8], at: usize, n: u64, places: usize) -> usize
    ensures { (result, out.new) ≡ written out.old at (digits 10 places n) }
{
    if !has_room(out.len(), at, places) {
        return at;
    }
    fill(out, at, n, 10, places)
}

// How many bytes n takes in decimal.
pub fn decimal_length(n: u64) -> usize
    ensures { result ≡ length (decimal n) }
{
    n.checked_ilog10().map_or(1, |power| power as usize + 1)
}

pub(crate) const HEX_DIGITS: usize = 16;

const HALF: u64 = 0x1_0000_0000;

const HALF_DIGITS: usize = 8;

const QUARTER: u32 = 0x1_0000;

const QUARTER_DIGITS: usize = 4;

// Whether `count` bytes from `at` on lie within `length`. The sum of the two may not fit 64 bits.
fn has_room(length: usize, at: usize, count: usize) -> bool
    ensures { result ≡ leb (at + count) length }
{
    at <= length && count <= length - at
}

// Writes the 8 hex digits of 32 bits.
fn write_half(out: &mut [u8], at: usize, half: u32) -> usize
    requires { at + 8 ≤ length out.old }
    ensures { Wrote out.old at (digits 16 8 half) out.new result }
{
    write_quarter(out, at, half / QUARTER);
    write_quarter(out, at + QUARTER_DIGITS, half % QUARTER)
}

// Writes the 4 hex digits of 16 bits. The stores go upwards with no loop, so that a compiler makes them one.
fn write_quarter(out: &mut [u8], at: usize, quarter: u32) -> usize
    requires { (quarter < 0x1_0000) × (at + 4 ≤ length out.old) }
    ensures { Wrote out.old at (digits 16 4 quarter) out.new result }
{
    let four = four_digits(quarter);
    out[at] = (four % 256) as u8;
    out[at + 1] = (four / 256 % 256) as u8;
    out[at + 2] = (four / 0x1_0000 % 256) as u8;
    out[at + 3] = (four / 0x100_0000) as u8;
    at + QUARTER_DIGITS
}

// The 4 hex digits of 16 bits, a byte for each, the first lowest. All are worked out at once: a table, such as `digit`
// has, is laid out anew at every call.
fn four_digits(quarter: u32) -> u32
    requires { quarter < 0x1_0000 }
    ensures { result ≡ packed (digits 16 4 quarter) }
{
    let pairs = quarter / 256 + quarter % 256 * 0x1_0000;
    let values = (pairs / 16 & 0xf_000f) + (pairs & 0xf_000f) * 256;
    // Of a value from 10 on the digit is a letter, whose byte is 39 further on.
    let letters = (values + 0x0606_0606) / 16 & 0x0101_0101;
    0x3030_3030 + values + letters * 39
}

// Writes the last `places` digits of n, the last of them first.
fn fill(out: &mut [u8], at: usize, n: u64, base: u64, places: usize) -> usize
    requires { (1 < base) × (base ≤ 16) × (at + places ≤ length out.old) }
    ensures { Wrote out.old at (digits base places n) out.new result }
{
    let end = at + places;
    let mut rest = n;
    // By place: of what is written through an iterator, a proof knows the length alone.
    for place in (at..end).rev() {
        out[place] = digit(rest % base);
        rest /= base;
    }
    end
}

fn digit(d: u64) -> u8
    requires { d < 16 }
    ensures { result ≡ digit d }
{
    let all = b"0123456789abcdef";
    all[d as usize]
}
