// Numbers as text: ticks are read, and numbers with decimals are written.
ghost use Rattle.std.specs.Prelude.{◌≡◌, ◌≤◌, length, take};
ghost use Rattle.imaging.specs.Text.{number, without, with_decimals, scale, rounded, two_digits, error_places};

const MOST_DIGITS: usize = 8;

// The number that 1 to 8 digits make.
pub(crate) fn read_number(text: &[u8]) -> Option<u32>
    ensures { result ≡ number text.now }
{
    let n = text::read_digits(text, MOST_DIGITS)?;
    Some(n as u32)
}

// The whole digits of 64 bits, a point, and up to eleven decimals.
pub const WIDTH: usize = 32;

// x with so many decimals, in units of the last of them, a half up. `None` where x is negative or too large for 64 bits,
// or NaN. The formatter's own rounding is another.
pub(crate) fn round(x: f64, places: usize) -> Option<u64>
    ensures { result ≡ rounded x places }
{
    let parts = x * scale(places) + 0.5;
    if x >= 0.0 && parts > -1.0 && parts < 18_446_744_073_709_551_616.0 {
        Some(std::num::truncating_f64_to_u64(parts))
    } else {
        None
    }
}

// How many parts make one.
fn scale(places: usize) -> f64
    ensures { result ≡ scale places }
{
    let mut parts = 1.0;
    for _ in 0..places {
        parts *= 10.0;
    }
    parts
}

// With how many decimals a standard error is written, and what it is the error of: the fewest that show two digits of
// it, nine at most. Three where nine are too few, as of 0.
pub(crate) fn error_places(error: f64) -> usize
    ensures { (result ≡ error_places error) × (result ≤ 9) }
{
    for places in 0..10 {
        if shows_two_digits(error, places) {
            return places;
        }
    }
    3
}

fn shows_two_digits(x: f64, places: usize) -> bool
    ensures { result ≡ two_digits (rounded x places) }
{
    match round(x, places) {
        Some(n) => n >= 10,
        None => false,
    }
}

// Writes n parts, of which 10^places make one, with all their decimals, and answers how many bytes they take.
pub(crate) fn write_decimals(out: &mut [u8], n: u64, places: usize) -> usize
    requires { (length out.old ≡ 32) × (places ≤ 11) }
    ensures { (result ≤ 32) × (take result out.new ≡ with_decimals places n) }
{
    let point = text::write_decimal(out, 0, without(n, places));
    if places == 0 {
        return point;
    }
    let decimals = text::write_text(out, point, b".");
    text::write_digits(out, decimals, n, places)
}

// n without its last decimal digits.
fn without(n: u64, places: usize) -> u64
    ensures { result ≡ without places n }
{
    let mut rest = n;
    for _ in 0..places {
        rest /= 10;
    }
    rest
}
