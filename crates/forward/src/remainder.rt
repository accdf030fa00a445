// The remainder of two doubles, worked out with whole numbers: no function of the host is asked, so that every machine
// has the same, and any C library will do.
ghost use Rattle.std.specs.Prelude.{◌≡◌, ◌*◌, ◌%◌, ◌^◌, ◌<◌, ◌≤◌};
ghost use Rattle.std.specs.Float.{binary64};
ghost use Rattle.std.specs.Float.Ieee.{of_bits, rem};
ghost use Rattle.root.specs.Root.{Units};
ghost use Rattle.forward.specs.Inner.{Split, Rest};

// x - n * y, where n is x / y cut to a whole number: Rust's `%`. It is exact, and has x's sign.
pub(crate) fn remainder(x: f64, y: f64) -> f64
    ensures { result ≡ rem binary64 x y }
{
    if x.is_nan() | y.is_nan() {
        return f64::NAN;
    }
    let bits = f64::to_bits(x);
    let size = bits % SIGN;
    let divisor = f64::to_bits(y) % SIGN;
    if (INFINITY <= size) | (divisor == 0) {
        return f64::NAN;
    }
    if INFINITY <= divisor {
        return x;
    }
    let rest = f64::from_bits(rest_of(size, divisor));
    if bits < SIGN { rest } else { -rest }
}

// The sign's place in a pattern.
const SIGN: u64 = 0x8000_0000_0000_0000;

// The pattern of +infinity. The finite numbers without a sign have smaller ones, in the numbers' order.
const INFINITY: u64 = 0x7ff0_0000_0000_0000;

// The place above a pattern's 52 digits.
const PLACE: u64 = 0x10_0000_0000_0000;

// The pattern of what one size leaves when another is taken off as often as it goes. Patterns stand bare: a type for
// those below +infinity would be made and taken apart in each of three functions.
fn rest_of(size: u64, divisor: u64) -> u64
    requires { (size < 0x7ff0_0000_0000_0000) × (0 < divisor) × (divisor < 0x7ff0_0000_0000_0000) }
    ensures { Rest size divisor result }
{
    let x = split(size);
    let y = split(divisor);
    if x.e < y.e {
        return size;
    }
    joined(rest_of_digits(x.m, y.m, x.e - y.e), y.e)
}

// A number of units of the least double, m * 2^e, with at most 53 digits in m. Crate root's own of this name counts
// smaller units, of which each number has 53 digits.
#[derive(Clone, Copy)]
struct Scaled {
    m: u64,
    e: u64,
}

// How many units a pattern stands for. Where e is above 0, m has all 53 digits.
fn split(b: u64) -> Scaled
    requires { b < 0x7ff0_0000_0000_0000 }
    ensures { Split b result.m result.e }
{
    let exponent = b / PLACE;
    let digits = b % PLACE;
    if exponent == 0 {
        Scaled { m: digits, e: 0 }
    } else {
        Scaled {
            m: PLACE + digits,
            e: exponent - 1,
        }
    }
}

// What m * 2^places leaves over n.
fn rest_of_digits(m: u64, n: u64, places: u64) -> u64
    requires { (0 < n) × (n < 2 ^ 53) }
    ensures { (result ≡ m * 2 ^ places % n) × (result < n) }
{
    let mut rest = m % n;
    for _ in 0..places {
        rest = rest * 2 % n;
    }
    rest
}

// The pattern of m * 2^e units: m is moved up until it has 53 digits or e has come to 0.
fn joined(m: u64, e: u64) -> u64
    requires { (m < 2 ^ 53) × (e ≤ 2045) }
    ensures { Units (of_bits binary64 result) (m * 2 ^ e) × (result < 0x7ff0_0000_0000_0000) }
{
    let mut digits = m;
    let mut exponent = e;
    // A loop, since 0 has no first digit to count places by.
    while (digits < PLACE) & (0 < exponent) {
        digits *= 2;
        exponent -= 1;
    }
    exponent * PLACE + digits
}
