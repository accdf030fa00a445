// The square root of a double as IEEE 754 has it, worked out with whole numbers: no function of the host is asked, so
// that every machine has the same.
#![tactic(auto)]

ghost use Rattle.std.specs.Prelude.{◌≡◌, ◌+◌, ◌*◌, ◌^◌, ◌≤◌, ◌<◌};
ghost use Rattle.std.specs.Float.{binary64};
ghost use Rattle.std.specs.Float.Ieee.{of_bits};
ghost use Rattle.root.specs.Root.{NearestRoot, Root};
ghost use Rattle.root.specs.Value.{root};
ghost use Rattle.root.specs.Inner.{Scales};

// The square root of x: the double nearest to it. Either zero and +infinity are their own, and that of NaN or of a
// negative number is NaN.
pub fn sqrt(x: f64) -> f64
    ensures root { Root x result }
    ensures value { result ≡ root x }
{
    if x.is_nan() {
        return x;
    }
    let b = x.to_bits();
    match b {
        ZERO | MINUS_ZERO | INFINITY => x,
        _ if b > INFINITY => f64::NAN,
        _ => f64::from_bits(root_pattern(b)),
    }
}

// Patterns of doubles. Above that of +infinity stand those of NaN and of what has a sign.
const ZERO: u64 = 0;

const MINUS_ZERO: u64 = 0x8000_0000_0000_0000;

const INFINITY: u64 = 0x7ff0_0000_0000_0000;

// From this place on a pattern has the exponent, and below it 52 digits. A normal number has a digit 1 at it besides,
// which the pattern leaves out.
const PLACE: u64 = 0x10_0000_0000_0000;

// The pattern of the root of the positive finite double with the pattern b, which is m * 2^(e - 1126). Where e is odd,
// one factor 2 goes to m, so that half of the exponent is e / 2 - 563. s is the root of the digits times 2^27, one place
// more than a pattern has room for; + 1 rounds by that place alone, since no root lies halfway between two doubles. So
// the root is (s + 1) / 2 * 2^(e / 2 - 589). A pattern counts exponents from -1075, and the digit at PLACE adds one more:
// 1074 - 589 is 485.
fn root_pattern(b: u64) -> u64
    requires { (0 < b) × (b < 0x7ff0_0000_0000_0000) }
    ensures { (NearestRoot (of_bits binary64 b) (of_bits binary64 result)) × (result < 0x7ff0_0000_0000_0000) }
{
    let v = taken_apart(b);
    let m = v.m * (v.e % 2 + 1);
    let s = Wide { m }.whole_root();
    (v.e / 2 + 485) * PLACE + (s + 1) / 2
}

// A number m * 2^e, with 53 digits in m.
#[derive(Clone, Copy)]
struct Scaled {
    m: u64,
    e: u64,
}

// The number that the pattern b stands for, in units of 2^-1126, of which the least double has 2^52. A normal number is
// (PLACE + digits) * 2^(exponent - 1075), and 1126 - 1075 is 51.
fn taken_apart(b: u64) -> Scaled
    requires { (0 < b) × (b < 0x7ff0_0000_0000_0000) }
    ensures { (2 ^ 52 ≤ result.m) × (result.m < 2 ^ 53) × (result.e ≤ 2097) × Scales b result.m result.e }
{
    let exponent = b / PLACE;
    let digits = b % PLACE;
    if exponent == 0 {
        shifted_up(digits)
    } else {
        Scaled {
            m: PLACE + digits,
            e: exponent + 51,
        }
    }
}

// A subnormal number has fewer digits: they are moved up until there are 53. Of 64 places 11 are left then.
fn shifted_up(digits: u64) -> Scaled
    requires { (0 < digits) × (digits < 2 ^ 52) }
    ensures { (result.m * 2 ^ result.e ≡ digits * 2 ^ 52) × (2 ^ 52 ≤ result.m) × (result.m < 2 ^ 53) × (result.e ≤ 52) }
{
    let up = digits.leading_zeros() - 11;
    Scaled {
        m: digits << up,
        e: (52 - up) as u64,
    }
}

// A whole number m of 53 or 54 digits.
#[derive(Clone, Copy)]
struct Wide {
    m: u64,
    ghost at_least: { 2 ^ 52 ≤ m },
    ghost below: { m < 2 ^ 54 },
}

impl Wide {
    // The whole part of the root of m * 2^54: the upper half of its digits is the root of m, and the lower half comes by
    // one division, and is at most one too large. What m * 2^54 has over s * s is u * 2^27 - q * q.
    fn whole_root(self) -> u64
        ensures { (result * result ≤ self.m * 2 ^ 54) × (self.m * 2 ^ 54 < (result + 1) * (result + 1)) × (result < 2 ^ 54) }
    {
        let a = self.half_root();
        let left = (self.m - a * a) * HALF_PLACE;
        let q = left / (a * 2);
        let u = left % (a * 2);
        let s = a * HALF_PLACE + q;
        if u * HALF_PLACE < q * q { s - 1 } else { s }
    }

    // The whole part of the root of m. Two steps leave a guess that is at most one too large; that is reckoned and not
    // proved, so a loop takes off what is too much.
    fn half_root(self) -> u64
        ensures { (result * result ≤ self.m) × (self.m < (result + 1) * (result + 1)) }
    {
        let mut r = self.closer(self.closer(self.guess()));
        while self.m < r * r {
            r -= 1;
        }
        r
    }

    // One step of Newton's method, which stays at the root's whole part or above.
    fn closer(self, r: u64) -> u64
        requires { (self.m < (r + 1) * (r + 1)) × (r < 2 ^ 29) }
        ensures { (self.m < (result + 1) * (result + 1)) × (result ≤ r + 1) }
    {
        (r + self.m / r) / 2
    }

    // A first guess at the root of m: one step from the middle of the roots from 2^26 on, or of those from 2^26.5 on. It
    // is written out, so that the compiler divides by a constant.
    fn guess(self) -> u64
        ensures { (self.m < (result + 1) * (result + 1)) × (result < 2 ^ 28) }
    {
        if self.m < TWICE_PLACE {
            (LOWER_MIDDLE + self.m / LOWER_MIDDLE) / 2
        } else {
            (UPPER_MIDDLE + self.m / UPPER_MIDDLE) / 2
        }
    }
}

// 2^27: the root of 2^54.
const HALF_PLACE: u64 = 0x800_0000;

const TWICE_PLACE: u64 = 2 * PLACE;

// 2^26.25 and 2^26.75.
const LOWER_MIDDLE: u64 = 79_806_339;

const UPPER_MIDDLE: u64 = 112_863_206;
