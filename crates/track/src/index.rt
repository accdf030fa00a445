// Index times, of each turn one.
ghost use Rattle.std.specs.Prelude.{◌≡◌};
ghost use Rattle.track.specs.Index.{median, apart, below, at_most, middle, square_if_counted};
ghost use Rattle.track.specs.Total.{float_total};

// A turn at 300 rpm, in ticks of 25 ns.
pub const TURN: f64 = 8_000_000.0;

// The middle one of the times, of an even number the lower of the two; 0 where there is none, and no Option, as the
// promise has it. By counting: to sort them would need a copy, and there is no heap.
pub fn median(times: &[u32]) -> u32
    ensures { result ≡ median times.now }
{
    for &time in times {
        if is_middle(times, time) {
            return time;
        }
    }
    0
}

// Whether a time is more than 1/64 of a nominal turn from the median.
pub fn is_apart(time: u32, median: u32) -> bool
    ensures { result ≡ apart time median }
{
    time.abs_diff(median) > APART
}

// How far the times that are not apart from the median are from `turn`, in nominal turns: the squares, added from the
// first on.
pub fn index_squares(times: &[u32], median: u32, turn: f64) -> f64
    ensures { result ≡ float_total (square_if_counted median turn) times.now }
{
    let mut sum = 0.0;
    for &time in times {
        sum += square_if_counted(time, median, turn);
    }
    sum
}

fn square_if_counted(time: u32, median: u32, turn: f64) -> f64
    ensures { result ≡ square_if_counted median turn time }
{
    if is_apart(time, median) {
        return 0.0;
    }
    let x = time as f64 / TURN - turn;
    x * x
}

// 1/64 of a turn, in ticks.
const APART: u32 = 125_000;

// Fewer than half, rounded up, are below it, and so many at least are not above it.
fn is_middle(times: &[u32], time: u32) -> bool
    ensures { result ≡ middle times.now time }
{
    let n = times.len();
    let half = n - n / 2;
    let below = times.iter().filter(|t| **t < time).count();
    let at_most = times.iter().filter(|t| **t <= time).count();
    below < half && half <= at_most
}
