// An interval in bit cells, and what it weighs in the misfit. `seen` is how long a cell is as the drive reads it, in
// nominal cells of 80 ticks, which are 2,000 ns. It goes beside the ticks in every call, as the promises have it.
ghost use Rattle.std.specs.Prelude.{◌≡◌, ◌≤◌};
ghost use Rattle.track.specs.Cells.{boundaries, first_above, nearest_cells, root, clip, weighed, off, of_length, one_if_off, cells_if_pulling, square_if_pulling};
ghost use Rattle.track.specs.Total.{total, float_total};

// An interval as it is recorded: the square of scaled - seen * root is what it is off, squared, over its cells; and the
// clip is a quarter of a nominal cell, squared, over its cells.
#[derive(Clone, Copy)]
pub struct Weighed {
    pub scaled: f64,
    pub root: f64,
    pub clip: f64,
}

// How many whole cells, 1 to 8, come nearest to so many ticks; from halfway on the more.
pub fn nearest_cells(ticks: u32, seen: f64) -> usize
    ensures { result ≡ nearest_cells seen ticks }
{
    nearest(ticks as f64 / CELL, seen)
}

// An interval with its weight, one over its cells.
pub fn weigh(ticks: u32, seen: f64) -> Weighed
    ensures { result ≡ weighed seen ticks }
{
    let cells = nearest_cells(ticks, seen);
    let root = root(cells);
    Weighed {
        scaled: ticks as f64 / CELL / root,
        root,
        clip: clip(cells),
    }
}

// Whether an interval is more than a quarter of a nominal cell off, so that it does not pull.
pub fn is_off(ticks: u32, seen: f64) -> bool
    ensures { result ≡ off seen ticks }
{
    let weighed = weigh(ticks, seen);
    let x = weighed.scaled - seen * weighed.root;
    !(x * x <= weighed.clip)
}

// How many of the intervals are nearest to so many cells.
pub fn count_cells(ticks: &[u32], seen: f64, cells: usize) -> usize
    ensures { result ≡ total (of_length seen cells) ticks.now }
{
    let mut count = 0;
    // By a loop, which is half as long as `filter` and `count`.
    for &t in ticks {
        if nearest_cells(t, seen) == cells {
            count += 1;
        }
    }
    count
}

// How many of the intervals are off.
pub fn count_off(ticks: &[u32], seen: f64) -> usize
    ensures { result ≡ total (one_if_off seen) ticks.now }
{
    let mut count = 0;
    for &t in ticks {
        if is_off(t, seen) {
            count += 1;
        }
    }
    count
}

// How many cells the intervals that pull have together.
pub fn pulling_cells(ticks: &[u32], seen: f64) -> usize
    ensures { result ≡ total (cells_if_pulling seen) ticks.now }
{
    let mut cells = 0;
    for &t in ticks {
        if !is_off(t, seen) {
            cells += nearest_cells(t, seen);
        }
    }
    cells
}

// How far the intervals that pull are from their cells, in nominal cells: the squares, added from the first on.
pub fn pulling_squares(ticks: &[u32], seen: f64) -> f64
    ensures { result ≡ float_total (square_if_pulling seen) ticks.now }
{
    let mut sum = 0.0;
    for &t in ticks {
        sum += square_if_pulling(t, seen);
    }
    sum
}

const CELL: f64 = 80.0;

fn square_if_pulling(ticks: u32, seen: f64) -> f64
    ensures { result ≡ square_if_pulling seen ticks }
{
    if is_off(ticks, seen) {
        return 0.0;
    }
    let cells = nearest_cells(ticks, seen);
    let x = ticks as f64 / CELL - std::num::nearest_usize_to_f64(cells) * seen;
    x * x
}

// From the k-th on there are more than k cells.
const BOUNDARIES: [f64; 7] = [1.5, 2.5, 3.5, 4.5, 5.5, 6.5, 7.5];

fn nearest(t: f64, seen: f64) -> usize
    ensures { result ≡ first_above seen t boundaries }
{
    for (i, boundary) in BOUNDARIES.iter().enumerate() {
        if t < *boundary * seen {
            return i + 1;
        }
    }
    BOUNDARIES.len() + 1
}

// The roots of 1 to 8, each to the nearest double.
const ROOTS: [f64; 8] = [
    1.0,
    1.4142135623730951,
    1.7320508075688772,
    2.0,
    2.23606797749979,
    2.449489742783178,
    2.6457513110645907,
    2.8284271247461903,
];

// The root of so many cells.
fn root(cells: usize) -> f64
    requires { (1 ≤ cells) × (cells ≤ 8) }
    ensures { result ≡ root cells }
{
    ROOTS[cells - 1]
}

// A sixteenth over so many cells.
fn clip(cells: usize) -> f64
    requires { (1 ≤ cells) × (cells ≤ 8) }
    ensures { result ≡ clip cells }
{
    1.0 / std::num::nearest_usize_to_f64(16 * cells)
}
