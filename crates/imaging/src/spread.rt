// How well a track fits at the settings that its line tells, relative to nominal: the root mean square of how far the
// intervals that pull are from their cells, and the standard errors of speed and cell. IEEE's operations and the root of
// crate `root` alone, in one order, so that every machine writes the same digits.
ghost use Rattle.std.specs.Prelude.{◌≡◌};
ghost use Rattle.imaging.specs.Spread.{root_mean, turn_variance, seen_variance, speed_error, cell_error};

use crate::fit::Place;
use crate::flux::Turns;
use crate::model::Drive;

// `speed` and `cell` are standard errors, of which a single time has none.
#[derive(Clone, Copy)]
pub struct Spread {
    pub rms: f64,
    pub speed: Option<f64>,
    pub cell: Option<f64>,
}

pub(crate) fn spread_at(drive: Drive, turns: Turns) -> Spread {
    let place = Place::at(drive, turns);
    let seen = drive.seen();
    let turn = 1.0 / drive.speed;
    let off = track::count_off(turns.ticks, seen);
    let pulling = place.intervals - std::num::nearest_usize_to_f64(off);
    let squares = track::pulling_squares(turns.ticks, seen);
    let of_seen = seen_variance(squares, pulling, place.cells, seen);
    let index_squares = track::index_squares(turns.times, turns.median, turn);
    let of_turn = turn_variance(index_squares, place.turns, turn);
    Spread {
        rms: root_mean(squares, pulling),
        speed: unless_one(place.turns, speed_error(drive.speed, of_turn)),
        cell: unless_one(pulling, cell_error(drive.cell, of_seen, of_turn)),
    }
}

fn unless_one(count: f64, error: f64) -> Option<f64> {
    if count > 1.0 { Some(error) } else { None }
}

fn root_mean(squares: f64, count: f64) -> f64
    ensures { result ≡ root_mean squares count }
{
    root::sqrt(squares / count)
}

// The square of a relative standard error, and so is the next.
fn turn_variance(squares: f64, count: f64, turn: f64) -> f64
    ensures { result ≡ turn_variance squares count turn }
{
    if count > 1.0 {
        squares / (count * (count - 1.0)) / (turn * turn)
    } else {
        0.0
    }
}

fn seen_variance(squares: f64, count: f64, cells: f64, seen: f64) -> f64
    ensures { result ≡ seen_variance squares count cells seen }
{
    let time = cells * seen;
    squares * count / (count - 1.0) / (time * time)
}

fn speed_error(speed: f64, variance: f64) -> f64
    ensures { result ≡ speed_error speed variance }
{
    speed * root::sqrt(variance)
}

// By the variances of seen and turn.
fn cell_error(cell: f64, seen: f64, turn: f64) -> f64
    ensures { result ≡ cell_error cell seen turn }
{
    cell * root::sqrt(seen + turn)
}
