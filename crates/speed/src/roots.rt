// Square roots of drawn doubles, one after the other.
ghost use Rattle.std.specs.Prelude.{◌<◌};

use crate::plan::{NODES, SEED, next};
use listing::bits_of;
use std::fmt;

const INFINITY: u64 = 0x7ff0_0000_0000_0000;

const LEAST_NORMAL: u64 = 0x10_0000_0000_0000;

// What is drawn: doubles of every exponent, subnormals of every length, or the doubles again, of which no root is taken,
// since drawing needs time too.
#[derive(Clone, Copy)]
pub enum Sort {
    Doubles,
    Subnormals,
    Idle,
}

// The last draw, and a digest of what came of all of them.
#[derive(Clone, Copy)]
struct Drawn {
    draw: u64,
    digest: u64,
}

impl Sort {
    // As many rounds as asked for, each of as many roots as a full tape has nodes, and the digest of all.
    pub(crate) fn repeat(self, times: u64) -> u64 {
        let mut done = Drawn {
            draw: SEED,
            digest: SEED,
        };
        for _ in 0..times {
            for _ in 0..NODES {
                done = self.one_more(done);
            }
        }
        done.digest
    }

    fn one_more(self, before: Drawn) -> Drawn {
        let draw = next(before.draw);
        let x = f64::from_bits(self.pattern(draw));
        Drawn {
            draw,
            digest: next(before.digest ^ bits_of(self.result(x))),
        }
    }

    // The pattern of a double that is positive and finite.
    fn pattern(self, draw: u64) -> u64
        ensures { result < 0x7ff0_0000_0000_0000 }
    {
        match self {
            Sort::Doubles | Sort::Idle => draw % INFINITY,
            Sort::Subnormals => 1 + (draw >> 12 >> (draw % 52)) % LEAST_NORMAL,
        }
    }

    fn result(self, x: f64) -> f64 {
        match self {
            Sort::Doubles | Sort::Subnormals => root::sqrt(x),
            Sort::Idle => x,
        }
    }
}

impl fmt::Display for Sort {
    fn fmt<W: fmt::Write>(&self, f: &mut fmt::Formatter<W>) -> fmt::Result {
        f.write_str(match self {
            Sort::Doubles => "doubles",
            Sort::Subnormals => "subnormals",
            Sort::Idle => "idle",
        })
    }
}
