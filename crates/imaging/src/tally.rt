// How many files were fitted and how many were not.
ghost use Rattle.std.specs.Prelude.{◌≡◌, ◌+◌, ◌^◌, ◌<◌};
ghost use Rattle.imaging.specs.Tally.{tallied, files};

use std::fmt;

#[derive(Clone, Copy)]
pub struct Tally {
    pub fitted: usize,
    pub not: usize,
}

impl Tally {
    pub(crate) fn new() -> Tally
        ensures { files result ≡ 0 }
    {
        Tally { fitted: 0, not: 0 }
    }

    // One file more.
    pub(crate) fn count(&mut self, fitted: bool)
        requires { files self.old + 1 < 2 ^ 64 }
        ensures { self.new ≡ tallied fitted self.old }
    {
        if fitted {
            self.fitted += 1;
        } else {
            self.not += 1;
        }
    }
}

// The last line.
impl fmt::Display for Tally {
    fn fmt<W: fmt::Write>(&self, f: &mut fmt::Formatter<W>) -> fmt::Result {
        write!(f, "{} fitted, {} not", self.fitted, self.not)
    }
}
