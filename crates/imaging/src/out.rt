// Numbers on standard output.
ghost use Rattle.std.specs.Prelude.{◌≤◌};

use crate::digits;
use std::{fmt, io};

// So many of something, in the plural but for one.
#[derive(Clone, Copy)]
pub struct Counted(pub usize, pub &'static str);

impl fmt::Display for Counted {
    fn fmt<W: fmt::Write>(&self, f: &mut fmt::Formatter<W>) -> fmt::Result {
        let plural = if self.0 == 1 { "" } else { "s" };
        write!(f, "{} {}{plural}", self.0, self.1)
    }
}

// The digits stand in lent bytes, as the program has no heap, and are no text, so that this is no Display.
pub(crate) fn decimal(rt: &impl Print, x: f64, places: usize) -> io::Result<()>
    requires { places ≤ 11 }
{
    let Some(n) = digits::round(x, places) else {
        return print!(rt; "out of range");
    };
    let mut space = [0u8; digits::WIDTH];
    let end = digits::write_decimals(&mut space, n, places);
    rt.write_all(&space[..end])
}

// A number with its standard error, of which two digits are written.
pub(crate) fn with_error(rt: &impl Print, x: f64, error: f64) -> io::Result<()> {
    let places = digits::error_places(error);
    decimal(rt, x, places)?;
    print!(rt; " ± ")?;
    decimal(rt, error, places)
}
