// A sample: a session out of its file, run, and what it answered.
ghost use Rattle.std.specs.Prelude.{◌≤◌};

use crate::files::{LONGEST, read_full};
use crate::lent::{MOST_LISTING, keep};
use crate::{lent, report};
use std::fs::File;
use std::io;
use std::io::Read;
use std::rt::Files;

// Shows each of these files.
pub(crate) fn show_each(rt: &(impl Files + Print), paths: &[&str], room: usize) -> io::Result<()>
    requires { room ≤ MOST_LISTING }
{
    for path in paths {
        show(rt, path, room, keep)?;
    }
    Ok(())
}

// Shows what the session in the file `NAME.txt` answers, lent so many bytes. What is done `after` the call shows too.
pub(crate) fn show<F: Fn(&mut [u8])>(
    rt: &(impl Files + Print),
    path: &str,
    room: usize,
    after: F,
) -> io::Result<()>
    requires room { room ≤ MOST_LISTING }
    requires callable { F.IsAlwaysCallable after }
{
    let name = path.strip_suffix(".txt").unwrap_or(path);
    let Ok(mut file) = File::open(rt, path) else {
        return report::unreadable(rt, name);
    };
    let mut text = [0u8; LONGEST];
    let text = read_full(&mut file, &mut text)?;
    let mut lent = [0u8; MOST_LISTING];
    let lent = &mut lent[..room];
    let number = lent::run(text, lent);
    after(lent);
    report::answer(rt, name, number, lent)
}
