// Fits drive speed and bit-cell time to recorded flux, all turns kept: `imaging [-v] FILE.. [--slice N FILE..]`. The
// files behind `--slice N` are fitted with every pass in slices of N nodes. There is no heap: what is read and recorded
// stands in arrays of fixed sizes on the stack.
#![tactic(auto)]

mod arguments;
mod digits;
mod file;
mod fit;
mod flux;
mod lines;
mod machine;
mod model;
mod out;
mod passes;
mod report;
mod spread;
mod tally;
mod turn;
mod verdict;

ghost use Rattle.std.specs.Prelude.{◌≡◌, ◌+◌, ◌-◌, ◌^◌, ◌<◌, ◌≤◌};
ghost use Rattle.imaging.specs.Tally.{files};

use fit::Steps;
use flux::{Reading, Turns};
use std::env::Env;
use std::io;
use std::rt::Files;
use tally::Tally;
use verdict::Judged;

// The bytes of the longest name of a file, and one more.
const LONGEST_NAME: usize = 4_096;

// What is asked of a file's fit: that its steps are shown, and the nodes of a slice, where its passes are cut.
#[derive(Clone, Copy)]
pub struct Asked {
    pub verbose: bool,
    pub slice: Option<usize>,
}

// What was told so far: of how many files, and whether all of it could be written. Once a write has failed nothing more is
// written, and the files behind are read and fitted all the same, so that who hands them over is not left standing.
#[derive(Clone, Copy)]
pub struct Told {
    pub tally: Tally,
    pub written: bool,
}

// Where a write has failed, the last line is missing.
fn main(rt: HostRuntime) {
    let told = run(&rt);
    if told.written {
        let tally = told.tally;
        let _ = println!(&rt; "{tally}");
    }
}

fn run(rt: &(impl Env + Files + Print)) -> Told {
    let count = arguments::count(rt);
    let verbose = arguments::is_verbose(rt);
    let first = first_file(verbose);
    let slice = arguments::find_slice(rt, first, count);
    let mut told = Told {
        tally: Tally::new(),
        written: true,
    };
    let whole = Asked {
        verbose,
        slice: None,
    };
    fit_all(rt, &mut told, first, slice.unwrap_or(count), whole);
    if let Some(slice) = slice {
        fit_in_slices(rt, &mut told, slice, count, verbose);
    }
    told
}

fn first_file(verbose: bool) -> usize
    ensures { 1 ≤ result }
{
    if verbose { 2 } else { 1 }
}

// The files behind the word `--slice` and its number.
fn fit_in_slices(
    rt: &(impl Env + Files + Print),
    told: &mut Told,
    slice: usize,
    arguments: usize,
    verbose: bool,
)
    requires { (files told.old.tally ≤ slice) × (slice < arguments) }
    ensures { files told.new.tally ≡ files told.old.tally + (arguments - (slice + 2)) }
{
    let size = slice + 1;
    if size == arguments {
        return;
    }
    let cut = Asked {
        verbose,
        slice: Some(arguments::slice_size(rt, size)),
    };
    fit_all(rt, told, size + 1, arguments, cut);
}

// The files from one argument on, up to another.
fn fit_all(rt: &(impl Env + Files + Print), told: &mut Told, first: usize, end: usize, asked: Asked)
    requires { files told.old.tally ≤ first }
    ensures { files told.new.tally ≡ files told.old.tally + (end - first) }
{
    for argument in first..end {
        let fitted = fit_argument(rt, &mut told.written, argument, asked);
        told.tally.count(fitted);
    }
}

// Whether the file was fitted, and so are the answers of those below, which keep in `written` whether all could be written.
fn fit_argument(
    rt: &(impl Env + Files + Print),
    written: &mut bool,
    argument: usize,
    asked: Asked,
) -> bool {
    let mut space = [0u8; LONGEST_NAME];
    if let Some(name) = arguments::read(rt, argument, &mut space) {
        if !name.is_empty() {
            return fit_file(rt, written, name, asked);
        }
    }
    if *written {
        *written = println!(rt; "argument {argument}: not the name of a file").is_ok();
    }
    false
}

fn fit_file(rt: &(impl Files + Print), written: &mut bool, name: &mut [u8], asked: Asked) -> bool {
    let mut space = [0u32; flux::MOST_INTERVALS];
    fit_in(rt, written, name, &mut space, asked)
}

// The intervals go into what is lent.
fn fit_in(
    rt: &(impl Files + Print),
    written: &mut bool,
    name: &mut [u8],
    ticks: &mut [u32],
    asked: Asked,
) -> bool {
    let mut reading = Reading::new(ticks);
    let read = file::read(rt, name, &mut reading);
    mask(name);
    match read {
        Ok(()) => fit_turns(rt, written, name, reading.turns(), asked),
        Err(fault) => {
            if *written {
                *written = report::fault(rt, name, fault).is_ok();
            }
            false
        }
    }
}

// A name goes into one line, whatever it is made of.
fn mask(name: &mut [u8]) {
    for byte in name {
        if byte.is_ascii_control() {
            *byte = b'?';
        }
    }
}

fn fit_turns(rt: &impl Print, written: &mut bool, name: &[u8], turns: Turns, asked: Asked) -> bool {
    let steps = fit::fit(turns, asked.slice);
    let judged = verdict::judge(&steps, turns);
    if *written {
        *written = tell(rt, name, judged, &steps, turns, asked.verbose).is_ok();
    }
    judged.is_fitted()
}

fn tell(
    rt: &impl Print,
    name: &[u8],
    judged: Judged,
    steps: &Steps,
    turns: Turns,
    verbose: bool,
) -> io::Result<()> {
    report::verdict(rt, name, judged, steps, turns)?;
    report::by_cells(rt, judged.by_cells)?;
    report::turns(rt, turns, judged.seen)?;
    if verbose {
        report::steps(rt, steps)?;
    }
    Ok(())
}
