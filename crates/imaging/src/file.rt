// A file, opened, read piece by piece and closed. The pieces go to the reader of texts (lines.rt); a reader of another
// format would take them in its place, and hand its turns over in the same way (flux.rt).
use crate::flux::{Fault, Reading};
use crate::lines::Lines;
use std::io::{ErrorKind, Read};
use std::rt::Files;
use std::{fs, io};

// For a loop that moves much data and would spend its time on calls for a few bytes.
const PIECE: usize = 65_536;

// Linux's number of an error of the device (EIO), for which there is no kind.
const DEVICE_FAILED: i32 = 5;

// Reads the turns of a file up to its end, or to its first fault. Apart from its caller, so that its piece is off the stack
// once the fit begins.
#[inline(never)]
pub(crate) fn read(rt: &impl Files, name: &[u8], reading: &mut Reading) -> Result<(), Fault> {
    let mut file = open(rt, name)?;
    read_all(&mut file, reading)
}

// A path is text, so that a name which is no UTF-8 cannot be opened.
fn open<R: Files>(rt: &R, name: &[u8]) -> io::Result<R::File> {
    match str::from_utf8(name) {
        Ok(path) => fs::open(rt, path),
        Err(_) => Err(io::Error::from(ErrorKind::InvalidData)),
    }
}

// Why a call on a file failed.
impl From<io::Error> for Fault {
    fn from(error: io::Error) -> Fault {
        match error.kind() {
            ErrorKind::NotFound | ErrorKind::NotADirectory => Fault::Missing,
            ErrorKind::PermissionDenied => Fault::Denied,
            ErrorKind::IsADirectory => Fault::Folder,
            ErrorKind::InvalidFilename => Fault::LongName,
            ErrorKind::FilesystemLoop => Fault::Circle,
            _ => match error.raw_os_error() {
                Some(DEVICE_FAILED) => Fault::Device,
                _ => Fault::Unreadable,
            },
        }
    }
}

// A proved loop has to end, and nothing says that a file does. So the loop counts up to a number that no run uses up.
fn read_all(file: &mut impl Read, reading: &mut Reading) -> Result<(), Fault> {
    let mut piece = [0u8; PIECE];
    let mut lines = Lines::new();
    for _ in 0..u64::MAX {
        let count = file.read(&mut piece)?;
        if count == 0 {
            break;
        }
        lines.take(&piece[..count], reading)?;
    }
    lines.end(reading)?;
    reading.end()
}
