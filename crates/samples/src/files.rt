// Cases and their answers, a file of each, as host/damage writes them.
ghost use Rattle.std.specs.Prelude.{◌≤◌, length, IfOk, IfSome};
ghost use Rattle.samples.specs.declared.lent.TheConstants.{MOST_LISTING};

use crate::lent::MOST_LISTING;
use std::io::{Cursor, Read};
use std::{fmt, io};
use text::{read_digits, read_hex};

// The session of a case, and how many bytes are lent for its listing.
#[derive(Clone, Copy)]
pub struct Case<'a> {
    pub session: &'a [u8],
    pub room: usize,
    ghost lendable: { room ≤ MOST_LISTING },
}

// A number that a session answers, and the digest of all bytes that are lent to it.
#[derive(Clone, Copy, PartialEq, Eq)]
pub struct Outcome {
    pub number: u64,
    pub digest: u64,
}

impl fmt::Display for Outcome {
    fn fmt<W: fmt::Write>(&self, f: &mut fmt::Formatter<W>) -> fmt::Result {
        let Outcome { number, digest } = *self;
        write!(f, "{number} {digest:016x}")
    }
}

// A byte more than a session may have: one that is refused for its length can be read too.
pub const LONGEST: usize = 65_537;

// More bytes than the line of a case or of an answer has.
const MOST_LINE: usize = 64;

const MOST_DIGITS: usize = 10;

// Stands for what cannot be read of an answer, and is shown for it. No session answers it.
const NO_NUMBER: u64 = u64::MAX;

// Reads until the bytes are full or the file ends, and answers those that were read. The program speed has the same;
// the two share no crate that reads.
pub(crate) fn read_full<'a>(file: &mut impl Read, bytes: &'a mut [u8]) -> io::Result<&'a [u8]>
    ensures { IfOk result (λ read. length read.now ≤ length bytes.old) }
{
    let room = bytes.len() as u64;
    let count = io::copy(&mut file.take(room), &mut Cursor::new(&mut *bytes))?;
    Ok(&bytes[..bytes.len().min(count as usize)])
}

// Reads a case, and its session into the text; none at the end of the file, or where a case cannot be read.
pub(crate) fn read_case<'a>(file: &mut impl Read, text: &'a mut [u8]) -> Option<Case<'a>>
    ensures { IfSome result (λ c. length c.session.now ≤ length text.old) }
{
    let (length, room) = lengths_of(read_line(file, &mut [0; MOST_LINE]))?;
    if length > text.len() || room > MOST_LISTING {
        return None;
    }
    let session = &mut text[..length];
    file.read_exact(session).ok()?;
    if next_byte(file)? != b'\n' {
        return None;
    }
    Some(Case { session, room })
}

pub(crate) fn read_outcome(file: &mut impl Read) -> Outcome {
    outcome_of(read_line(file, &mut [0; MOST_LINE]))
}

// The numbers behind a case's name: how long its session is, and how many bytes are lent. Any are taken here, also such
// that there is no room for.
fn lengths_of(line: &[u8]) -> Option<(usize, usize)> {
    let mut words = line.splitn(3, |&byte| byte == b' ');
    words.next()?;
    let length = number_in(words.next()?)?;
    let room = number_in(words.next()?)?;
    Some((length as usize, room as usize))
}

fn outcome_of(line: &[u8]) -> Outcome {
    let mut words = line.splitn(2, |&byte| byte == b' ');
    Outcome {
        number: words.next().and_then(number_in).unwrap_or(NO_NUMBER),
        digest: words
            .next()
            .and_then(|word| read_hex(word))
            .unwrap_or(NO_NUMBER),
    }
}

fn number_in(text: &[u8]) -> Option<u64> {
    read_digits(text, MOST_DIGITS)
}

// Reads a line up to its line feed, or to as many bytes as there is room for.
fn read_line<'a>(file: &mut impl Read, line: &'a mut [u8]) -> &'a [u8]
    ensures { length result.now ≤ length line.old }
{
    for (i, place) in line.iter_mut().enumerate() {
        match next_byte(file) {
            None | Some(b'\n') => return &line[..i],
            Some(byte) => *place = byte,
        }
    }
    line
}

fn next_byte(file: &mut impl Read) -> Option<u8> {
    let mut byte = [0];
    file.read_exact(&mut byte).ok()?;
    let [byte] = byte;
    Some(byte)
}
