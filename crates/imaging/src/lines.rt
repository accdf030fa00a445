// The reader of texts: bytes are cut into lines, and a line begins a revolution or is an interval.
use crate::digits;
use crate::flux::{Fault, Reading, Wrong};
use arrayvec::ArrayVec;

// The bytes of `revolution 99999999`: no longer line means anything.
const LONGEST: usize = 19;

// What a line begins with that begins a revolution.
const WORD: &[u8] = b"revolution ";

// The bytes of a line that stands unfinished.
#[derive(Drop)]
pub struct Lines {
    line: ArrayVec<u8, LONGEST>,
}

// What a line says.
#[derive(Clone, Copy)]
enum Entry {
    Revolution(u32),
    Interval(u32),
}

impl Lines {
    pub(crate) fn new() -> Lines {
        Lines {
            line: ArrayVec::new(),
        }
    }

    pub(crate) fn take(&mut self, piece: &[u8], reading: &mut Reading) -> Result<(), Fault> {
        for &byte in piece {
            self.take_byte(byte, reading)?;
        }
        Ok(())
    }

    // The last line may lack its line feed.
    pub(crate) fn end(&mut self, reading: &mut Reading) -> Result<(), Fault> {
        if self.line.is_empty() {
            return Ok(());
        }
        take_line(self.line.as_slice(), reading)
    }

    // A line feed ends a line, and any other byte is kept until then.
    fn take_byte(&mut self, byte: u8, reading: &mut Reading) -> Result<(), Fault> {
        if byte == b'\n' {
            take_line(self.line.as_slice(), reading)?;
            self.line.clear();
            return Ok(());
        }
        if self.line.try_push(byte).is_err() {
            return Err(no_entry(self.line.as_slice(), reading));
        }
        Ok(())
    }
}

fn take_line(line: &[u8], reading: &mut Reading) -> Result<(), Fault> {
    match read_entry(line) {
        Some(Entry::Revolution(time)) => reading.begin_revolution(time),
        Some(Entry::Interval(time)) => reading.add_interval(time),
        None => Err(no_entry(line, reading)),
    }
}

fn read_entry(line: &[u8]) -> Option<Entry> {
    match line.strip_prefix(WORD) {
        Some(number) => Some(Entry::Revolution(read_ticks(number)?)),
        None => Some(Entry::Interval(read_ticks(line)?)),
    }
}

// 0 ticks are none.
fn read_ticks(text: &[u8]) -> Option<u32> {
    digits::read_number(text).filter(|ticks| *ticks > 0)
}

// What is wrong with a line that is no entry, or with the first bytes of one that is too long for any.
fn no_entry(line: &[u8], reading: &Reading) -> Fault {
    if reading.is_empty() {
        if let Some(fault) = fault_of_first(line) {
            return fault;
        }
    }
    match fault_of(line) {
        Some(wrong) => reading.at_this(wrong),
        None => Fault::NotText,
    }
}

// What a file that is no text begins with: the marks that imaging tools write, of longer ones the first bytes.
fn fault_of_first(line: &[u8]) -> Option<Fault> {
    if line.starts_with(b"SCP") {
        return Some(Fault::Scp);
    }
    if line.starts_with(b"\r\x04") || line.starts_with(b"\r\x01") || line.starts_with(b"\r\x02") {
        return Some(Fault::Kryoflux);
    }
    if line.starts_with(b"HXC") {
        return Some(Fault::Hfe);
    }
    if line.starts_with(b"CAPS") {
        return Some(Fault::Ipf);
    }
    if line.starts_with(b"A2R") || line.starts_with(b"WOZ") {
        return Some(Fault::Applesauce);
    }
    if line.starts_with(b"SQLite format") {
        return Some(Fault::FluxEngine);
    }
    if line.starts_with(b"\xef\xbb\xbf") {
        return Some(Fault::Line(1, Wrong::ByteOrderMark));
    }
    None
}

// None where the line is no text.
fn fault_of(line: &[u8]) -> Option<Wrong> {
    if line.is_empty() {
        return Some(Wrong::EmptyLine);
    }
    fault_of_number(line.strip_prefix(WORD).unwrap_or(line))
}

// What is no number. One that is wrong by nothing but spaces or tabs is told so, as they are hard to see.
fn fault_of_number(text: &[u8]) -> Option<Wrong> {
    if text.iter().any(|b| is_in_no_text(*b)) {
        return None;
    }
    if text.contains(&b'\r') {
        return Some(Wrong::CarriageReturn);
    }
    if is_spaced(text) {
        return Some(Wrong::Space);
    }
    Some(Wrong::NoNumber)
}

// A control byte but for tabs and carriage returns.
fn is_in_no_text(byte: u8) -> bool {
    byte.is_ascii_control() && byte != b'\t' && byte != b'\r'
}

// Whether the bytes that are no digits are spaces and tabs, and there is one.
fn is_spaced(text: &[u8]) -> bool {
    text.iter()
        .all(|b| matches!(*b, b'0'..=b'9' | b' ' | b'\t'))
        && text.iter().any(|b| matches!(*b, b' ' | b'\t'))
}
