// A float's 64 bits, as they stand in a list: 16 lower-case hex digits. Any NaN counts as one NaN.
use listing::{bits_of, float_of};
use text::read_hex;

// A word, of 16 digits, with the space before it.
pub const PLACES: usize = 17;

// The words of a case, operands and answer: at most three numbers of order 4. They stand first in an array of so many,
// since there is no heap; the places behind them hold 0, and are read for what a kind of case does not have.
pub type Case = [u64; 48];

// The words that the port got: at most a number of order 4.
pub type Answer = [u64; 16];

pub const NAN: u64 = 0x7ff8_0000_0000_0000;

// A line's first word, and the rest of it from the space on.
pub(crate) fn split_word(line: &[u8]) -> (&[u8], &[u8]) {
    let end = line
        .iter()
        .position(|&byte| byte == b' ')
        .unwrap_or(line.len());
    line.split_at(end)
}

// What has the name in a table.
pub(crate) fn named<K: Copy>(names: &[(&str, K)], name: &[u8]) -> Option<K> {
    let (_, kind) = names.iter().find(|(other, _)| other.as_bytes() == name)?;
    Some(*kind)
}

// Reads words, each with a space before it, into the first places of the case, and answers how many they are; nothing
// where the text is not made of words, or of more than a case has.
pub(crate) fn read_words(text: &[u8], case: &mut Case) -> Option<usize> {
    let count = text.len() / PLACES;
    if text.len() % PLACES != 0 || count > case.len() {
        return None;
    }
    for (place, word) in case.iter_mut().zip(text.chunks_exact(PLACES)) {
        *place = read_word(word)?;
    }
    Some(count)
}

fn read_word(text: &[u8]) -> Option<u64> {
    let digits = text.strip_prefix(b" ")?;
    Some(one_nan(read_hex(digits)?))
}

// The bits by which two words are compared.
fn one_nan(bits: u64) -> u64 {
    bits_of(float_of(bits))
}

// One word for the first floats: each is put in by an exclusive or, and then the bits are stirred as the generator
// xorshift64 does it.
pub(crate) fn digest(floats: &[f64], length: usize) -> u64 {
    floats
        .iter()
        .take(length)
        .fold(0x9e37_79b9_7f4a_7c15, |sum, &x| stirred(sum ^ bits_of(x)))
}

// The programs samples and speed have the same; no crate that they share draws numbers.
pub(crate) fn stirred(x: u64) -> u64 {
    let a = x ^ (x << 13);
    let b = a ^ (a >> 7);
    b ^ (b << 17)
}
