// The bytes that are lent for a listing, each the same before the call, so that it shows which of them it wrote.

// The longest listing has so many.
pub const MOST_LISTING: usize = 52_168;

// A byte that stands in no listing.
const FILLING: u8 = 0xa5;

// Runs the session into bytes that are filled before.
pub(crate) fn run(text: &[u8], lent: &mut [u8]) -> u64 {
    lent.fill(FILLING);
    u64::from(session::ingthabor_session(text, lent))
}

pub(crate) fn is_filled(bytes: &[u8]) -> bool {
    bytes.iter().all(|&byte| byte == FILLING)
}

// Leaves the bytes as the call left them.
pub(crate) fn keep(_lent: &mut [u8]) {}

// For a control, changes the last byte.
pub(crate) fn spoil(lent: &mut [u8]) {
    if let Some(last) = lent.last_mut() {
        *last = 0;
    }
}

// One number for all bytes: each is put in by an exclusive or, and then the bits are stirred as the generator
// xorshift64 does it. The programs replay and speed have the same; no crate that they share draws numbers.
pub(crate) fn digest(bytes: &[u8]) -> u64 {
    bytes.iter().fold(0x9e37_79b9_7f4a_7c15, |sum, &byte| {
        stirred(sum ^ u64::from(byte))
    })
}

fn stirred(x: u64) -> u64 {
    let a = x ^ (x << 13);
    let b = a ^ (a >> 7);
    b ^ (b << 17)
}
