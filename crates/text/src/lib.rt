// Numbers as text: written into lent bytes, and read.
#![tactic(auto)]

mod read;
mod write;

pub use read::{read_decimal, read_digits, read_hex, read_hex_start};
pub use write::{decimal_length, write_decimal, write_digits, write_hex, write_text};
