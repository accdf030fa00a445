// The listing: the tape as text, byte for byte as document 01 shows it.
#![tactic(auto)]

mod bits;
pub mod listing;

pub use bits::{bits_of, float_of};
