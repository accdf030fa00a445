// The answer of a comparison, as the one word that a list has for it.
use std::cmp::Ordering;

// Rust's six comparisons, a digit each, and its partial_cmp as the last digit.
pub(crate) fn compared(answers: [bool; 6], how: Option<Ordering>) -> u64 {
    let digits = answers
        .iter()
        .fold(0u64, |digits, &holds| digits << 4 | u64::from(holds));
    digits << 4 | number_of(how)
}

fn number_of(how: Option<Ordering>) -> u64 {
    match how {
        Some(Ordering::Less) => 0,
        Some(Ordering::Equal) => 1,
        Some(Ordering::Greater) => 2,
        None => 3,
    }
}
