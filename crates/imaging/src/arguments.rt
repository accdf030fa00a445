// The program's arguments: `[-v] FILE.. [--slice N FILE..]`.
ghost use Rattle.std.specs.Prelude.{◌<◌, ◌≤◌, length, IfSome};

use crate::digits;
use std::env::{Env, FillError};

// The longest word that is not the name of a file, a number of 8 digits.
const LONGEST: usize = 8;

// How many arguments there are, of which the first is the program's name. One is asked for by its number: there is no list
// of them.
pub(crate) fn count(rt: &impl Env) -> usize {
    for i in 0..usize::MAX {
        if let Err(FillError::NotPresent) = rt.arg(i, &mut []) {
            return i;
        }
    }
    usize::MAX
}

// An argument, put at the start of `word`. `None` where there is none, or it is longer than `word`.
pub(crate) fn read<'a>(rt: &impl Env, argument: usize, word: &'a mut [u8]) -> Option<&'a mut [u8]>
    ensures { IfSome result (λ found. length found.now ≤ length word.old) }
{
    match rt.arg(argument, word) {
        Ok(length) => Some(&mut word[..length]),
        Err(_) => None,
    }
}

pub(crate) fn is_verbose(rt: &impl Env) -> bool {
    is_word(rt, 1, b"-v")
}

// Where the word `--slice` stands first.
pub(crate) fn find_slice(rt: &impl Env, first: usize, arguments: usize) -> Option<usize>
    ensures { IfSome result (λ i. i < arguments) }
{
    for i in first..arguments {
        if is_word(rt, i, b"--slice") {
            return Some(i);
        }
    }
    None
}

// The nodes of a slice. What is no number is taken for 0, which the tape refuses.
pub(crate) fn slice_size(rt: &impl Env, argument: usize) -> usize {
    let mut word = [0u8; LONGEST];
    let Some(number) = read(rt, argument, &mut word) else {
        return 0;
    };
    digits::read_number(number).unwrap_or(0) as usize
}

fn is_word(rt: &impl Env, argument: usize, word: &[u8]) -> bool {
    let mut space = [0u8; LONGEST];
    match read(rt, argument, &mut space) {
        Some(found) => *found == *word,
        None => false,
    }
}
