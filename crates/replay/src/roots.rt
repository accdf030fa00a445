// A line of a list of square roots, a double and its root, taken by the port and compared.
use crate::kinds::Kind;
use crate::list::List;
use crate::said::Words;
use crate::tally::Aside;
use crate::words::{Case, read_words, split_word};
use listing::{bits_of, float_of};
use text::read_hex;

// Takes the line's root, reports a difference or that the line is no case, and counts it.
pub(crate) fn replay<R: Print>(list: &mut List<'_, R>, line: &[u8]) {
    list.tally.next_line();
    let Some((x, root)) = read(line) else {
        list.malformed();
        return;
    };
    let got = bits_of(root::sqrt(float_of(x)));
    let agrees = got == root;
    if !agrees {
        list.difference(line, &Words(&[got]));
    }
    list.tally
        .next_case(Kind::Sqrt as usize, agrees, Aside::default());
}

fn read(line: &[u8]) -> Option<(u64, u64)> {
    let (first, rest) = split_word(line);
    let x = read_hex(first)?;
    let mut case: Case = [0; 48];
    if read_words(rest, &mut case)? == 1 {
        Some((x, case[0]))
    } else {
        None
    }
}
