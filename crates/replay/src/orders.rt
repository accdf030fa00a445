// A line of a list of forward numbers, carried out by the port and compared.
use crate::forward_kinds::{Kind, NAMES, Order};
use crate::list::List;
use crate::numbers;
use crate::said::Words;
use crate::tally::Aside;
use crate::words::{Answer, Case, named, read_words, split_word};
use forward::{Fwd1, Fwd2, Fwd3};

// Carries the line out, reports a difference or that it is no case, and counts it.
pub(crate) fn replay<R: Print>(list: &mut List<'_, R>, order: Order, line: &[u8]) {
    list.tally.next_line();
    let mut case: Case = [0; 48];
    let Some(kind) = read(order, line, &mut case) else {
        list.malformed();
        return;
    };
    let mut got: Answer = [0; 16];
    carry_out(order, kind, &case, &mut got);
    let operands = kind.operand_words(order);
    let answers = kind.answer_words(order);
    let got = &got[..answers];
    let agrees = &case[operands..operands + answers] == got;
    if !agrees {
        list.difference(line, &Words(got));
    }
    list.tally
        .next_case(kind as usize, agrees, Aside::default());
}

// The kind of the line's case, whose words stand first in `case` then.
fn read(order: Order, line: &[u8], case: &mut Case) -> Option<Kind> {
    let (name, rest) = split_word(line);
    let kind = named(&NAMES, name)?;
    let count = kind.operand_words(order) + kind.answer_words(order);
    if read_words(rest, case)? == count {
        Some(kind)
    } else {
        None
    }
}

// The order of a list is known when it is read, and a number's type before.
fn carry_out(order: Order, kind: Kind, case: &Case, got: &mut Answer) {
    match order {
        Order::First => numbers::carry_out::<f64>(kind, 2, case, got),
        Order::Second => numbers::carry_out::<Fwd1>(kind, 4, case, got),
        Order::Third => numbers::carry_out::<Fwd2>(kind, 8, case, got),
        Order::Fourth => numbers::carry_out::<Fwd3>(kind, 16, case, got),
    }
}
