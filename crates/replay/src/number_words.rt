// A number as the words of a case, value parts before derivative parts, and what is read out of one.
ghost use Rattle.std.specs.Prelude.{◌≡◌, ◌^◌, length};

use crate::words::Answer;
use forward::{Fwd, Fwd1, Fwd2, Fwd3, Fwd4, Number};
use listing::{bits_of, float_of};

pub(crate) trait NumberWords: Number {
    fn from_words(words: &[u64]) -> Self
        requires { length words.now ≡ 2 ^ Self.order };

    fn to_words(self, words: &mut [u64])
        requires { length words.old ≡ 2 ^ Self.order };
}

impl NumberWords for f64 {
    fn from_words(words: &[u64]) -> f64 {
        float_of(words[0])
    }

    fn to_words(self, words: &mut [u64]) {
        words[0] = bits_of(self);
    }
}

impl<T: NumberWords> NumberWords for Fwd<T> {
    fn from_words(words: &[u64]) -> Fwd<T> {
        let (val, dot) = words.split_at(words.len() / 2);
        Fwd {
            val: T::from_words(val),
            dot: T::from_words(dot),
        }
    }

    fn to_words(self, words: &mut [u64]) {
        let half = words.len() / 2;
        let (val, dot) = words.split_at_mut(half);
        self.val.to_words(val);
        self.dot.to_words(dot);
    }
}

// The value, and then each derivative. Each order has its own, since it is that order's own calls that are compared.
pub(crate) trait Reads {
    fn read_out(self, got: &mut Answer);
}

impl Reads for Fwd1 {
    fn read_out(self, got: &mut Answer) {
        got[0] = bits_of(self.value());
        got[1] = bits_of(self.first_derivative());
    }
}

impl Reads for Fwd2 {
    fn read_out(self, got: &mut Answer) {
        got[0] = bits_of(self.value());
        got[1] = bits_of(self.first_derivative());
        got[2] = bits_of(self.second_derivative());
    }
}

impl Reads for Fwd3 {
    fn read_out(self, got: &mut Answer) {
        got[0] = bits_of(self.value());
        got[1] = bits_of(self.first_derivative());
        got[2] = bits_of(self.second_derivative());
        got[3] = bits_of(self.third_derivative());
    }
}

impl Reads for Fwd4 {
    fn read_out(self, got: &mut Answer) {
        got[0] = bits_of(self.value());
        got[1] = bits_of(self.first_derivative());
        got[2] = bits_of(self.second_derivative());
        got[3] = bits_of(self.third_derivative());
        got[4] = bits_of(self.fourth_derivative());
    }
}
