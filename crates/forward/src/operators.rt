// The operators on two forward numbers of one order.
ghost use Rattle.std.specs.Prelude.{◌≡◌, suc};
ghost use Rattle.forward.specs.Forward.{sum, difference, product, quotient, remainder, negation};
ghost use Rattle.forward.specs.Number.{of_parts};

use crate::numbers::Number;
use crate::parts::Fwd;
use crate::remainder;
use std::ops::{Add, Div, Mul, Neg, Rem, Sub};

impl<T: Number> Add for Fwd<T> {
    type Output = Fwd<T>;

    ghost add_gives = { λ x y z. of_parts T.number z ≡ sum (suc T.order) (of_parts T.number x) (of_parts T.number y) };

    fn add(self, r: Fwd<T>) -> Fwd<T> {
        Fwd {
            val: self.val.add(r.val),
            dot: self.dot.add(r.dot),
        }
    }
}

impl<T: Number> Sub for Fwd<T> {
    type Output = Fwd<T>;

    ghost sub_gives = { λ x y z. of_parts T.number z ≡ difference (suc T.order) (of_parts T.number x) (of_parts T.number y) };

    fn sub(self, r: Fwd<T>) -> Fwd<T> {
        Fwd {
            val: self.val.sub(r.val),
            dot: self.dot.sub(r.dot),
        }
    }
}

impl<T: Number> Mul for Fwd<T> {
    type Output = Fwd<T>;

    ghost mul_gives = { λ x y z. of_parts T.number z ≡ product (suc T.order) (of_parts T.number x) (of_parts T.number y) };

    fn mul(self, r: Fwd<T>) -> Fwd<T> {
        Fwd {
            val: self.val.mul(r.val),
            dot: self.val.mul(r.dot).add(self.dot.mul(r.val)),
        }
    }
}

impl<T: Number> Div for Fwd<T> {
    type Output = Fwd<T>;

    ghost div_gives = { λ x y z. of_parts T.number z ≡ quotient (suc T.order) (of_parts T.number x) (of_parts T.number y) };

    fn div(self, r: Fwd<T>) -> Fwd<T> {
        let q = self.val.div(r.val);
        Fwd {
            val: q,
            dot: self.dot.sub(q.mul(r.dot)).div(r.val),
        }
    }
}

// The constant of the values' remainder.
impl<T: Number> Rem for Fwd<T> {
    type Output = Fwd<T>;

    ghost rem_gives = { λ x y z. of_parts T.number z ≡ remainder (suc T.order) (of_parts T.number x) (of_parts T.number y) };

    fn rem(self, r: Fwd<T>) -> Fwd<T> {
        Fwd::constant(remainder::remainder(self.value(), r.value()))
    }
}

impl<T: Number> Neg for Fwd<T> {
    type Output = Fwd<T>;

    ghost neg_gives = { λ x z. of_parts T.number z ≡ negation (suc T.order) (of_parts T.number x) };

    fn neg(self) -> Fwd<T> {
        Fwd {
            val: self.val.neg(),
            dot: self.dot.neg(),
        }
    }
}
