// The operators on a forward number and a plain number k.
ghost use Rattle.std.specs.Prelude.{◌≡◌, suc};
ghost use Rattle.forward.specs.Forward.{sum_plain, difference_plain, product_plain, quotient_plain, remainder_plain, plain_difference, plain_quotient};
ghost use Rattle.forward.specs.Number.{of_parts};

use crate::numbers::Number;
use crate::parts::Fwd;
use crate::remainder;
use std::ops::{Add, Div, Mul, Rem, Sub};

impl<T: Number> Add<f64> for Fwd<T> {
    type Output = Fwd<T>;

    ghost add_gives = { λ x k z. of_parts T.number z ≡ sum_plain (suc T.order) (of_parts T.number x) k };

    fn add(self, k: f64) -> Fwd<T> {
        Fwd {
            val: self.val.add_f64(k),
            dot: self.dot,
        }
    }
}

impl<T: Number> Sub<f64> for Fwd<T> {
    type Output = Fwd<T>;

    ghost sub_gives = { λ x k z. of_parts T.number z ≡ difference_plain (suc T.order) (of_parts T.number x) k };

    fn sub(self, k: f64) -> Fwd<T> {
        Fwd {
            val: self.val.sub_f64(k),
            dot: self.dot,
        }
    }
}

impl<T: Number> Mul<f64> for Fwd<T> {
    type Output = Fwd<T>;

    ghost mul_gives = { λ x k z. of_parts T.number z ≡ product_plain (suc T.order) (of_parts T.number x) k };

    fn mul(self, k: f64) -> Fwd<T> {
        Fwd {
            val: self.val.mul_f64(k),
            dot: self.dot.mul_f64(k),
        }
    }
}

// As self * (1.0 / k).
impl<T: Number> Div<f64> for Fwd<T> {
    type Output = Fwd<T>;

    ghost div_gives = { λ x k z. of_parts T.number z ≡ quotient_plain (suc T.order) (of_parts T.number x) k };

    fn div(self, k: f64) -> Fwd<T> {
        let inv = 1.0 / k;
        Fwd {
            val: self.val.mul_f64(inv),
            dot: self.dot.mul_f64(inv),
        }
    }
}

// The constant of the value's remainder by k.
impl<T: Number> Rem<f64> for Fwd<T> {
    type Output = Fwd<T>;

    ghost rem_gives = { λ x k z. of_parts T.number z ≡ remainder_plain (suc T.order) (of_parts T.number x) k };

    fn rem(self, k: f64) -> Fwd<T> {
        Fwd::constant(remainder::remainder(self.value(), k))
    }
}

impl<T: Number> Sub<Fwd<T>> for f64 {
    type Output = Fwd<T>;

    ghost sub_gives = { λ k y z. of_parts T.number z ≡ plain_difference (suc T.order) k (of_parts T.number y) };

    fn sub(self, r: Fwd<T>) -> Fwd<T> {
        Fwd {
            val: T::constant(self).sub(r.val),
            dot: r.dot.neg(), // self is constant
        }
    }
}

impl<T: Number> Div<Fwd<T>> for f64 {
    type Output = Fwd<T>;

    ghost div_gives = { λ k y z. of_parts T.number z ≡ plain_quotient (suc T.order) k (of_parts T.number y) };

    fn div(self, r: Fwd<T>) -> Fwd<T> {
        Fwd::constant(self) / r
    }
}
