// Forward numbers compare by their innermost values alone, with one another and with a plain number k.
ghost use Rattle.std.specs.Prelude.{◌≡◌, suc};
ghost use Rattle.std.specs.Float.Ieee.{eq, ne, lt, le};
ghost use Rattle.std.specs.Float.Cmp.{on_floats_per, on_floats_po};
ghost use Rattle.forward.specs.Forward.{value, compared, compared_plain, gt, ge, comparison, abs, max_val, min_val};
ghost use Rattle.forward.specs.Number.{of_parts};

use crate::numbers::Number;
use crate::parts::Fwd;
use std::cmp::Ordering;

impl<T: Number> PartialEq for Fwd<T> {
    ghost eq = { λ x y. compared eq (suc T.order) (of_parts T.number x) (of_parts T.number y) };

    ghost laws = { on_floats_per (λ x. value (suc T.order) (of_parts T.number x)) };

    fn eq(&self, r: &Fwd<T>) -> bool {
        self.value() == r.value()
    }
}

impl<T: Number> PartialOrd for Fwd<T> {
    ghost partial_cmp = { λ x y. compared comparison (suc T.order) (of_parts T.number x) (of_parts T.number y) };

    ghost laws = { on_floats_po (λ x. value (suc T.order) (of_parts T.number x)) };

    fn partial_cmp(&self, r: &Fwd<T>) -> Option<Ordering> {
        self.value().partial_cmp(&r.value())
    }
}

impl<T: Number> Fwd<T> {
    // self if its value >= 0.0, else -self.
    pub fn abs(self) -> Fwd<T>
        ensures { of_parts T.number result ≡ abs (suc T.order) (of_parts T.number self) }
    {
        if self.value() >= 0.0 { self } else { -self }
    }

    // self if its value >= r's, else r.
    pub fn max_val(self, r: Fwd<T>) -> Fwd<T>
        ensures { of_parts T.number result ≡ max_val (suc T.order) (of_parts T.number self) (of_parts T.number r) }
    {
        if self.value() >= r.value() { self } else { r }
    }

    // self if its value <= r's, else r.
    pub fn min_val(self, r: Fwd<T>) -> Fwd<T>
        ensures { of_parts T.number result ≡ min_val (suc T.order) (of_parts T.number self) (of_parts T.number r) }
    {
        if self.value() <= r.value() { self } else { r }
    }

    // std's comparisons are of two values of one type, so those with a plain number are methods.

    // The value equals k.
    pub fn eq_f64(self, k: f64) -> bool
        ensures { result ≡ compared_plain eq (suc T.order) (of_parts T.number self) k }
    {
        self.value() == k
    }

    // The value does not equal k, as a NaN never does.
    pub fn ne_f64(self, k: f64) -> bool
        ensures { result ≡ compared_plain ne (suc T.order) (of_parts T.number self) k }
    {
        self.value() != k
    }

    // The value is below k.
    pub fn lt_f64(self, k: f64) -> bool
        ensures { result ≡ compared_plain lt (suc T.order) (of_parts T.number self) k }
    {
        self.value() < k
    }

    // The value is below k or equal.
    pub fn le_f64(self, k: f64) -> bool
        ensures { result ≡ compared_plain le (suc T.order) (of_parts T.number self) k }
    {
        self.value() <= k
    }

    // The value is above k.
    pub fn gt_f64(self, k: f64) -> bool
        ensures { result ≡ compared_plain gt (suc T.order) (of_parts T.number self) k }
    {
        self.value() > k
    }

    // The value is above k or equal.
    pub fn ge_f64(self, k: f64) -> bool
        ensures { result ≡ compared_plain ge (suc T.order) (of_parts T.number self) k }
    {
        self.value() >= k
    }

    // How the value stands to k.
    pub fn partial_cmp_f64(self, k: f64) -> Option<Ordering>
        ensures { result ≡ compared_plain comparison (suc T.order) (of_parts T.number self) k }
    {
        self.value().partial_cmp(&k)
    }
}
