// A forward number: a value part and a derivative part, each a number of the order below.
ghost use Rattle.std.specs.Prelude.{◌≡◌, suc};
ghost use Rattle.forward.specs.Forward.{nought, one, constant, derivative};
ghost use Rattle.forward.specs.Number.{of_parts};
ghost use Rattle.forward.specs.OneToOne.{of_parts_one_to_one};

use crate::numbers::Number;

#[derive(Clone, Copy)]
pub struct Fwd<T> {
    pub val: T,
    pub dot: T,
}

pub type Fwd1 = Fwd<f64>;

pub type Fwd2 = Fwd<Fwd1>;

pub type Fwd3 = Fwd<Fwd2>;

pub type Fwd4 = Fwd<Fwd3>;

impl<T: Number> Number for Fwd<T> {
    ghost order = { suc T.order };

    ghost number = { of_parts T.number };

    ghost one_to_one = { of_parts_one_to_one T.one_to_one };

    fn constant(v: f64) -> Fwd<T> {
        Fwd {
            val: T::constant(v),
            dot: T::constant(0.0),
        }
    }

    fn var(v: f64) -> Fwd<T> {
        Fwd {
            val: T::var(v),
            dot: T::constant(1.0),
        }
    }

    fn value(self) -> f64 {
        self.val.value()
    }

    fn add(self, r: Fwd<T>) -> Fwd<T> {
        self + r
    }

    fn sub(self, r: Fwd<T>) -> Fwd<T> {
        self - r
    }

    fn mul(self, r: Fwd<T>) -> Fwd<T> {
        self * r
    }

    fn div(self, r: Fwd<T>) -> Fwd<T> {
        self / r
    }

    fn neg(self) -> Fwd<T> {
        -self
    }

    fn add_f64(self, k: f64) -> Fwd<T> {
        self + k
    }

    fn sub_f64(self, k: f64) -> Fwd<T> {
        self - k
    }

    fn mul_f64(self, k: f64) -> Fwd<T> {
        self * k
    }

    fn sqrt(self) -> Fwd<T> {
        let s = self.val.sqrt();
        Fwd {
            val: s,
            dot: self.dot.div(s.mul_f64(2.0)),
        }
    }
}

impl<T: Number> Fwd<T> {
    // The constant +0.0. The Rust has a call for it, and one for 1.0.
    pub fn zero() -> Fwd<T>
        ensures { of_parts T.number result ≡ constant (suc T.order) nought }
    {
        Fwd::constant(0.0)
    }

    // The constant 1.0.
    pub fn one() -> Fwd<T>
        ensures { of_parts T.number result ≡ constant (suc T.order) one }
    {
        Fwd::constant(1.0)
    }

    // The first derivative. Each derivative has a call of its own, so that a number has none above its order.
    pub fn first_derivative(self) -> f64
        ensures { result ≡ derivative 1 (suc T.order) (of_parts T.number self) }
    {
        self.dot.value()
    }
}

impl<T: Number> Fwd<Fwd<T>> {
    // The second derivative.
    pub fn second_derivative(self) -> f64
        ensures { result ≡ derivative 2 (suc (suc T.order)) (of_parts (of_parts T.number) self) }
    {
        self.dot.first_derivative()
    }
}

impl<T: Number> Fwd<Fwd<Fwd<T>>> {
    // The third derivative.
    pub fn third_derivative(self) -> f64
        ensures { result ≡ derivative 3 (suc (suc (suc T.order))) (of_parts (of_parts (of_parts T.number)) self) }
    {
        self.dot.second_derivative()
    }
}

impl<T: Number> Fwd<Fwd<Fwd<Fwd<T>>>> {
    // The fourth derivative.
    pub fn fourth_derivative(self) -> f64
        ensures { result ≡ derivative 4 (suc (suc (suc (suc T.order)))) (of_parts (of_parts (of_parts (of_parts T.number))) self) }
    {
        self.dot.third_derivative()
    }
}
