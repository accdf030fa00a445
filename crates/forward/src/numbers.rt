// What a part of a forward number may be: a float, or a forward number itself.
ghost use Rattle.std.specs.Prelude.{◌≡◌, ℕ};
ghost use Rattle.forward.specs.Forward.{Fwd, constant, variable, value, sqrt};
ghost use Rattle.forward.specs.Forward.{sum, difference, product, quotient, negation, sum_plain, difference_plain, product_plain};
ghost use Rattle.forward.specs.Number.{OneToOne};

// Both types have the operators, and these methods are those. They are no bounds `Add`, `Sub` and so on, since a call at
// Fwd4 would then be passed each of them for each of them at every order below, which are too many to be proved.
pub trait Number: Copy {
    // How many times it may be derived: 0 for a float.
    ghost order: { ℕ };

    // The number that a value holds.
    ghost number: { Self → Fwd order };

    // The constant v: no derivative.
    fn constant(v: f64) -> Self
        ensures { number result ≡ constant order v };

    // The variable at v: first derivative 1, higher ones 0.
    fn var(v: f64) -> Self
        ensures { number result ≡ variable order v };

    // The innermost value.
    fn value(self) -> f64
        ensures { result ≡ value order (number self) };

    // self + r.
    fn add(self, r: Self) -> Self
        ensures { number result ≡ sum order (number self) (number r) };

    // self - r.
    fn sub(self, r: Self) -> Self
        ensures { number result ≡ difference order (number self) (number r) };

    // self * r.
    fn mul(self, r: Self) -> Self
        ensures { number result ≡ product order (number self) (number r) };

    // self / r.
    fn div(self, r: Self) -> Self
        ensures { number result ≡ quotient order (number self) (number r) };

    // -self.
    fn neg(self) -> Self
        ensures { number result ≡ negation order (number self) };

    // self + k.
    fn add_f64(self, k: f64) -> Self
        ensures { number result ≡ sum_plain order (number self) k };

    // self - k.
    fn sub_f64(self, k: f64) -> Self
        ensures { number result ≡ difference_plain order (number self) k };

    // self * k.
    fn mul_f64(self, k: f64) -> Self
        ensures { number result ≡ product_plain order (number self) k };

    // The square root: s, that of the value part, and dot / (s * 2.0).
    fn sqrt(self) -> Self
        ensures { number result ≡ sqrt order (number self) };

    // Two values that hold the same number are the same.
    ghost one_to_one: { OneToOne number };
}

impl Number for f64 {
    ghost order = { 0 };

    ghost number = { λ x. x };

    ghost one_to_one = { λ x y e. e };

    fn constant(v: f64) -> f64 {
        v
    }

    fn var(v: f64) -> f64 {
        v
    }

    fn value(self) -> f64 {
        self
    }

    fn add(self, r: f64) -> f64 {
        self + r
    }

    fn sub(self, r: f64) -> f64 {
        self - r
    }

    fn mul(self, r: f64) -> f64 {
        self * r
    }

    fn div(self, r: f64) -> f64 {
        self / r
    }

    fn neg(self) -> f64 {
        -self
    }

    fn add_f64(self, k: f64) -> f64 {
        self + k
    }

    fn sub_f64(self, k: f64) -> f64 {
        self - k
    }

    fn mul_f64(self, k: f64) -> f64 {
        self * k
    }

    fn sqrt(self) -> f64 {
        root::sqrt(self)
    }
}
