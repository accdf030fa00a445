// Forward numbers: a value with its derivatives, to fourth order. Fwd1 holds two floats, and each higher order two
// numbers of the order below.
//
// Every call but a comparison takes its numbers by value. Each asks nothing of them, and promises the rule of
// specs/Forward.antt at its order; `!=`, `<`, `<=`, `>` and `>=`, which are std's own, promise it by `OperatorsOf` of
// specs/Tests.antt.
#![tactic(auto)]

pub mod comparing;
pub mod numbers;
pub mod operators;
pub mod parts;
pub mod plain;
mod remainder;

pub use numbers::Number;
pub use parts::{Fwd, Fwd1, Fwd2, Fwd3, Fwd4};
