// Recording: operation numbers and operands in place of the Rust's typed expressions, each operation flattened at once.
//
// `record` takes any operation by its number, for which `operations` has names; `new_leaf` and `put_on_tape` record
// leaves.
#![tactic(auto)]

mod edges;
pub mod operations;
pub mod operators;
pub mod recording;

pub use operations::{
    ADD, DIVIDE, LEAF, MAX, MIN, MULTIPLY, NEGATE, SQRT, SUBTRACT, SUPPLIED_ONE, SUPPLIED_TWO,
    Supplied,
};
pub use recording::Recorded;
