// The tape: its small state, handles to its nodes, refusals, and what every call tests of the arrays it is lent.
//
// specs/ hold document 01's machine. A call on the tape, here and in the crates above, is one step of it;
// `Tape::admit`, `Tape::walking`, `Lengths::of`, `NodesMut::shared`, `Handle::lookup` and `Handle::usable` are what such
// calls are made of.
#![tactic(auto)]

pub mod admission;
pub mod errors;
pub mod node;
pub mod nodes;
pub mod tape;

pub use admission::{Caller, Lengths};
pub use errors::Refusal;
pub use node::{Handle, Lookup, MOST_EDGES, MOST_NODES, Operand};
pub use nodes::{Nodes, NodesMut};
pub use tape::{Span, Tape};
