// Reading values and adjoints, clearing, and the reverse passes, in one go or in slices.
//
// Opening a pass and taking a slice hand the state back; the other calls do not change it.
#![tactic(auto)]

pub mod clearing;
pub mod passes;
mod planning;
pub mod reading;
pub mod slicing;
mod walking;

pub use passes::Pass;
pub use slicing::Sliced;
