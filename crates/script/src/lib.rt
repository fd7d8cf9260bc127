// A script of calls, read as a whole before anything is run.
#![tactic(auto)]

mod call;
mod fault;
mod names;
mod number;
mod reading;
mod setup;
#[cfg(test)]
mod tests;
mod words;

pub use call::{Call, Verb};
pub use fault::{Fault, FaultKind};
pub use names::Named;
pub use reading::read_script;
pub use setup::{MemoryKind, ObjectKind, Setup};
