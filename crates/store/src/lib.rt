// The store over any object and any memory: format, start, arrive and cut.
#![tactic(auto)]

mod index;
mod store;
mod workers;

pub use machine::{Layer, Refusal};
pub use store::Store;
