// What the calls of a script came to, and the text of it in a caller's buffer.
#![tactic(auto)]

mod outcome;
mod output;
#[cfg(test)]
mod tests;
mod text;

pub use outcome::{Outcome, Refused};
pub use output::{NoRoom, write_fault, write_listing};
