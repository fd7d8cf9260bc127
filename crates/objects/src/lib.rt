// Objects of a store: their meaning, their pictures, and queue and stack.
#![tactic(auto)]

mod answer;
mod ends;
mod holder;
mod object;
mod op;
mod promise;
mod row;
#[cfg(test)]
mod tests;

pub use answer::{Answer, Denied, code, value};
pub use holder::{Queue, Stack};
pub use object::Object;
pub use promise::{examples_hold, queue_gives_in_order, stack_gives_latest};
