// Memory modules, which lose what has not arrived when the power is cut: what every module promises, and two modules over lent words.
#![tactic(auto)]

mod counts;
mod lazy;
mod line;
mod line_set;
mod module;
mod prompt;
mod refusal;
mod worked;

pub use counts::Counts;
pub use lazy::{Lazy, store_word};
pub use module::Memory;
pub use prompt::Prompt;
pub use refusal::Refusal;
pub use worked::examples_hold;
