// The step machine: its phases, answers and refusals, what every row of calls promises, and the proof of it.
#![tactic(auto)]

mod answer;
mod phase;
mod promise;
mod refusal;
mod rounds;
mod steps;

pub use answer::Answer;
pub use phase::Phase;
pub use promise::durable;
pub use refusal::{Layer, Refusal};
pub use rounds::round_steps;
pub use steps::StepAnswer;
