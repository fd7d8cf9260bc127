// Why a memory module turns a call down.
ghost use Rattle.std.specs.Prelude.{Some};
ghost use Rattle.memory.specs.Refusals.{refusal_text};

use std::error::Error;
use std::fmt;

#[derive(Clone, Copy, Debug, PartialEq, Eq)]
pub enum Refusal {
    // the word or line is not inside
    Outside,
    // the line may not arrive yet
    NotAllowed,
}

impl fmt::Display for Refusal {
    ghost output = { λ refusal. Some (refusal_text refusal) };

    fn fmt<W: fmt::Write>(&self, f: &mut fmt::Formatter<W>) -> fmt::Result {
        f.write_str(match self {
            Refusal::Outside => "the word or line is not inside",
            Refusal::NotAllowed => "the line may not arrive yet",
        })
    }
}

impl Error for Refusal {}
