// What an operation answers: a value, or why it was denied; and the two words that show it.
ghost use Rattle.std.specs.Prelude.{◌≡◌, Some};
ghost use Rattle.objects.specs.Answers.{answer_code, answer_value, denied_text};

use std::error::Error;
use std::fmt;

// Why an operation was denied, with the number that shows it.
#[derive(Clone, Copy, Debug, PartialEq, Eq)]
pub enum Denied {
    Empty = 1,
    Full = 2,
    Unknown = 3,
}

impl fmt::Display for Denied {
    ghost output = { λ denied. Some (denied_text denied) };

    fn fmt<W: fmt::Write>(&self, f: &mut fmt::Formatter<W>) -> fmt::Result {
        f.write_str(match self {
            Denied::Empty => "nothing is in",
            Denied::Full => "no more fits in",
            Denied::Unknown => "no such operation",
        })
    }
}

impl Error for Denied {}

pub type Answer = Result<u64, Denied>;

pub fn code(answer: Answer) -> u64
    ensures { result ≡ answer_code answer }
{
    match answer {
        Ok(_) => 0,
        Err(denied) => denied as u64,
    }
}

pub fn value(answer: Answer) -> u64
    ensures { result ≡ answer_value answer }
{
    answer.unwrap_or(0)
}
