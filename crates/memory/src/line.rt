// A line of a memory module, and the tests whether a line or a word is inside.
ghost use Rattle.std.specs.Prelude.{◌≡◌, ◌*◌, ◌/◌, nat_lt, if◌then◌else◌, Ok, Err};
ghost use Rattle.memory.specs.declared.refusal.Refusal.TheVariants.{Outside};
ghost use Rattle.memory.specs.Held.{line_count};

use crate::refusal::Refusal;
use std::marker::Model;

#[derive(Clone, Copy)]
pub(crate) struct Line {
    pub(crate) index: usize,
}

// Clauses see the number of the line.
impl Model for Line {
    ghost use Rattle.std.specs.Prelude.{ℕ, ◌<◌};

    ghost Value = { ℕ };

    ghost view = { λ l. l.index };

    ghost invariant = { λ l. l.index < 64 };

    ghost inverse = { λ n. record { index = n } };
}

impl Line {
    // The line of that number, if it is inside a module of that many words.
    pub(crate) fn of(words: usize, index: usize) -> Result<Line, Refusal>
        ensures { result ≡ (if nat_lt index (line_count words) then Ok index else Err Outside) }
    {
        if index < line_count(words) {
            Ok(Line { index })
        } else {
            Err(Refusal::Outside)
        }
    }

    // The line of a word, if the word is inside a module of that many words.
    pub(crate) fn of_word(words: usize, word: usize) -> Result<Line, Refusal>
        ensures { result ≡ (if nat_lt word (8 * line_count words) then Ok (word / 8) else Err Outside) }
    {
        Line::of(words, word / 8)
    }
}

// the whole lines of that many words, and 64 at most
pub(crate) fn line_count(words: usize) -> usize
    ensures { result ≡ line_count words }
{
    (words / 8).min(64)
}
