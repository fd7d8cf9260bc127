// A line of a script as a call.
ghost use Rattle.std.specs.Prelude.{◌≡◌};
ghost use Rattle.script.specs.Places.{words_in, first_of, rest_of};
ghost use Rattle.script.specs.Ahead.{words_ahead};
ghost use Rattle.script.specs.Calls.{verb_name, counted, field_of, fields_of, call_of};

use crate::fault::{Fault, FaultKind};
use crate::names::{Named, find_named};
use crate::words::{Part, Pieces, Word, next_word};

#[derive(Clone, Copy, Debug, PartialEq, Eq)]
pub enum Call {
    Format(u64),
    Start,
    Arrive(u64),
    Cut,
}

// The first word of a call.
#[derive(Clone, Copy, Debug, PartialEq, Eq)]
pub enum Verb {
    Format,
    Start,
    Arrive,
    Cut,
}

impl Named for Verb {
    ghost name_of = { verb_name };

    fn name(self) -> &'static str {
        match self {
            Verb::Format => "format",
            Verb::Start => "start",
            Verb::Arrive => "arrive",
            Verb::Cut => "cut",
        }
    }
}

const VERBS: [Verb; 4] = [Verb::Format, Verb::Start, Verb::Arrive, Verb::Cut];

// Whether a line with this verb may have `n` words.
fn has_count(verb: Verb, n: usize) -> bool
    ensures { result ≡ counted verb n }
{
    match verb {
        Verb::Format => n == 2,
        Verb::Start => n == 1,
        Verb::Arrive => n == 2,
        Verb::Cut => n == 1,
    }
}

// The next word as a number.
fn field(words: &mut Pieces<'_>, line: usize) -> Result<u64, Fault>
    ensures value { result ≡ field_of line (first_of (words_ahead words.old)) }
    ensures after { words_ahead words.new ≡ rest_of (words_ahead words.old) }
{
    match next_word(words).ok_or(FaultKind::FieldCount.at_line(line))? {
        Word::Number(_, n) => Ok(n),
        Word::Name(part) => Err(Fault {
            kind: FaultKind::NoNumber,
            line: part.line,
            byte: part.byte,
        }),
    }
}

// The call of a verb with the fields that are still to come.
fn fields(words: &mut Pieces<'_>, line: usize, verb: Verb) -> Result<Call, Fault>
    ensures { result ≡ fields_of line verb (words_ahead words.old) }
{
    match verb {
        Verb::Format => Ok(Call::Format(field(words, line)?)),
        Verb::Start => Ok(Call::Start),
        Verb::Arrive => Ok(Call::Arrive(field(words, line)?)),
        Verb::Cut => Ok(Call::Cut),
    }
}

// The call that a line is, or its first fault.
pub(crate) fn read_call(line: Part<'_>) -> Result<Call, Fault>
    ensures { result ≡ call_of line.entry.line (words_in line.entry.line line.entry.bytes.now) }
{
    let at = line.line;
    let mut words = Pieces::words(line);
    let verb = next_word(&mut words)
        .and_then(|word| find_named(&VERBS, word.bytes()))
        .ok_or(FaultKind::UnknownWord.at_line(at))?;
    if !has_count(verb, 1 + words.count_ahead()) {
        return Err(FaultKind::FieldCount.at_line(at));
    }
    fields(&mut words, at, verb)
}
