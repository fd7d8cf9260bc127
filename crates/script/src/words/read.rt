// How a script is cut into lines, and a line into words.
ghost use Rattle.std.specs.Prelude.{◌≡◌, ◌==◌, ◌∷◌, length, position, Some};
ghost use Rattle.std.specs.Iterator.{YieldsFirstBy, item_count};
ghost use Rattle.std.specs.Option.{option_map};
ghost use Rattle.script.specs.Places.{words_in, seen_at, first_of, rest_of, text_of};
ghost use Rattle.script.specs.Ahead.{spot_of, seen_of, ahead_of, pieces_ahead, words_ahead, lines_or_one};

use super::{Part, Pieces, Word};
use crate::number::read_number;

// The place of the first `sep`.
fn find(bytes: &[u8], sep: u8) -> Option<usize>
    ensures { result ≡ position (λ b. b == sep) bytes.now }
{
    bytes.iter().position(|b| *b == sep)
}

// The first piece of a part, and what is left behind its separator.
fn cut(part: Part<'_>, sep: u8) -> (Part<'_>, Option<Part<'_>>)
    ensures { ahead_of sep (Some part.entry) ≡ spot_of result.0 ∷ ahead_of sep result.1 }
{
    let Some(n) = find(part.bytes, sep) else {
        return (part, None);
    };
    let (front, back) = part.bytes.split_at(n);
    let first = Part {
        bytes: front,
        line: part.line,
        byte: part.byte,
    };
    let (line, byte) = if sep == b'\n' {
        (part.line + 1, 1)
    } else {
        (part.line, part.byte + n + 1)
    };
    let rest = Part {
        bytes: &back[1..],
        line,
        byte,
    };
    (first, Some(rest))
}

impl<'a> From<Part<'a>> for Word<'a> {
    ghost from_gives = { λ p w. seen_of w ≡ seen_at (spot_of p) };

    fn from(part: Part<'a>) -> Word<'a> {
        match read_number(part.bytes) {
            Some(n) => Word::Number(part, n),
            None => Word::Name(part),
        }
    }
}

impl<'a> Word<'a> {
    pub(crate) fn bytes(self) -> &'a [u8]
        ensures { result.now ≡ text_of (Some (seen_of self.entry)) }
    {
        match self {
            Word::Name(part) | Word::Number(part, _) => part.bytes,
        }
    }
}

// The next word of a line, a name or a number.
pub(crate) fn next_word<'a>(words: &mut Pieces<'a>) -> Option<Word<'a>>
    ensures value { option_map seen_of result ≡ first_of (words_ahead words.old) }
    ensures after { words_ahead words.new ≡ rest_of (words_ahead words.old) }
{
    words.next().map(Word::from)
}

// How many pieces a part has. By a sum: to count what a filter lets through took a sixth more instructions on a long line.
fn count_pieces(part: Part<'_>, sep: u8) -> usize
    ensures { result ≡ length (ahead_of sep (Some part.entry)) }
{
    part.bytes
        .iter()
        .map(|b| usize::from(*b == sep))
        .sum::<usize>()
        + 1
}

impl<'a> Pieces<'a> {
    // The words of a line.
    pub(crate) fn words(line: Part<'a>) -> Pieces<'a>
        ensures { words_ahead result ≡ words_in line.entry.line line.entry.bytes.now }
    {
        Pieces {
            rest: Some(Part {
                bytes: line.bytes,
                line: line.line,
                byte: 1,
            }),
            sep: b' ',
        }
    }

    // The lines of a script, of which the last may lack its LF. An empty script has one line here, with nothing in it.
    pub(crate) fn lines(script: &'a [u8]) -> Pieces<'a>
        ensures { pieces_ahead result ≡ lines_or_one script.now }
    {
        let bytes = script.strip_suffix(b"\n".as_slice()).unwrap_or(script);
        Pieces {
            rest: Some(Part {
                bytes,
                line: 1,
                byte: 1,
            }),
            sep: b'\n',
        }
    }

    // How many pieces are still to come.
    pub(crate) fn count_ahead(&self) -> usize
        ensures { result ≡ length (words_ahead self.now) }
    {
        match self.rest {
            Some(part) => count_pieces(part, self.sep),
            None => 0,
        }
    }
}

impl<'a> Iterator for Pieces<'a> {
    type Item = Part<'a>;

    ghost next_gives = { YieldsFirstBy spot_of pieces_ahead };

    ghost remaining = { item_count pieces_ahead };

    fn next(&mut self) -> Option<Part<'a>> {
        let (first, rest) = cut(self.rest?, self.sep);
        self.rest = rest;
        Some(first)
    }
}
