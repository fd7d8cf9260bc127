// A script cut into lines and words, each a part of the script with its place.
ghost use Rattle.std.specs.Prelude.{◌+◌, ◌^◌, ◌<◌, length};

mod read;

pub(crate) use read::next_word;

// A part of the script, with the line and the byte in that line at which it begins, both counted from 1.
#[derive(Clone, Copy, Debug, PartialEq, Eq)]
pub(crate) struct Part<'a> {
    pub(crate) bytes: &'a [u8],
    pub(crate) line: usize,
    pub(crate) byte: usize,
    ghost line_fits: { line + length bytes.now < 2 ^ 64 },
    ghost byte_fits: { byte + length bytes.now + 1 < 2 ^ 64 },
}

// A word as the script has it, with the number that it writes, if it writes one. Both cases keep their place in the script, as the project wants.
#[derive(Clone, Copy, Debug, PartialEq, Eq)]
pub(crate) enum Word<'a> {
    Name(Part<'a>),
    Number(Part<'a>, u64),
}

// The pieces between two separators that are still to come, of what is left of a part.
#[derive(Drop)]
pub(crate) struct Pieces<'a> {
    rest: Option<Part<'a>>,
    sep: u8,
}
