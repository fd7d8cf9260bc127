// How a refusal reads.
ghost use Rattle.std.specs.Prelude.{Some};
ghost use Rattle.bounded.specs.Texts.{full_text};

use super::Full;
use std::error::Error;
use std::fmt;

impl fmt::Display for Full {
    ghost output = { λ full. Some (full_text full) };

    fn fmt<W: fmt::Write>(&self, f: &mut fmt::Formatter<W>) -> fmt::Result {
        f.write_str("no more fits in")
    }
}

impl Error for Full {}
