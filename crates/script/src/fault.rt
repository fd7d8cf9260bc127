// What can be wrong with a script, and where.
ghost use Rattle.std.specs.Prelude.{◌≡◌, Some};
ghost use Rattle.script.specs.Faults.{fault_number, at_line, text_of_fault};

use std::error::Error;
use std::fmt;

#[derive(Clone, Copy, Debug, PartialEq, Eq)]
pub enum FaultKind {
    TooManyCalls = 31,
    UnknownWord = 32,
    FieldCount = 33,
    NoNumber = 34,
    WrongFirstLine = 35,
    TooLong = 38,
}

// The line and the byte in that line are counted from 1.
#[derive(Clone, Copy, Debug, PartialEq, Eq)]
pub struct Fault {
    pub kind: FaultKind,
    pub line: usize,
    pub byte: usize,
}

impl FaultKind {
    pub fn number(self) -> u64
        ensures { result ≡ fault_number self }
    {
        self as u64
    }

    // The fault of a whole line.
    pub(crate) fn at_line(self, line: usize) -> Fault
        ensures { result ≡ at_line self line }
    {
        Fault {
            kind: self,
            line,
            byte: 1,
        }
    }
}

impl fmt::Display for Fault {
    ghost output = { λ fault. Some (text_of_fault fault) };

    fn fmt<W: fmt::Write>(&self, f: &mut fmt::Formatter<W>) -> fmt::Result {
        write!(
            f,
            "fault {} line {} byte {}",
            self.kind.number(),
            self.line,
            self.byte
        )
    }
}

impl Error for Fault {}
