// The text of one line.
ghost use Rattle.std.specs.Prelude.{◌≡◌, ◌+◌, ◌≤◌, ◌++◌, decimal};
ghost use Rattle.arrayvec.specs.ArrayString.{array_string_len};
ghost use Rattle.listing.specs.Texts.{line_text, fault_text};

use crate::outcome::Outcome;
use arrayvec::ArrayString;
use itoa::Buffer;
use script::Named;

// Room for the longest line with its end, which is a fault's. Lines are pushed piece by piece: a Display says its text
// only where the writer answers Ok, and it could not be proved that a text with room does.
pub(crate) type Line = ArrayString<79>;

// A number has at most 20 digits.
fn push_number(line: &mut Line, n: u64)
    requires { array_string_len line.old + 20 ≤ 79 }
    ensures text { line.new.bytes ≡ line.old.bytes ++ decimal n }
    ensures len { array_string_len line.new ≤ array_string_len line.old + 20 }
{
    line.push_str(Buffer::new().format(n));
}

// The line of an outcome, which has at most 64 bytes with its end.
pub(crate) fn line_of(outcome: Outcome) -> Line
    ensures text { result.bytes ≡ line_text outcome }
    ensures short { array_string_len result ≤ 64 }
{
    let mut line = Line::new();
    match outcome {
        Outcome::Done(verb) => {
            line.push_str(verb.name());
            line.push_str(" ok");
        }
        Outcome::Refused(refused) => {
            line.push_str("refused ");
            push_number(&mut line, refused.number);
            line.push_str(" ");
            line.push_str(refused.layer.name());
        }
    }
    line.push_str("\n");
    line
}

// The line of a fault.
pub(crate) fn fault_line(code: u64, line: u64, byte: u64) -> Line
    ensures { result.bytes ≡ fault_text code line byte }
{
    let mut text = Line::new();
    text.push_str("fault ");
    push_number(&mut text, code);
    text.push_str(" line ");
    push_number(&mut text, line);
    text.push_str(" byte ");
    push_number(&mut text, byte);
    text.push_str("\n");
    text
}
