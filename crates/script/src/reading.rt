// A whole script: its setup, and its calls up to the first fault.
ghost use Rattle.std.specs.Prelude.{◌≡◌};
ghost use Rattle.bounded.specs.Lent.{held, extended};
ghost use Rattle.script.specs.Readings.{calls_left, reading_of};
ghost use Rattle.script.specs.Ahead.{pieces_ahead, to_come};

use crate::call::{Call, read_call};
use crate::fault::{Fault, FaultKind};
use crate::setup::{Setup, read_setup};
use crate::words::Pieces;
use bounded::Bounded;

const MOST_BYTES: usize = 32_768;

const MOST_CALLS: usize = 512;

// The calls of the lines that are still to come, at the end of `calls`.
fn read_calls(setup: Setup, lines: Pieces<'_>, calls: &mut Bounded<Call>) -> Result<Setup, Fault>
    ensures reply { result ≡ (to_come setup 0 calls.old (pieces_ahead lines.entry)).result }
    ensures after { held calls.new ≡ extended (held calls.old) (to_come setup 0 calls.old (pieces_ahead lines.entry)).calls }
{
    for (count, line) in lines.enumerate() {
        if count >= MOST_CALLS || !calls.has_room() {
            return Err(FaultKind::TooManyCalls.at_line(line.line));
        }
        let call = read_call(line)?;
        calls.push(call).unwrap();
    }
    Ok(setup)
}

// The setup of the script, with its calls at the end of `calls`; or its first fault, with the calls before it there.
pub fn read_script(script: &[u8], calls: &mut Bounded<Call>) -> Result<Setup, Fault>
    ensures reply { result ≡ (reading_of (calls_left 0 calls.old) script.now).result }
    ensures after { held calls.new ≡ extended (held calls.old) (reading_of (calls_left 0 calls.old) script.now).calls }
{
    if script.len() > MOST_BYTES {
        return Err(FaultKind::TooLong.at_line(1));
    }
    let mut lines = Pieces::lines(script);
    let setup = lines
        .next()
        .and_then(read_setup)
        .ok_or(FaultKind::WrongFirstLine.at_line(1))?;
    read_calls(setup, lines, calls)
}
