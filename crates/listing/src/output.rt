// A listing or a fault at the start of the caller's buffer.
ghost use Rattle.std.specs.Prelude.{◌≡◌, Some};
ghost use Rattle.listing.specs.Texts.{listing_text, fault_text};
ghost use Rattle.listing.specs.Buffers.{sized, left_of, Written, no_room_text};

use crate::outcome::Outcome;
use crate::text::{fault_line, line_of};
use bounded::Bounded;
use std::error::Error;
use std::fmt;

// The answer where the text does not fit.
#[derive(Clone, Copy, Debug, PartialEq, Eq)]
pub struct NoRoom;

impl fmt::Display for NoRoom {
    ghost output = { λ no_room. Some (no_room_text no_room) };

    fn fmt<W: fmt::Write>(&self, f: &mut fmt::Formatter<W>) -> fmt::Result {
        f.write_str("the text does not fit")
    }
}

impl Error for NoRoom {}

// What the lines of the listing leave of `most`, where they fit in it.
fn room_left(outcomes: &[Outcome], most: usize) -> Option<usize>
    ensures { result ≡ left_of most (listing_text outcomes.now) }
{
    outcomes
        .iter()
        .try_fold(most, |left, o| left.checked_sub(line_of(*o).len()))
}

// How long the listing is, where that is at most `most`.
fn listing_len(outcomes: &[Outcome], most: usize) -> Result<usize, NoRoom>
    ensures { result ≡ sized (listing_text outcomes.now) most }
{
    let left = room_left(outcomes, most).ok_or(NoRoom)?;
    Ok(most - left)
}

// The listing at the start of `out`, which stays as it was where that does not fit.
pub fn write_listing(outcomes: &[Outcome], out: &mut [u8]) -> Result<usize, NoRoom>
    ensures { Written (listing_text outcomes.now) out.old out.new result }
{
    let n = listing_len(outcomes, out.len())?;
    let mut text = Bounded::new(out);
    for o in outcomes {
        text.extend(line_of(*o).as_bytes()).unwrap();
    }
    Ok(n)
}

// The line of a fault at the start of `out`, which stays as it was where that does not fit. The code is a number: any
// code can be shown, and an enum would ask more of callers.
pub fn write_fault(code: u64, line: u64, byte: u64, out: &mut [u8]) -> Result<usize, NoRoom>
    ensures { Written (fault_text code line byte) out.old out.new result }
{
    let text = fault_line(code, line, byte);
    let n = text.len();
    if n > out.len() {
        return Err(NoRoom);
    }
    out[..n].copy_from_slice(text.as_bytes());
    Ok(n)
}
