// What one call of a script came to.
use machine::{Layer, Refusal};
use script::Verb;

// A number, and no enum, by a rule of the project: a listing shows the number as it is, of any layer.
#[derive(Clone, Copy, Debug, PartialEq, Eq)]
pub struct Refused {
    pub number: u64,
    pub layer: Layer,
}

impl From<Refusal> for Refused {
    ghost use Rattle.listing.specs.Refusals.{ShownAs};

    ghost from_gives = { ShownAs };

    fn from(refusal: Refusal) -> Refused {
        Refused {
            number: refusal.number(),
            layer: refusal.layer(),
        }
    }
}

// One enum, and no Result, by a rule of the project: to a listing a refusal is an outcome like the others, and never an
// error to hand on.
#[derive(Clone, Copy, Debug, PartialEq, Eq)]
pub enum Outcome {
    // a call that answers nothing but that it was done
    Done(Verb),
    Refused(Refused),
}
