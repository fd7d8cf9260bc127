// The numbered questions that a call answers with no, and the layer that asks each.
mod numbers;

ghost use Rattle.std.specs.Prelude.{◌≡◌};
ghost use Rattle.machine.specs.declared.refusal.Refusal.TheVariants.{InMemory};

use memory::Refusal as MemoryRefusal;

#[derive(Clone, Copy, Debug, PartialEq, Eq)]
pub enum Layer {
    Store,
    Module,
}

#[derive(Clone, Copy, Debug, PartialEq, Eq)]
pub enum Refusal {
    NotUp,
    NotDown,
    NoWorker,
    PlaceTaken,
    TurnsUsedUp,
    NotWaiting,
    OtherTurn,
    NotAnswered,
    TurnOutOfRange,
    OtherRequest,
    PlaceNotFree,
    TurnNotNext,
    WorkerCount,
    TooFewLines,
    WrongContents,
    WrongKind,
    WrongIndex,
    NoPicture,
    InMemory(MemoryRefusal),
    LoadedNoPicture,
}

// A refusal of the memory, handed on.
impl From<MemoryRefusal> for Refusal {
    ghost from_gives = { λ r e. e ≡ InMemory r };

    fn from(refusal: MemoryRefusal) -> Refusal {
        Refusal::InMemory(refusal)
    }
}
