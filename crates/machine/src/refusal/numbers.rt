// The number and the layer of a refusal, and how they read.
ghost use Rattle.std.specs.Prelude.{◌≡◌, Some};
ghost use Rattle.machine.specs.Numbers.{refusal_number, refusal_layer, layer_name, refusal_text};

use super::{Layer, Refusal};
use memory::Refusal as MemoryRefusal;
use std::error::Error;
use std::fmt;

impl Layer {
    pub fn name(self) -> &'static str
        ensures { result.now ≡ layer_name self }
    {
        match self {
            Layer::Store => "store",
            Layer::Module => "module",
        }
    }
}

impl Refusal {
    // By a table, since a variant that carries a value has no number of its own.
    pub fn number(self) -> u64
        ensures { result ≡ refusal_number self }
    {
        match self {
            Refusal::NotUp => 1,
            Refusal::NotDown => 2,
            Refusal::NoWorker => 3,
            Refusal::PlaceTaken => 4,
            Refusal::TurnsUsedUp => 5,
            Refusal::NotWaiting => 6,
            Refusal::OtherTurn => 7,
            Refusal::NotAnswered => 8,
            Refusal::TurnOutOfRange => 9,
            Refusal::OtherRequest => 10,
            Refusal::PlaceNotFree => 11,
            Refusal::TurnNotNext => 12,
            Refusal::WorkerCount => 13,
            Refusal::TooFewLines => 14,
            Refusal::WrongContents => 15,
            Refusal::WrongKind => 16,
            Refusal::WrongIndex => 17,
            Refusal::NoPicture => 18,
            Refusal::InMemory(MemoryRefusal::Outside) => 19,
            Refusal::InMemory(MemoryRefusal::NotAllowed) => 20,
            Refusal::LoadedNoPicture => 21,
        }
    }

    pub fn layer(self) -> Layer
        ensures { result ≡ refusal_layer self }
    {
        match self {
            Refusal::InMemory(_) => Layer::Module,
            _ => Layer::Store,
        }
    }
}

impl fmt::Display for Refusal {
    ghost output = { λ refusal. Some (refusal_text refusal) };

    fn fmt<W: fmt::Write>(&self, f: &mut fmt::Formatter<W>) -> fmt::Result {
        write!(f, "refused {} {}", self.number(), self.layer().name())
    }
}

impl Error for Refusal {}
