// How many workers a store is for, and where its words then lie in the memory.
ghost use Rattle.std.specs.Prelude.{◌≡◌, ◌+◌, ◌*◌, ◌≤◌};
ghost use Rattle.machine.specs.Layout.{lines_used, object_at, contents};
ghost use Rattle.store.specs.Indices.{index_word};

use crate::index::Index;
use machine::Refusal;
use std::marker::Model;

#[derive(Clone, Copy)]
pub(crate) struct Workers {
    count: usize,
}

impl Model for Workers {
    ghost use Rattle.std.specs.Prelude.{ℕ, ◌≤◌};

    ghost Value = { ℕ };

    ghost view = { λ w. w.count };

    ghost invariant = { λ w. (1 ≤ w.count) × (w.count ≤ 8) };

    ghost inverse = { λ n. record { count = n } };
}

impl TryFrom<u64> for Workers {
    type Error = Refusal;

    ghost use Rattle.store.specs.Counts.{WorkersOf};

    ghost try_from_gives = { WorkersOf };

    fn try_from(n: u64) -> Result<Workers, Refusal> {
        match n {
            1..=8 => Ok(Workers { count: n as usize }),
            _ => Err(Refusal::WorkerCount),
        }
    }
}

impl Workers {
    pub(crate) fn lines_used(self) -> usize
        ensures value { result ≡ lines_used self }
        ensures within { result ≤ 28 }
    {
        2 * self.count + 12
    }

    // The first word of the object part of a record.
    pub(crate) fn object_at(self, at: Index) -> usize
        ensures value { result ≡ object_at self (index_word at) }
        ensures within { result + 40 ≤ 8 * lines_used self }
        ensures few { self ≤ 8 }
    {
        match at {
            Index::Zero => 8 * (2 + self.count),
            Index::One => 8 * (2 + (self.count + 5) + self.count),
        }
    }

    // The words of line 0.
    pub(crate) fn contents(self, kind: u64) -> [u64; 8]
        ensures { result ≡ contents kind self }
    {
        let n = self.count as u64;
        [1, kind, n, 1, 2, n + 7, n + 5, 2 * n + 12]
    }
}
