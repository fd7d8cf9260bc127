// What a start reads from the memory.
ghost use Rattle.std.specs.Prelude.{◌≡◌, ◌+◌, ◌*◌, ◌≤◌, length, IfOk, slice_index};
ghost use Rattle.machine.specs.Layout.{lines_used};
ghost use Rattle.machine.specs.Machine.{words_from};
ghost use Rattle.machine.specs.Calls.{workers_found, found};
ghost use Rattle.store.specs.Indices.{index_of};
ghost use Rattle.store.specs.Shown.{found_shown};

use super::Store;
use crate::index::Index;
use crate::workers::Workers;
use machine::Refusal;
use memory::Memory;
use objects::Object;

// The word as it is now; outside the memory, 0.
fn word<M: Memory>(memory: &M, at: usize) -> u64
    ensures { result ≡ slice_index (M.conduct.model (M.meaning memory.now)).current at }
{
    // Asked for what it ensures: both images are of one length.
    let _ = memory.lines();
    memory.read(at).unwrap_or(0)
}

// The words from one on; outside the memory, zeros.
fn words<const N: usize, M: Memory>(memory: &M, from: usize) -> [u64; N]
    requires { from + N ≤ 512 }
    ensures { result ≡ words_from (M.conduct.model (M.meaning memory.now)).current from N }
{
    let mut words = [0; N];
    for (i, w) in words.iter_mut().enumerate() {
        *w = word(memory, from + i);
    }
    words
}

// The number of workers, where line 0 is right for it and the lines are there.
fn workers_there<M: Memory>(memory: &M) -> Result<Workers, Refusal>
    ensures value { result ≡ workers_found (M.conduct.model (M.meaning memory.now)) }
    ensures room { IfOk result (λ n. 8 * lines_used n ≤ length (M.conduct.model (M.meaning memory.now)).current) }
{
    if memory.lines() < 14 {
        return Err(Refusal::TooFewLines);
    }
    let workers = Workers::try_from(word(memory, 2)).map_err(|_| Refusal::WrongContents)?;
    let right = words(memory, 0) == workers.contents(word(memory, 1));
    if !right || memory.lines() < workers.lines_used() {
        return Err(Refusal::WrongContents);
    }
    Ok(workers)
}

// The record that the index names.
fn index_there<M: Memory>(memory: &M) -> Result<Index, Refusal>
    ensures { result ≡ index_of (slice_index (M.conduct.model (M.meaning memory.now)).current 8) }
{
    Index::try_from(word(memory, 8))
}

impl<O: Object, M: Memory> Store<O, M> {
    // What a start finds: the number of workers and the record that the index names.
    pub(super) fn found(&self) -> Result<(Workers, Index), Refusal>
        ensures { found_shown result ≡ found O.model (M.conduct.model (M.meaning self.now.memory)) }
    {
        let workers = workers_there(&self.memory)?;
        if word(&self.memory, 1) != O::kind() {
            return Err(Refusal::WrongKind);
        }
        let settled = index_there(&self.memory)?;
        let picture = words(&self.memory, workers.object_at(settled));
        if O::from_picture(&picture).is_none() {
            return Err(Refusal::NoPicture);
        }
        Ok((workers, settled))
    }
}
