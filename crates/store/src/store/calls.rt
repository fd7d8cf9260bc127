// The calls on a store.
ghost use Rattle.std.specs.Prelude.{◌≡◌};
ghost use Rattle.machine.specs.Calls.{begun, formatted, does};
ghost use Rattle.machine.specs.Calls.{Call.start, Call.arrive, Call.cut};
ghost use Rattle.store.specs.Shown.{shown, frame_of};
ghost use Rattle.store.specs.Called.{Called, plain_result, no_result};

use super::{Store, Table, writes};
use crate::workers::Workers;
use machine::Refusal;
use memory::Memory;
use objects::Object;

impl<O: Object, M: Memory> Store<O, M> {
    // A store over a memory; it begins down.
    pub fn over(memory: M) -> Store<O, M>
        ensures value { shown O.model M.conduct O.state M.meaning result ≡ begun O.model M.conduct (M.meaning memory) }
        ensures lent { frame_of M.frame result ≡ M.frame memory }
    {
        Store {
            table: None,
            memory,
        }
    }

    // Writes a fresh store for that many workers into the memory of one that is down.
    pub fn format(&mut self, workers: u64) -> Result<(), Refusal>
        ensures { Called O.model M.conduct O.state M.meaning M.frame plain_result (formatted O.model M.conduct workers) self.old self.new result }
    {
        if self.table.is_some() {
            return Err(Refusal::NotDown);
        }
        let n = Workers::try_from(workers)?;
        if self.memory.lines() < n.lines_used() {
            return Err(Refusal::TooFewLines);
        }
        writes::write_format(&mut self.memory, O::kind(), &O::fresh().picture(), n);
        Ok(())
    }

    // Brings a store up that is down, at what its memory holds.
    pub fn start(&mut self) -> Result<(), Refusal>
        ensures { Called O.model M.conduct O.state M.meaning M.frame plain_result (does O.model M.conduct start) self.old self.new result }
    {
        if self.table.is_some() {
            return Err(Refusal::NotDown);
        }
        let (workers, settled) = self.found()?;
        self.table = Some(Table {
            workers,
            settled,
            working: O::fresh(),
        });
        Ok(())
    }

    pub fn arrive(&mut self, line: u64) -> Result<(), Refusal>
        ensures { Called O.model M.conduct O.state M.meaning M.frame plain_result (does O.model M.conduct (arrive line)) self.old self.new result }
    {
        self.memory.arrive(line as usize)?;
        Ok(())
    }

    // Power goes: what has not arrived is lost, and the store is down.
    pub fn cut(&mut self)
        ensures { Called O.model M.conduct O.state M.meaning M.frame no_result (does O.model M.conduct cut) self.old self.new result }
    {
        self.table = None;
        self.memory.cut();
    }
}
