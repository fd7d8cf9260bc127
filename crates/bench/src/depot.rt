// The function for other programs: script bytes in, the listing or the fault out.
ghost use Rattle.std.specs.Prelude.{◌≤◌, length};
ghost use Rattle.listing.specs.Buffers.{Written};
ghost use Rattle.bench.specs.Scripts.{run_text, text_on, model_of, script_text};

use crate::run::run_calls;
use bounded::Bounded;
use listing::{NoRoom, Outcome};
use memory::{Lazy, Memory, Prompt};
use objects::{Object, Queue, Stack};
use script::{Call, MemoryKind, ObjectKind, Setup, Verb};
use store::Store;

// A script that was read: its setup, and its calls.
#[derive(Clone, Copy)]
struct Run<'a> {
    setup: Setup,
    calls: &'a [Call],
    ghost few: { length calls.now ≤ 512 },
}

impl Run<'_> {
    // Runs the calls on a store over the memory, and writes the listing.
    fn on<O: Object, M: Memory + Drop>(self, memory: M, out: &mut [u8]) -> Result<usize, NoRoom>
        ensures { Written (run_text O.model M.conduct (M.meaning memory) self.entry.calls.now) out.old out.new result }
    {
        let mut store: Store<O, M> = Store::over(memory);
        // An array to lend to the list, by a rule of the project; what it holds at first does not matter.
        let mut list = [Outcome::Done(Verb::Start); 512];
        let mut outcomes = Bounded::new(&mut list);
        run_calls(&mut store, self.calls, &mut outcomes);
        listing::write_listing(outcomes.as_slice(), out)
    }

    // The same for the object of the setup: a match is plainer than a dyn, which would hide the model.
    fn over<M: Memory + Drop>(self, memory: M, out: &mut [u8]) -> Result<usize, NoRoom>
        ensures { Written (run_text (model_of self.entry.setup.object) M.conduct (M.meaning memory) self.entry.calls.now) out.old out.new result }
    {
        match self.setup.object {
            ObjectKind::Queue => self.on::<Queue, M>(memory, out),
            ObjectKind::Stack => self.on::<Stack, M>(memory, out),
        }
    }

    // The same for the memory of the setup, by a match again.
    fn write(self, out: &mut [u8]) -> Result<usize, NoRoom>
        ensures { Written (text_on self.entry.setup.memory (model_of self.entry.setup.object) self.entry.calls.now) out.old out.new result }
    {
        let mut words = [0; 224];
        match self.setup.memory {
            MemoryKind::Lazy => self.over(Lazy::new(&mut words), out),
            MemoryKind::Prompt => self.over(Prompt::new(&mut words), out),
        }
    }
}

// The listing or the fault at the start of `out`, which stays as it was where that does not fit.
pub fn depot_run(script: &[u8], out: &mut [u8]) -> Result<usize, NoRoom>
    ensures { Written (script_text script.now) out.old out.new result }
{
    // An array to lend, as in `on`.
    let mut list = [Call::Start; 512];
    let mut read = Bounded::new(&mut list);
    match script::read_script(script, &mut read) {
        Ok(setup) => {
            let calls = read.as_slice();
            Run { setup, calls }.write(out)
        }
        Err(fault) => listing::write_fault(
            fault.kind.number(),
            fault.line as u64,
            fault.byte as u64,
            out,
        ),
    }
}
