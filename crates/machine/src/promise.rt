// What every row of calls on a store promises.
ghost use Rattle.std.specs.Prelude.{◌≡◌};
ghost use Rattle.memory.specs.Model.{lines};
ghost use Rattle.memory.specs.Post.{Formed};
ghost use Rattle.memory.specs.Conduct.{Keeps};
ghost use Rattle.machine.specs.Order.{Durable};
ghost use Rattle.machine.specs.Follows.{Follows};

use memory::Memory;
use objects::Object;

// One growing order of accepted requests explains every answer and every recovery of a row of calls.
fn explain_rows<O: Object>()
    ensures { Durable O.model }
{}

// A store over this kind of memory makes only calls of which rows are made.
fn follow_rows<O: Object, M: Memory>(memory: &M)
    ensures { Follows O.model M.conduct }
{
    let _ = memory.lines();
}

// How many lines a memory has. For every object and every memory, one growing order of accepted requests explains every
// answer and every recovery of any row of calls after a format, and a store makes only such calls.
pub fn durable<O: Object, M: Memory>(memory: &M) -> usize
    ensures value { result ≡ lines (M.conduct.model (M.meaning memory.now)) }
    ensures formed { Formed (M.conduct.model (M.meaning memory.now)) }
    ensures keeps { Keeps M.conduct }
    ensures order { Durable O.model }
    ensures follows { Follows O.model M.conduct }
{
    explain_rows::<O>();
    follow_rows::<O, M>(memory);
    memory.lines()
}
