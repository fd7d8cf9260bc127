// A store over an object and a memory.
mod calls;
mod reads;
mod writes;

use crate::index::Index;
use crate::workers::Workers;
use memory::Memory;
use objects::Object;

// What a store that is up remembers between calls.
#[derive(Drop)]
struct Table<O> {
    workers: Workers,
    settled: Index,
    working: O,
}

// No Model as a store of the machine: that was tried, and a Model's Value can't name `O.model` and `M.conduct` yet.
#[derive(Drop)]
pub struct Store<O: Object, M: Memory> {
    table: Option<Table<O>>,
    memory: M,
}
