// Rows of calls that a format makes; none is refused where the lines are there.
ghost use Rattle.std.specs.Prelude.{◌+◌, ◌≤◌, length, replicate};
ghost use Rattle.memory.specs.Calls.{each_word, each_line};
ghost use Rattle.machine.specs.Layout.{format_calls};
ghost use Rattle.memory.specs.Conduct.{after_calls};
ghost use Rattle.memory.specs.Moves.{Moved};

use crate::index::Index;
use crate::workers::Workers;
use memory::Memory;

// Writes the words from one on, lowest first.
fn write_words<M: Memory>(memory: &mut M, from: usize, words: &[u64])
    requires { from + length words.now ≤ 512 }
    ensures { Moved M.meaning M.frame (after_calls M.conduct (each_word from words.now)) memory.old memory.new }
{
    for (i, value) in words.iter().enumerate() {
        let _ = memory.write(from + i, *value);
    }
}

// Writes that many zeros from one on; 104 words, a record of eight workers, are the most at once.
fn write_zeros<M: Memory>(memory: &mut M, from: usize, count: usize)
    requires { (from + count ≤ 512) × (count ≤ 104) }
    ensures { Moved M.meaning M.frame (after_calls M.conduct (each_word from (replicate count 0))) memory.old memory.new }
{
    write_words(memory, from, &[0; 104][..count]);
}

// Asks for the first lines, lowest first.
fn ask_lines<M: Memory>(memory: &mut M, count: usize)
    ensures { Moved M.meaning M.frame (after_calls M.conduct (each_line 0 count)) memory.old memory.new }
{
    for line in 0..count {
        let _ = memory.ask(line);
    }
}

// The contents, index 0, and record 0 with the picture; else zero.
pub(super) fn write_format<M: Memory>(
    memory: &mut M,
    kind: u64,
    picture: &[u64; 40],
    workers: Workers,
)
    ensures { Moved M.meaning M.frame (after_calls M.conduct (format_calls kind picture.now workers)) memory.old memory.new }
{
    let lines = workers.lines_used();
    let object = workers.object_at(Index::Zero);
    write_words(memory, 0, &workers.contents(kind));
    write_zeros(memory, 8, object - 8);
    write_words(memory, object, picture);
    write_zeros(memory, object + 40, 8 * lines - (object + 40));
    ask_lines(memory, lines);
    memory.sync();
}
