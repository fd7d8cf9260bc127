// The first line of a script: which object the store keeps, over which memory.
ghost use Rattle.std.specs.Prelude.{◌≡◌};
ghost use Rattle.script.specs.Places.{words_in, first_of, rest_of, text_of};
ghost use Rattle.script.specs.Ahead.{words_ahead};
ghost use Rattle.script.specs.Setups.{object_name, memory_name, object_of, memory_of, setup_from, setup_of};

use crate::names::{Named, find_named};
use crate::words::{Part, Pieces, next_word};

#[derive(Clone, Copy, Debug, PartialEq, Eq)]
pub enum ObjectKind {
    Queue,
    Stack,
}

#[derive(Clone, Copy, Debug, PartialEq, Eq)]
pub enum MemoryKind {
    Lazy,
    Prompt,
}

#[derive(Clone, Copy, Debug, PartialEq, Eq)]
pub struct Setup {
    pub object: ObjectKind,
    pub memory: MemoryKind,
}

impl Named for ObjectKind {
    ghost name_of = { object_name };

    fn name(self) -> &'static str {
        match self {
            ObjectKind::Queue => "queue",
            ObjectKind::Stack => "stack",
        }
    }
}

impl Named for MemoryKind {
    ghost name_of = { memory_name };

    fn name(self) -> &'static str {
        match self {
            MemoryKind::Lazy => "lazy",
            MemoryKind::Prompt => "prompt",
        }
    }
}

const OBJECTS: [ObjectKind; 2] = [ObjectKind::Queue, ObjectKind::Stack];

const MEMORIES: [MemoryKind; 2] = [MemoryKind::Lazy, MemoryKind::Prompt];

// The setup that the next two words name.
fn named_setup(words: &mut Pieces<'_>) -> Option<Setup>
    ensures { result ≡ setup_from (object_of (text_of (first_of (words_ahead words.old)))) (memory_of (text_of (first_of (rest_of (words_ahead words.old))))) }
{
    let object = find_named(&OBJECTS, next_word(words)?.bytes())?;
    let memory = find_named(&MEMORIES, next_word(words)?.bytes())?;
    Some(Setup { object, memory })
}

// The setup that a line is, if it is one.
pub(crate) fn read_setup(line: Part<'_>) -> Option<Setup>
    ensures { result ≡ setup_of (words_in line.entry.line line.entry.bytes.now) }
{
    let mut words = Pieces::words(line);
    if next_word(&mut words)?.bytes() != b"store".as_slice() {
        return None;
    }
    if words.count_ahead() != 2 {
        return None;
    }
    named_setup(&mut words)
}
