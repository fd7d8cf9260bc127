// The prompt memory module: a line arrives as soon as it is written or asked, so nothing is ever on its way.
ghost use Rattle.std.specs.Prelude.{◌≡◌};
ghost use Rattle.memory.specs.Held.{framed};
ghost use Rattle.memory.specs.Kinds.{prompt};

use crate::counts::Counts;
use crate::line::{Line, line_count};
use crate::module::Memory;
use crate::refusal::Refusal;

#[derive(Drop)]
pub struct Prompt<'a> {
    words: &'a mut [u64],
}

impl<'a> Prompt<'a> {
    pub fn new(words: &'a mut [u64]) -> Prompt<'a>
        ensures value { result.words.now ≡ words.old }
        ensures lent { result.words.ghost_name ≡ words.entry.ghost_name }
    {
        Prompt { words }
    }
}

impl Memory for Prompt<'_> {
    ghost conduct = { prompt };

    ghost meaning = { λ s. s.words.now };

    ghost frame = { λ s. framed s.words.ghost_name s.words.now };

    #[tactic(auto, using(crate::proofs::Promises::prompt_keeps))]
    fn lines(&self) -> usize {
        line_count(self.words.len())
    }

    fn counts(&self) -> Counts {
        Counts {
            asked: 0,
            due: 0,
            late: 0,
        }
    }

    fn read(&self, word: usize) -> Result<u64, Refusal> {
        Line::of_word(self.words.len(), word)?;
        Ok(self.words[word])
    }

    fn write(&mut self, word: usize, value: u64) -> Result<(), Refusal> {
        Line::of_word(self.words.len(), word)?;
        self.words[word] = value;
        Ok(())
    }

    fn ask(&mut self, line: usize) -> Result<(), Refusal> {
        Line::of(self.words.len(), line)?;
        Ok(())
    }

    fn fence(&mut self) {}

    fn sync(&mut self) {}

    fn arrive(&mut self, line: usize) -> Result<(), Refusal> {
        self.ask(line)
    }

    fn cut(&mut self) {}
}
