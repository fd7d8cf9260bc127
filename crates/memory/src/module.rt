// What every memory module answers and leaves; its `conduct` says which arrivals it adds, and keeps the rules.
ghost use Rattle.std.specs.Prelude.{◌≡◌};
ghost use Rattle.memory.specs.Model.{lines};
ghost use Rattle.memory.specs.Post.{Formed, word_at, counted};
ghost use Rattle.memory.specs.Calls.{reply, writes, asks, fences, syncs, arrives};
ghost use Rattle.memory.specs.Conduct.{Conduct, Keeps, after_call};
ghost use Rattle.memory.specs.Held.{Frame};
ghost use Rattle.memory.specs.Moves.{Moved};

use crate::counts::Counts;
use crate::refusal::Refusal;

pub trait Memory {
    ghost conduct: { Conduct };

    ghost meaning: { Self → conduct.State };

    // which words it was lent, and those that it never touches
    ghost frame: { Self → Frame };

    // the number of lines, which stays
    fn lines(&self) -> usize
        ensures count { result ≡ lines (conduct.model (meaning self.now)) }
        ensures formed { Formed (conduct.model (meaning self.now)) }
        ensures keeps { Keeps conduct };

    fn counts(&self) -> Counts
        ensures { result ≡ counted (conduct.model (meaning self.now)) };

    fn read(&self, word: usize) -> Result<u64, Refusal>
        ensures { result ≡ word_at word (conduct.model (meaning self.now)) };

    fn write(&mut self, word: usize, value: u64) -> Result<(), Refusal>
        ensures reply { result ≡ reply (writes word value) (conduct.model (meaning self.old)) }
        ensures moved { Moved meaning frame (after_call conduct (writes word value)) self.old self.new };

    fn ask(&mut self, line: usize) -> Result<(), Refusal>
        ensures reply { result ≡ reply (asks line) (conduct.model (meaning self.old)) }
        ensures moved { Moved meaning frame (after_call conduct (asks line)) self.old self.new };

    fn fence(&mut self)
        ensures { Moved meaning frame (after_call conduct fences) self.old self.new };

    fn sync(&mut self)
        ensures { Moved meaning frame (after_call conduct syncs) self.old self.new };

    fn arrive(&mut self, line: usize) -> Result<(), Refusal>
        ensures reply { result ≡ reply (arrives line) (conduct.model (meaning self.old)) }
        ensures moved { Moved meaning frame (after_call conduct (arrives line)) self.old self.new };

    fn cut(&mut self)
        ensures { Moved meaning frame conduct.loses self.old self.new };
}
