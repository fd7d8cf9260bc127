// The calls of the lazy memory module.
ghost use Rattle.std.specs.Prelude.{◌≡◌, ◌*◌, ◌/◌, ◌<◌, ◌≤◌, length, if◌then◌else◌, slice_set};
ghost use Rattle.memory.specs.Model.{arrivals, way, write};
ghost use Rattle.memory.specs.Post.{inside_word, stores};
ghost use Rattle.memory.specs.Calls.{reply, writes};
ghost use Rattle.memory.specs.Held.{opened, front, framed, line_count};
ghost use Rattle.memory.specs.Moves.{Moved};
ghost use Rattle.memory.specs.Kinds.{lazy, lazy_meaning, lazy_frame};

use super::Lazy;
use super::on_the_way::OnTheWay;
use crate::counts::Counts;
use crate::line::{Line, line_count};
use crate::line_set::{LineSet, copy_lines};
use crate::module::Memory;
use crate::refusal::Refusal;

impl<'a> Lazy<'a> {
    pub fn new(memory: &'a mut [u64]) -> Lazy<'a>
        ensures after { lazy_meaning result ≡ opened memory.old }
        ensures lent { lazy_frame result ≡ framed memory.entry.ghost_name memory.old }
    {
        let mut current = [0; 512];
        copy_front(memory, &mut current);
        Lazy {
            kept: memory,
            current,
            on_the_way: OnTheWay::none(),
        }
    }
}

// Copies the words of the whole lines of one image to the other.
fn copy_front(from: &[u64], to: &mut [u64])
    requires { 8 * line_count (length from.now) ≤ length to.old }
    ensures front { front from.now to.new ≡ front from.now from.now }
    ensures len { length to.new ≡ length to.old }
{
    let words = 8 * line_count(from.len());
    to[..words].copy_from_slice(&from[..words]);
}

// The same of an image that stands behind a `&mut`, as a module holds the kept one.
fn copy_kept(kept: &&mut [u64], current: &mut [u64])
    requires { 8 * line_count (length kept.now.now) ≤ length current.old }
    ensures front { front kept.now.now current.new ≡ front kept.now.now kept.now.now }
    ensures len { length current.new ≡ length current.old }
{
    copy_front(kept, current);
}

impl Lazy<'_> {
    // Lets the lines of a set arrive.
    #[tactic(auto, using(crate::proofs::Images::in_images, crate::proofs::Images::held_arrivals))]
    fn arrive_all(&mut self, set: LineSet)
        ensures moved { Moved lazy_meaning lazy_frame (arrivals set) self.old self.new }
        ensures long { length self.new.kept.now ≡ length self.old.kept.now }
    {
        let Lazy { kept, current, .. } = self;
        copy_lines(set.within(LineSet::inside(kept.len())), current, kept);
        self.on_the_way.arrive(set);
    }

    // Lets the due lines arrive where the line is one of them.
    fn make_way(&mut self, line: Line)
        ensures moved { Moved lazy_meaning lazy_frame (way line) self.old self.new }
        ensures long { length self.new.kept.now ≡ length self.old.kept.now }
    {
        let due = self.on_the_way.due;
        if due.contains(line) {
            self.arrive_all(due);
        }
    }

    // Writes a word of the line, after making way.
    fn put(&mut self, line: Line, word: usize, value: u64)
        requires line { line ≡ word / 8 }
        requires inside { word < 8 * line_count (length self.old.kept.now) }
        ensures moved { Moved lazy_meaning lazy_frame (write word value) self.old self.new }
    {
        self.make_way(line);
        self.current[word] = value;
        self.on_the_way.wrote(line);
    }

    // Writes one word, asks for its line and syncs.
    fn store(&mut self, word: usize, value: u64) -> Result<(), Refusal>
        ensures reply { result ≡ reply (writes word value) (lazy_meaning self.old) }
        ensures moved { Moved lazy_meaning lazy_frame (stores word value) self.old self.new }
    {
        let line = Line::of_word(self.kept.len(), word)?;
        self.put(line, word, value);
        self.on_the_way.ask(line);
        self.sync();
        Ok(())
    }
}

impl Memory for Lazy<'_> {
    ghost conduct = { lazy };

    ghost meaning = { lazy_meaning };

    ghost frame = { lazy_frame };

    #[tactic(auto, using(crate::proofs::Promises::lazy_keeps))]
    fn lines(&self) -> usize {
        line_count(self.kept.len())
    }

    fn counts(&self) -> Counts {
        self.on_the_way.counts()
    }

    fn read(&self, word: usize) -> Result<u64, Refusal> {
        Line::of_word(self.kept.len(), word)?;
        Ok(self.current[word])
    }

    fn write(&mut self, word: usize, value: u64) -> Result<(), Refusal> {
        self.put(Line::of_word(self.kept.len(), word)?, word, value);
        Ok(())
    }

    fn ask(&mut self, line: usize) -> Result<(), Refusal> {
        self.on_the_way.ask(Line::of(self.kept.len(), line)?);
        Ok(())
    }

    fn fence(&mut self) {
        self.arrive_all(self.on_the_way.due);
        self.on_the_way.fence();
    }

    fn sync(&mut self) {
        self.arrive_all(self.on_the_way.due);
        self.arrive_all(self.on_the_way.asked);
        self.on_the_way = OnTheWay::none();
    }

    fn arrive(&mut self, line: usize) -> Result<(), Refusal> {
        let line = Line::of(self.kept.len(), line)?;
        if !self.on_the_way.may_arrive(line) {
            return Err(Refusal::NotAllowed);
        }
        self.arrive_all(LineSet::only(line));
        Ok(())
    }

    fn cut(&mut self) {
        let Lazy { kept, current, .. } = self;
        copy_kept(kept, current);
        self.on_the_way = OnTheWay::none();
    }
}

// Stores one word: when the loan ends the caller's words hold it, and are otherwise as they were.
pub fn store_word(memory: &mut [u64], word: usize, value: u64) -> Result<(), Refusal>
    ensures reply { result ≡ reply (writes word value) (opened memory.old) }
    ensures after { memory.new ≡ (if inside_word word (opened memory.old) then slice_set memory.old word value else memory.old) }
{
    let mut module = Lazy::new(memory);
    module.store(word, value)
}
