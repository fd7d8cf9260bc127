// Sets of lines as 64-bit numbers, and copying the lines of a set.
ghost use Rattle.std.specs.Prelude.{◌≡◌, ◌+◌, ◌-◌, ◌*◌, ◌^◌, ◌≤◌, ℕ, true, length, bit_and, count_ones, ◌==◌};
ghost use Rattle.std.specs.Iterator.{at_most};
ghost use Rattle.memory.specs.Sets.{mem, minus, with_line, GivesLine};
ghost use Rattle.memory.specs.Held.{line_count};
ghost use Rattle.memory.specs.Model.{copied};

use crate::line::{Line, line_count};
use std::marker::Model;

// One number, as a module has fixed memory and no heap.
#[derive(Clone, Copy)]
pub(crate) struct LineSet {
    bits: u64,
}

// Clauses see the number whose bits are the lines.
impl Model for LineSet {
    ghost use Rattle.std.specs.Prelude.{ℕ};

    ghost Value = { ℕ };

    ghost view = { λ s. s.bits };

    ghost inverse = { λ n. record { bits = n } };
}

impl LineSet {
    pub(crate) fn empty() -> LineSet
        ensures { result ≡ 0 }
    {
        LineSet { bits: 0 }
    }

    pub(crate) fn only(line: Line) -> LineSet
        ensures { result ≡ 2 ^ line }
    {
        LineSet {
            bits: 1 << line.index,
        }
    }

    // the lines of that many words
    pub(crate) fn inside(words: usize) -> LineSet
        ensures { result ≡ 2 ^ line_count words - 1 }
    {
        let lines = line_count(words);
        let bits = if lines == 64 {
            u64::MAX
        } else {
            (1 << lines) - 1
        };
        LineSet { bits }
    }

    pub(crate) fn is_empty(self) -> bool
        ensures { result ≡ (self == 0) }
    {
        self.bits == 0
    }

    pub(crate) fn len(self) -> u32
        ensures { result ≡ count_ones self }
    {
        self.bits.count_ones()
    }

    #[tactic(auto, unfolding(crate::specs::Sets::mem))]
    pub(crate) fn contains(self, line: Line) -> bool
        ensures { result ≡ mem self line }
    {
        (self.bits >> line.index) % 2 == 1
    }

    #[tactic(auto, unfolding(crate::specs::Sets::with_line))]
    pub(crate) fn with(self, line: Line) -> LineSet
        ensures { result ≡ with_line self line }
    {
        LineSet {
            bits: self.bits | LineSet::only(line).bits,
        }
    }

    #[tactic(auto, unfolding(crate::specs::Sets::minus))]
    pub(crate) fn without(self, other: LineSet) -> LineSet
        ensures { result ≡ minus self other }
    {
        LineSet {
            bits: self.bits ^ (self.bits & other.bits),
        }
    }

    // the lines that are in both
    pub(crate) fn within(self, other: LineSet) -> LineSet
        ensures { result ≡ bit_and self other }
    {
        LineSet {
            bits: self.bits & other.bits,
        }
    }
}

// The lines of the set, the lowest first; each is taken out as it is given.
impl Iterator for LineSet {
    type Item = Line;

    ghost next_gives = { GivesLine };

    ghost remaining = { λ s. at_most s };

    #[tactic(auto, using(crate::proofs::Bits::mem_first, crate::proofs::Bits::first_below, crate::proofs::Bits::minus_falls))]
    fn next(&mut self) -> Option<Line> {
        if self.is_empty() {
            return None;
        }
        let line = Line {
            index: self.bits.trailing_zeros() as usize,
        };
        *self = self.without(LineSet::only(line));
        Some(line)
    }
}

// Copies one line from one image to the other.
#[tactic(auto, using(crate::proofs::Copies::put_copied))]
pub(crate) fn copy_line(line: Line, from: &[u64], to: &mut [u64])
    requires { (8 * line + 8 ≤ length from.now) × (8 * line + 8 ≤ length to.old) }
    ensures { to.new ≡ copied (2 ^ line) from.now to.old }
{
    let start = 8 * line.index;
    to[start..start + 8].copy_from_slice(&from[start..start + 8]);
}

// Copies the lines of the set, each of which lies inside both images.
pub(crate) fn copy_lines(set: LineSet, from: &[u64], to: &mut [u64])
    requires { (i : ℕ) → mem set i ≡ true → (8 * i + 8 ≤ length from.now) × (8 * i + 8 ≤ length to.old) }
    ensures { to.new ≡ copied set from.now to.old }
{
    for line in set {
        copy_line(line, from, to);
    }
}
