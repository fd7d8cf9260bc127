// The lines that are on their way to a lazy memory module: asked, due and late.
ghost use Rattle.std.specs.Prelude.{◌≡◌, not, ◌||◌, if◌then◌else◌, ◌==◌, count_ones};
ghost use Rattle.memory.specs.Sets.{mem, minus, with_line};

use crate::counts::Counts;
use crate::line::Line;
use crate::line_set::LineSet;

#[derive(Clone, Copy)]
pub(super) struct OnTheWay {
    pub(super) asked: LineSet,
    pub(super) due: LineSet,
    pub(super) late: LineSet,
}

impl OnTheWay {
    pub(super) fn none() -> OnTheWay
        ensures { result ≡ record { asked = 0; due = 0; late = 0 } }
    {
        OnTheWay {
            asked: LineSet::empty(),
            due: LineSet::empty(),
            late: LineSet::empty(),
        }
    }

    pub(super) fn counts(&self) -> Counts
        ensures { result ≡ record { asked = count_ones self.now.asked; due = count_ones self.now.due; late = count_ones self.now.late } }
    {
        Counts {
            asked: self.asked.len(),
            due: self.due.len(),
            late: self.late.len(),
        }
    }

    // no line is due, or this one is, or it is not late
    pub(super) fn may_arrive(&self, line: Line) -> bool
        ensures { result ≡ (self.now.due == 0 || (mem self.now.due line || not (mem self.now.late line))) }
    {
        self.due.is_empty() || self.due.contains(line) || !self.late.contains(line)
    }

    pub(super) fn ask(&mut self, line: Line)
        ensures asked { self.new.asked ≡ with_line self.old.asked line }
        ensures due { self.new.due ≡ self.old.due }
        ensures late { self.new.late ≡ self.old.late }
    {
        self.asked = self.asked.with(line);
    }

    // A line is written: it is late where some line is due.
    pub(super) fn wrote(&mut self, line: Line)
        ensures asked { self.new.asked ≡ self.old.asked }
        ensures due { self.new.due ≡ self.old.due }
        ensures late { self.new.late ≡ (if self.old.due == 0 then self.old.late else with_line self.old.late line) }
    {
        if !self.due.is_empty() {
            self.late = self.late.with(line);
        }
    }

    // The lines of a set arrive: when no line is due any more, none is late.
    pub(super) fn arrive(&mut self, set: LineSet)
        ensures asked { self.new.asked ≡ minus self.old.asked set }
        ensures due { self.new.due ≡ minus self.old.due set }
        ensures late { self.new.late ≡ (if minus self.old.due set == 0 then 0 else self.old.late) }
    {
        self.asked = self.asked.without(set);
        self.due = self.due.without(set);
        if self.due.is_empty() {
            self.late = LineSet::empty();
        }
    }

    // The asked lines are due, and none is late.
    pub(super) fn fence(&mut self)
        ensures { self.new ≡ record { asked = 0; due = self.old.asked; late = 0 } }
    {
        self.due = self.asked;
        self.asked = LineSet::empty();
        self.late = LineSet::empty();
    }
}
