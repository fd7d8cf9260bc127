// The two ends of a row: which entry is looked at and taken out.
ghost use Rattle.std.specs.Prelude.{◌≡◌, ℕ};
ghost use Rattle.objects.specs.Rows.{First, Rest, oldest, newest, but_oldest, but_newest};
ghost use Rattle.objects.specs.Places.{Place, OneAt, oldest_place, newest_place, oldest_at, newest_at};
ghost use Rattle.objects.specs.Laws.{Promise, Keeps, InOrder, Leaves};
ghost use Rattle.objects.specs.QueueLaw.{queue_law};
ghost use Rattle.objects.specs.StackLaw.{stack_law};

pub trait End: Copy {
    // the kind of an object with this end, which is a word of the memory and so a number
    ghost KIND: { ℕ };

    const KIND: u64;

    // what is answered of the entry at this end, and what stays without it
    ghost first: { First };

    ghost rest: { Rest };

    // where that entry stands among so many
    ghost place: { Place };

    // what holds of every run of an object with this end
    ghost promise: { Promise };

    fn index(count: usize) -> usize
        ensures { result ≡ place count };

    // the entry at that place is the one that is answered, and the others are what stays
    ghost one_at: { OneAt place first rest };

    ghost keeps: { Keeps KIND first rest promise };
}

#[derive(Clone, Copy, Debug)]
pub struct Oldest;

#[derive(Clone, Copy, Debug)]
pub struct Newest;

impl End for Oldest {
    ghost KIND = { 1 };

    const KIND: u64 = 1;

    ghost first = { oldest };

    ghost rest = { but_oldest };

    ghost place = { oldest_place };

    ghost promise = { InOrder };

    ghost one_at = { oldest_at };

    ghost keeps = { queue_law };

    fn index(_count: usize) -> usize {
        0
    }
}

impl End for Newest {
    ghost KIND = { 2 };

    const KIND: u64 = 2;

    ghost first = { newest };

    ghost rest = { but_newest };

    ghost place = { newest_place };

    ghost promise = { Leaves };

    ghost one_at = { newest_at };

    ghost keeps = { stack_law };

    fn index(count: usize) -> usize {
        count.saturating_sub(1)
    }
}
