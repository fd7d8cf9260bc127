// What queue and stack promise of every run; each contract here is a theorem about the definitions that the code is proved to follow.
ghost use Rattle.objects.specs.Laws.{Keeps, QueueLaw, StackLaw};
ghost use Rattle.objects.specs.Worked.{FullAndEmpty, Ends, Pictures};

use crate::ends::{End, Newest, Oldest};

fn promise_of<E: End>()
    ensures { Keeps E.End.KIND E.End.first E.End.rest E.End.promise }
{}

// A queue gives out what was put in, in that order.
pub fn queue_gives_in_order()
    ensures { QueueLaw }
{
    promise_of::<Oldest>()
}

// A stack gives out the latest word that is still in.
pub fn stack_gives_latest()
    ensures { StackLaw }
{
    promise_of::<Newest>()
}

// The worked cases come out as they are written down.
pub fn examples_hold()
    ensures { FullAndEmpty × Ends × Pictures }
{}
