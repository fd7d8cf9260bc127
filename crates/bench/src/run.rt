// The calls of a script on a store, one after another.
ghost use Rattle.std.specs.Prelude.{◌≡◌, ◌+◌, ◌≤◌, length};
ghost use Rattle.bounded.specs.Entries.{entries, room};
ghost use Rattle.bounded.specs.Lent.{held, extended};
ghost use Rattle.store.specs.Shown.{shown};
ghost use Rattle.bench.specs.Runs.{told, ran, outcomes};

use bounded::Bounded;
use listing::Outcome;
use memory::Memory;
use objects::Object;
use script::{Call, Verb};
use store::{Refusal, Store};

// How the listing shows a reply.
fn tell(verb: Verb, reply: Result<(), Refusal>) -> Outcome
    ensures { result ≡ told verb reply }
{
    match reply {
        Ok(()) => Outcome::Done(verb),
        Err(refusal) => Outcome::Refused(refusal.into()),
    }
}

// A match, and no closures: the calls are an enum's cases, and each has its own contract.
fn run_call<O: Object, M: Memory>(store: &mut Store<O, M>, call: Call) -> Outcome
    ensures outcome { result ≡ (ran O.model M.conduct call (shown O.model M.conduct O.state M.meaning store.old)).outcome }
    ensures after { shown O.model M.conduct O.state M.meaning store.new ≡ (ran O.model M.conduct call (shown O.model M.conduct O.state M.meaning store.old)).after }
{
    match call {
        Call::Format(workers) => tell(Verb::Format, store.format(workers)),
        Call::Start => tell(Verb::Start, store.start()),
        Call::Arrive(line) => tell(Verb::Arrive, store.arrive(line)),
        Call::Cut => {
            store.cut();
            Outcome::Done(Verb::Cut)
        }
    }
}

pub(crate) fn run_calls<O: Object, M: Memory>(
    store: &mut Store<O, M>,
    calls: &[Call],
    list: &mut Bounded<Outcome>,
)
    requires { length (entries list.old) + length calls.now ≤ room list.old }
    ensures { held list.new ≡ extended (held list.old) (outcomes O.model M.conduct calls.now (shown O.model M.conduct O.state M.meaning store.old)) }
{
    for call in calls {
        let outcome = run_call(store, *call);
        list.push(outcome).unwrap();
    }
}
