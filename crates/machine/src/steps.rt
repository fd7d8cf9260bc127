// What a step did, with its number.
ghost use Rattle.std.specs.Prelude.{◌≡◌};
ghost use Rattle.machine.specs.Numbers.{step_number};

#[derive(Clone, Copy, Debug, PartialEq, Eq)]
pub enum StepAnswer {
    TookLock = 1,
    Watches = 2,
    LineLoaded = 3,
    Served = 4,
    LineKept = 5,
    LineStored = 6,
    LineAsked = 7,
    RecordFenced = 8,
    IndexFlipped = 9,
    IndexAsked = 10,
    IndexSynced = 11,
    LockLeft = 12,
    AnswerFound = 13,
    GoesAgain = 14,
}

impl StepAnswer {
    pub fn number(self) -> u64
        ensures { result ≡ step_number self }
    {
        self as u64
    }
}
