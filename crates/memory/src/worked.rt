// Worked examples of the rules, proved by computation.
ghost use Rattle.memory.specs.Worked.{LostAndKept, Late};

#[tactic(auto, unfolding(crate::specs::Sets::mem, crate::specs::Sets::with_line, crate::specs::Sets::minus, crate::specs::Model::copied))]
pub fn examples_hold()
    ensures cut { LostAndKept }
    ensures late { Late }
{}
