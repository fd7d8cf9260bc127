// How long a round is, and the worked cases of the rules.
ghost use Rattle.std.specs.Prelude.{◌≡◌, ◌&&◌, if◌then◌else◌, Some, None, nat_le};
ghost use Rattle.machine.specs.Worked.{WorkedCases, round_length};

fn compute_cases()
    ensures { WorkedCases }
{}

// The steps from taking the lock to leaving it, where a store can have so many workers. The worked cases of the rules
// come out as they are written down.
pub fn round_steps(workers: u64) -> Option<u64>
    ensures value { result ≡ (if nat_le 1 workers && nat_le workers 8 then Some (round_length workers) else None) }
    ensures cases { WorkedCases }
{
    compute_cases();
    match workers {
        1..=8 => Some(2 * workers + 21),
        _ => None,
    }
}
