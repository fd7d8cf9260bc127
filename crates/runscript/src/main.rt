// Runs the script on standard input, and prints the listing or the fault.
#![tactic(auto)]

ghost use Rattle.std.specs.Prelude.{◌≡◌, [], length, nat_le, if◌then◌else◌};
ghost use Rattle.bench.specs.Scripts.{script_text};

use std::io;
use std::io::{Read, Write};

// One byte more than a script may have, so that a longer one is seen.
const MOST_INPUT: u64 = 32_769;

// 512 lines of at most 64 bytes.
const MOST_OUTPUT: usize = 32_768;

// Leaves the listing or the fault in `out`, and nothing where `out` is too short for it.
fn run_into(script: &[u8], out: &mut Vec<u8>)
    ensures { out.new.items ≡ (if nat_le (length (script_text script.now)) (length out.old.items) then script_text script.now else []) }
{
    match bench::depot_run(script, out) {
        Ok(len) => out.truncate(len),
        Err(_) => out.clear(),
    }
}

fn main(rt: HostRuntime) -> io::Result<()> {
    let mut script = Vec::new(rt.alloc());
    rt.stdin().take(MOST_INPUT).read_to_end(&mut script)?;
    let mut out = vec![in rt.alloc(); 0u8; MOST_OUTPUT]?;
    run_into(&script, &mut out);
    rt.stdout().write_all(&out)?;
    Ok(())
}
