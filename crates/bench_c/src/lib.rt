// The one function for programs in C: an export of the bench's.
#![tactic(auto)]

ghost use Rattle.std.specs.Prelude.{◌≡◌};
ghost use Rattle.listing.specs.Buffers.{written, filled};
ghost use Rattle.bench.specs.Scripts.{script_text};

// The answer in C where the text does not fit: a C function has one number to give.
const NO_ROOM: usize = 1_000_036;

// The listing or the fault at the start of `out`; or 1,000,036 with `out` untouched where it does not fit.
#[unsafe(no_mangle)]
pub extern "C" fn depot_run(script: &[u8], out: &mut [u8]) -> usize
    ensures value { result ≡ written (script_text script.now) out.old }
    ensures out { out.new ≡ filled (script_text script.now) out.old }
{
    bench::depot_run(script, out).unwrap_or(NO_ROOM)
}
