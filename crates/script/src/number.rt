// A word of a script as a number below 2^64.
ghost use Rattle.std.specs.Prelude.{◌≡◌, [], ◌∷◌};
ghost use Rattle.script.specs.Numbers.{digit_of, number_from, number_of};

fn digit(byte: u8) -> Option<u64>
    ensures { result ≡ digit_of byte }
{
    char::from(byte).to_digit(10).map(u64::from)
}

// The number with one digit more.
fn with_digit(value: u64, byte: u8) -> Option<u64>
    ensures { result ≡ number_from value (byte ∷ []) }
{
    value.checked_mul(10)?.checked_add(digit(byte)?)
}

// The number that `start` and then the digits of `rest` write.
fn continued(start: u64, rest: &[u8]) -> Option<u64>
    ensures { result ≡ number_from start rest.now }
{
    rest.iter()
        .try_fold(start, |value, b| with_digit(value, *b))
}

// Digits only, no zero before another digit, below 2^64.
pub(crate) fn read_number(word: &[u8]) -> Option<u64>
    ensures { result ≡ number_of word.now }
{
    match word {
        [] => None,
        [b'0', _, ..] => None,
        [first, rest @ ..] => continued(digit(*first)?, rest),
    }
}
