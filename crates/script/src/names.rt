// Words that name the values of a kind.
ghost use Rattle.std.specs.Prelude.{◌≡◌, ℕ, List};
ghost use Rattle.script.specs.Names.{named};

// A kind whose values have names.
pub trait Named: Copy {
    ghost name_of: { Self → List ℕ };

    fn name(self) -> &'static str
        ensures { result.now ≡ name_of self };
}

// The first of some values of a kind that `word` names.
pub(crate) fn find_named<T: Named>(values: &[T], word: &[u8]) -> Option<T>
    ensures { result ≡ named T.name_of values.now word.now }
{
    values.iter().copied().find(|v| word == v.name().as_bytes())
}
