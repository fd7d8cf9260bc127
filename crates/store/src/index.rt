// Which of the two records is settled.
use machine::Refusal;

#[derive(Clone, Copy, Debug, PartialEq, Eq)]
pub(crate) enum Index {
    Zero = 0,
    One = 1,
}

impl TryFrom<u64> for Index {
    type Error = Refusal;

    ghost use Rattle.store.specs.Indices.{IndexOf};

    ghost try_from_gives = { IndexOf };

    fn try_from(word: u64) -> Result<Index, Refusal> {
        match word {
            0 => Ok(Index::Zero),
            1 => Ok(Index::One),
            _ => Err(Refusal::WrongIndex),
        }
    }
}
