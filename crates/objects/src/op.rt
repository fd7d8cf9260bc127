// The operations that an object knows, and the numbers that name them.
ghost use Rattle.objects.specs.Ops.{Names};

use crate::answer::Denied;

#[derive(Clone, Copy, Debug, PartialEq, Eq)]
pub enum Op {
    Put = 1,
    Take = 2,
    Look = 3,
}

impl TryFrom<u64> for Op {
    type Error = Denied;

    ghost try_from_gives = { Names };

    fn try_from(number: u64) -> Result<Op, Denied> {
        match number {
            1 => Ok(Op::Put),
            2 => Ok(Op::Take),
            3 => Ok(Op::Look),
            _ => Err(Denied::Unknown),
        }
    }
}
