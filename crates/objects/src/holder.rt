// Queue and stack from one text: a row of words as an object, where the end says which entry is taken out.
ghost use Rattle.objects.specs.Rows.{row_model};
ghost use Rattle.objects.specs.Held.{held};
ghost use Rattle.objects.specs.Pictures.{reads-back, only_pictures, pictured-long};

use crate::answer::Answer;
use crate::ends::{End, Newest, Oldest};
use crate::object::Object;
use crate::op::Op;
use crate::row::Row;
use std::marker::PhantomData;

// No `==`, since a row has none.
#[derive(Clone, Copy, Debug)]
pub struct Holder<E: End> {
    row: Row,
    end: PhantomData<E>,
}

pub type Queue = Holder<Oldest>;

pub type Stack = Holder<Newest>;

impl<E: End> Object for Holder<E> {
    ghost model = { row_model E.End.KIND E.End.first E.End.rest };

    ghost state = { λ h. held h.row };

    ghost back = { reads-back };

    ghost only = { only_pictures };

    ghost long = { pictured-long };

    fn kind() -> u64 {
        E::KIND
    }

    fn fresh() -> Holder<E> {
        Holder {
            row: Row::new(),
            end: PhantomData,
        }
    }

    fn apply(&mut self, op: u64, arg: u64) -> Answer {
        match Op::try_from(op)? {
            Op::Put => self.row.put(arg),
            Op::Take => self.row.take::<E>(),
            Op::Look => self.row.look::<E>(),
        }
    }

    fn picture(&self) -> [u64; 40] {
        <[u64; 40]>::from(&self.row)
    }

    fn from_picture(words: &[u64; 40]) -> Option<Holder<E>> {
        Some(Holder {
            row: Row::try_from(words).ok()?,
            end: PhantomData,
        })
    }
}
