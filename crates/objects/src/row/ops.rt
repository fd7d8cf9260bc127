// What can be done with a row: begin empty, put in, look, take out, and turn into a picture and back.
ghost use Rattle.std.specs.Prelude.{◌≡◌, ◌<◌, [], IfOk};
ghost use Rattle.std.specs.Result.{result_ok};
ghost use Rattle.std.specs.Option.{option_map};
ghost use Rattle.objects.specs.Rows.{clip, answer_to_put, with_put, pictured, read, zeros};
ghost use Rattle.objects.specs.Held.{held};

use crate::answer::{Answer, Denied};
use crate::ends::End;
use crate::row::Row;

impl Row {
    pub(crate) fn new() -> Row
        ensures { held result ≡ clip [] }
    {
        Row {
            items: [0; 32],
            count: 0,
        }
    }

    pub(crate) fn put(&mut self, arg: u64) -> Answer
        ensures answer { result ≡ answer_to_put (held self.old) }
        ensures after { held self.new ≡ with_put (held self.old) arg }
    {
        if self.count >= 32 {
            return Err(Denied::Full);
        }
        self.items[self.count] = arg;
        self.count += 1;
        Ok(self.count as u64)
    }

    pub(crate) fn look<E: End>(&self) -> Answer
        ensures answer { result ≡ E.first (held self.now).items }
        ensures within { IfOk result (λ _. E.place self.now.count < self.now.count) }
    {
        let entries = &self.items[..self.count];
        entries
            .get(E::index(self.count))
            .copied()
            .ok_or(Denied::Empty)
    }

    pub(crate) fn take<E: End>(&mut self) -> Answer
        ensures answer { result ≡ E.first (held self.old).items }
        ensures after { held self.new ≡ clip (E.rest (held self.old).items) }
    {
        let entry = self.look::<E>()?;
        self.items[E::index(self.count)..self.count].rotate_left(1);
        self.count -= 1;
        Ok(entry)
    }
}

impl From<&Row> for [u64; 40] {
    ghost from_gives = { λ row words. words ≡ pictured (held row.now).items };

    fn from(row: &Row) -> [u64; 40] {
        let mut words = [0; 40];
        words[0] = row.count as u64;
        words[1..=row.count].copy_from_slice(&row.items[..row.count]);
        words
    }
}

// Words that are no picture.
#[derive(Clone, Copy, Debug, PartialEq, Eq)]
pub struct NoPicture;

impl TryFrom<&[u64; 40]> for Row {
    type Error = NoPicture;

    ghost try_from_gives = { λ words row. option_map held (result_ok row) ≡ read words.now };

    fn try_from(words: &[u64; 40]) -> Result<Row, NoPicture> {
        let count = words[0];
        if count > 32 {
            return Err(NoPicture);
        }
        let count = count as usize;
        if !all_zero(&words[count + 1..]) {
            return Err(NoPicture);
        }
        let mut items = [0; 32];
        items.copy_from_slice(&words[1..33]);
        Ok(Row { items, count })
    }
}

fn all_zero(words: &[u64]) -> bool
    ensures { result ≡ zeros words.now }
{
    words.iter().all(|&word| word == 0)
}
