// What can be asked of a bounded list, and how it grows.
ghost use Rattle.std.specs.Prelude.{◌≡◌, ◌≤◌, [], ◌∷◌, length, nat_lt};
ghost use Rattle.bounded.specs.Entries.{entries, room};
ghost use Rattle.bounded.specs.Lent.{held, empty_over, added, answered};

use super::{Bounded, Full};

impl<'a, T> Bounded<'a, T> {
    // No entries yet.
    pub fn new(items: &'a mut [T]) -> Bounded<'a, T>
        ensures { held result ≡ empty_over items.old items.entry.ghost_name }
    {
        Bounded { items, len: 0 }
    }

    // The entries, the oldest first.
    pub fn as_slice(&self) -> &[T]
        ensures value { result.now ≡ entries self.now }
        ensures fits { length result.now ≤ room self.now }
    {
        &self.items[0..self.len]
    }

    pub fn len(&self) -> usize
        ensures { result ≡ length (entries self.now) }
    {
        self.as_slice().len()
    }

    // Whether one entry more has room.
    pub fn has_room(&self) -> bool
        ensures { result ≡ nat_lt (length (entries self.now)) (room self.now) }
    {
        self.len < self.items.len()
    }
}

impl<T: Copy> Bounded<'_, T> {
    // One entry more, where the memory has room for it. `self.extend(&[x])` was tried, and its proof did not
    // close: an array of one `T` asks of the caller that a `T` has fewer than 2^63 bytes.
    pub fn push(&mut self, x: T) -> Result<(), Full>
        ensures reply { result ≡ answered (held self.old) (x ∷ []) }
        ensures after { held self.new ≡ added (held self.old) (x ∷ []) }
    {
        if self.len >= self.items.len() {
            return Err(Full);
        }
        self.items[self.len] = x;
        self.len += 1;
        Ok(())
    }

    // All of `more` at the end, where the memory has room for it.
    pub fn extend(&mut self, more: &[T]) -> Result<(), Full>
        ensures reply { result ≡ answered (held self.old) more.now }
        ensures after { held self.new ≡ added (held self.old) more.now }
    {
        if more.len() > self.items.len() - self.len {
            return Err(Full);
        }
        let end = self.len + more.len();
        self.items[self.len..end].copy_from_slice(more);
        self.len = end;
        Ok(())
    }
}
