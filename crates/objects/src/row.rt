// At most 32 words in the order in which they came, the oldest first.
mod ops;

ghost use Rattle.std.specs.Prelude.{◌≡◌, ◌≤◌, length};

// An array with a count, and no Vec: an object is copied, there is no heap, and a vector of fixed room, as that of `arrayvec`,
// is not Copy. It has no Model as its entries, since a copy needs the words past the count, which they do not give back; and
// no `==`, which would compare those words too.
#[derive(Clone, Copy, Debug)]
pub struct Row {
    items: [u64; 32],
    count: usize,
    ghost few: { count ≤ 32 },
    ghost wide: { length items ≡ 32 },
}
