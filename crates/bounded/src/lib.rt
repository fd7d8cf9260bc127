// A list of at most as many entries as the memory that its caller lends.
#![tactic(auto)]

ghost use Rattle.std.specs.Prelude.{◌≤◌, length};

mod ops;
#[cfg(test)]
mod tests;
mod text;

// A buffer with a length beside it, since the project has no heap: the caller lends the memory, of any size. A vector
// with fixed room, as the crate arrayvec has, would fix the room in the type.
// It has no Model, since its caller would then not learn what the memory holds when the list is let go.
#[derive(Drop)]
pub struct Bounded<'a, T> {
    items: &'a mut [T],
    len: usize,
    ghost within: { len ≤ length items.now },
}

// The answer where the memory has no room for what is to be added.
#[derive(Clone, Copy, Debug, PartialEq, Eq)]
pub struct Full;
