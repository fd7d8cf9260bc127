// The two words that answer a request. Numbers, and no Result: a worker line of the memory holds them as words.
#[derive(Clone, Copy, Debug, PartialEq, Eq)]
pub struct Answer {
    pub code: u64,
    pub value: u64,
}
