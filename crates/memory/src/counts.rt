// How many lines of a memory module are asked, due and late.
#[derive(Clone, Copy, Debug, PartialEq, Eq)]
pub struct Counts {
    pub asked: u32,
    pub due: u32,
    pub late: u32,
}
