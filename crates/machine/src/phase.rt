// How far a waiting worker has come; the number is the line that is next.
#[derive(Clone, Copy, Debug, PartialEq, Eq)]
pub enum Phase {
    Gate,
    Watch,
    Look,
    Load(usize),
    Serve(usize),
    Store(usize),
    Ask(usize),
    Fence,
    Flip,
    Mark,
    Sync,
    Leave,
}
