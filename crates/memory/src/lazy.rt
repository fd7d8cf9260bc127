// The lazy memory module: no line arrives but as the rules or the caller say.
mod calls;
mod on_the_way;

pub use calls::store_word;
use on_the_way::OnTheWay;

#[derive(Drop)]
pub struct Lazy<'a> {
    kept: &'a mut [u64],
    // room for the most lines, since a module has fixed memory and no heap
    current: [u64; 512],
    on_the_way: OnTheWay,
}
