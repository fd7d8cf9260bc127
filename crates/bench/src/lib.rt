// The bench: runs a script on a store, and writes the listing.
#![tactic(auto)]

mod depot;
mod run;

pub use depot::depot_run;
