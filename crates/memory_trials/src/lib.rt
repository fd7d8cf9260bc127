// Tests of the memory modules, apart from their crate so that its check stays short.
#![tactic(auto)]

#[cfg(test)]
mod tests;
