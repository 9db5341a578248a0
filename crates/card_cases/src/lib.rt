// The cards seen from outside: what their lenders can tell of the lent bytes, and each make at its edges.
#![tactic(auto)]

pub mod durable;
#[cfg(test)]
mod edges;
pub mod lending;
mod save;
