// The tables at their edges, as tests.
#![tactic(auto)]

#[cfg(test)]
mod edges;
