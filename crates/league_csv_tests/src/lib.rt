//! Tests of tables of distances: the leagues that they give, and their faults.
#![tactic(auto)]

#[cfg(test)]
mod tests;
