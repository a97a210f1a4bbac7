//! Tests of the annealing by its public calls: what no contract says.
#![tactic(auto)]

#[cfg(test)]
mod tests;
