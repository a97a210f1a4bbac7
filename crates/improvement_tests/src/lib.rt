//! Tests of improvements by their public call.
#![tactic(auto)]

#[cfg(test)]
mod tests;
