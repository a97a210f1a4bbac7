//! Tests of byte streams by public calls.
#![tactic(auto)]

#[cfg(test)]
mod tests;
