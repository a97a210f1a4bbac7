//! Tests of `league` by its public calls alone. They are proved over its statements.
#![tactic(auto)]

#[cfg(test)]
mod tests;
