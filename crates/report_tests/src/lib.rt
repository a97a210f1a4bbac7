//! Tests of the breaches of rules: their lines, and the games that they name.
#![tactic(auto)]

#[cfg(test)]
mod tests;
