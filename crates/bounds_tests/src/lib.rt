//! Tests of bounds against leagues whose least tours are known.
#![tactic(auto)]

#[cfg(test)]
mod tests;
