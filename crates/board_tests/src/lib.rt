//! Tests of the fixture board, of one thread's and of the shared one, by their public calls alone.
#![tactic(auto)]

#[cfg(test)]
mod tests;
