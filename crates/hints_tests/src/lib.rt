//! Tests of the advice on a league's text, by itself and in a report.
#![tactic(auto)]

#[cfg(test)]
mod tests;
