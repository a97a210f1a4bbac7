//! Tests of the policy by its public calls: whole runs of it, beside its twin in Python.
#![tactic(auto)]

#[cfg(test)]
mod runs;
#[cfg(test)]
mod walks;
