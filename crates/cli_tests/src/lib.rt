//! Tests of the program by public calls: the texts that it reads and writes, its command line, and its commands.
#![tactic(auto)]

#[cfg(test)]
mod tests;
