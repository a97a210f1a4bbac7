//! The tests of schedules, of moves and of what schedules cost: those of `fixtures`, `moves`, `tours` and `robinx`.
//! Each is proved over the contracts of these crates alone.
#![tactic(auto)]

#[cfg(test)]
mod tests;
