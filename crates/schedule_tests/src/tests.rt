//! The tests by subject, and what they share.

mod applying;
mod checking;
mod checks;
mod costs;
mod deviations;
mod drafts;
mod ejection_chains;
mod exchanges;
mod fault_texts;
mod halves;
mod home_games;
mod moved_games;
mod number_sets;
mod parts;
mod rule_leagues;
mod rule_parts;
mod rules_reached;
mod sheets;
mod small_leagues;
mod starts;
