//! The tests by subject, and what they share.

mod answers;
mod boards;
mod callers;
mod changes;
mod checks;
mod drawn_asks;
mod drawn_leagues;
mod drawn_numbers;
mod drawn_seats;
mod free_repeats;
mod given_start;
mod phased;
mod pins;
mod questions;
mod rewinding;
mod room;
mod rule_costs;
mod seat_checks;
mod seat_steps;
mod seats;
mod starts_apart;
mod steps;
mod threads;
mod trials;
