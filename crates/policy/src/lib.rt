//! Which chains of schedules an annealing search makes, in which legs, and which of them go on. It is a function of the
//! number of teams, the effort and what the legs came to. No board, no thread and no memory is known here.
//!
//! Bouts are numbered from 0. Temperatures are thousandths of the unit, weights are millionths of it.
#![tactic(auto)]

mod bouts;
mod first_half;
mod legs;
mod numbers;
mod plan;
mod waves;

pub use legs::{Course, Leg, LegEnd, MoveSet, WeightCourse};
pub use waves::{Aim, Facts, LegSource, MAX_EFFORT, Policy, Wave};
