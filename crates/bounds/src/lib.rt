//! Bounds: numbers that no schedule of a league without runs travels less than, and none of its teams.
//!
//! Sets of a team's opponents get prices, and each leg that leads into a set is shorter by its price. The shortest relaxed tour by these
//! legs, and the prices of the sets as often as a tour has to lead into them, are together no more than the team's tour. Any prices give
//! a bound; how near it is depends on how they are found, of which no contract speaks.
#![tactic(auto)]

mod adjusting;
mod discounts;
mod evaluation;
mod families;
mod labels;
mod league_bound;
mod least_tours;
mod limits;
mod priced_legs;
mod prices;
mod tables;
mod team_bound;
mod tour_legs;
mod travellers;
mod trips;
mod walks;

pub use league_bound::LeagueBounds;
