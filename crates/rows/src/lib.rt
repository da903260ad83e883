// Work on rows of annotations: place by place, as a whole, and under a map.
#![tactic(auto)]

pub mod coarsening;
pub mod places;
pub mod totals;
