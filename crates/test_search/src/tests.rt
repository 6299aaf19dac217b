//! The tests, in reading order: `builders` and `step_ranges` (shared by the examples), `moves`, `search`,
//! `annealing`, `stages`, `fleet_reductions`, `hybrid`, `commands`.

mod annealing;
mod builders;
mod commands;
mod fleet_reductions;
mod hybrid;
mod moves;
mod search;
mod stages;
mod step_ranges;
