//! Annealing, the second search: its steps remove strings of neighbouring stops from routes and insert their
//! requests again.
//!
//! `anneal_step` and `anneal_steps` have the form and the requirements of `search_step` and `search_steps`
//! (`seeded_search`). `continue_annealing` continues a search state, for the command `Anneal` (`command_core`).
//! `attempt_steps` makes the steps of an attempt to serve every request, for `fleet_reduction`.
//!
//! Source: Christiaens and Vanden Berghe, Slack Induction by String Removals (2020), in whole numbers; Dueck
//! and Scheuer, Threshold Accepting (1990).
//!
//! The words of a step draw a stop, and cut a string of neighbouring stops around it out of each of the nearest
//! routes. All movable requests with a stop in a string are removed at once. Then all unplanned requests are
//! inserted one by one, each at its best place, in the order of one of sixteen keys.
//!
//! If the candidate costs at most a threshold more than the working plan (`is_near`), it becomes the working
//! plan, so annealing climbs step by step. If it then costs no more than the incumbent, it becomes the
//! incumbent, too. A fifth to three fifths of the candidates turn out to be too expensive while requests are
//! still being inserted, and are dropped then (`place_all_if_near`). In an attempt, candidates are compared in
//! another way, by the requests that they leave out (`attempt_steps`).
//!
//! The sixteen nearest stops of a stop, which a search state of many steps keeps, lead to the nearest routes.
//! If they are too few, or are not kept, a step scans the stops of the routes instead.
//!
//! Modules, in reading order:
//! - `draws`: what a word draws, and the rest of the word
//! - `sorting`: the place of an item in a list sorted by insertion
//! - `routes`: the routes nearest to a stop, by the stops of all routes
//! - `nearest_stops`: the nearest stops of a stop
//! - `routes_by_nearest_stops`: the routes nearest to a stop, by its nearest stops
//! - `strings`: the strings, and the requests with a stop in them
//! - `missing_names`: the requests that are unplanned after the requests of the strings are removed
//! - `orders`: the order in which requests are inserted
//! - `candidates`: the candidate of a step
//! - `search`: the plans that a candidate replaces; one step, and many steps
//! - `absences`: how often each request was left out
//! - `attempts`: an attempt to serve every request, which compares plans by these counts
//! - `laws`: what nearest stops, strings and orders mean, and what steps preserve
//!
//! Proved: `anneal_step`, `anneal_steps`, `continue_annealing` and `attempt_steps` return exactly the plans of
//! the definitions in `specs/Annealing.antt` and `specs/AttemptState.antt`, or `OutOfMemory`. Plans that pass lead to
//! plans that pass, the incumbent never becomes more expensive, and splitting many annealing steps changes
//! nothing. The laws say what the definitions mean: nearest stops are nearest, strings lie around them and are
//! no longer than allowed, and orders are sorted permutations.
#![tactic(auto)]

mod absences;
mod attempts;
mod candidates;
mod draws;
mod laws;
mod missing_names;
mod nearest_stops;
mod orders;
mod routes;
mod routes_by_nearest_stops;
mod search;
mod sorting;
mod strings;

pub use attempts::{Reduction, attempt_steps};
pub use draws::{DrawnItem, draw};
pub use laws::{
    anneal_steps_add_up, anneal_steps_keep_passing, annealing_never_costs_more,
    attempts_keep_passing, nearest_stop_is_closest, orders_are_ascending, routes_are_ascending,
    strings_lie_around,
};
pub use orders::ordered;
pub use search::{anneal_step, anneal_steps, continue_annealing};
pub use sorting::first_place;
