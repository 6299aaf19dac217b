//! A hybrid genetic search for capacitated vehicle routing with at most 300 customers.
//!
//! The search is certified, not defined: no definition says which plans it visits. The plan that it finds is
//! audited and priced, and returned only if it passes and costs less than the built plan.
//!
//! An iteration makes one individual: at random at first, later by crossover. It is educated, added to the
//! population, and perhaps repaired. Its random numbers depend only on the seed and on the number of the
//! iteration. Prices are 1,024ths of the unit of distance, so that the penalty for a unit of overload can be a
//! fraction of that unit.
//!
//! Source: hybrid genetic search with SWAP* (Vidal 2022), in whole numbers.
//!
//! Modules, in reading order:
//! - `search`: the search, iteration by iteration, and its plan
//! - `problems`: which problems it is for, their networks, and plans from individuals
//! - `certificate`: the choice between the plan that was found and the built one
//! - `network`: the customers, the legs between them and their neighbours, with `units` and `sectors`
//! - `individual`, `population`, `subpopulation`: plans, and those from which parents are selected
//! - `crossover`, `split`, `penalties`: a child's tour, its routes, and the penalty for overload
//! - `local_search`: education, with `trips` (the routes), `pairs` (what the moves read) and `moves`
//! - `chance`: random draws
//! - `cells`: reads and writes of lists and tables
//!
//! `cells` checks each index, so the proofs of safety need not know what the lists hold. That costs a comparison
//! for each read.
//!
//! Proved: `HybridSearch::plan` returns the built plan, or a plan that passes the auditor and costs at most as
//! much. All functions return, for every problem, seed and number of iterations.
#![tactic(auto)]

mod cells;
mod certificate;
mod chance;
mod crossover;
mod individual;
mod local_search;
mod moves;
mod network;
mod pairs;
mod penalties;
mod population;
mod problems;
mod search;
mod sectors;
mod split;
mod subpopulation;
mod trips;
mod units;

pub use problems::{MOST_REQUESTS, is_accepted};
pub use search::HybridSearch;
