//! The planner's state machine: which commands a state accepts, and the state that each command leads to. It
//! knows nothing of bytes, devices or text.
//!
//! `check` returns whether a state accepts a command. A `Planner` holds a state and executes commands in place;
//! `recover` uses it for sessions, `plan_solve` for solving without a store. `apply` returns the new state and
//! keeps the old one; only tests use it. The types of commands, states and refusals are in `command_types`.
//!
//! Requests are added (`Add`, `Add1`), withdrawn (`Withdraw`) and planned (`Build`, `Search`, `Anneal`,
//! `Reduce`). `Adopt` replaces the plan by one from elsewhere. `Pin` and `Unpin` choose which stops must stay
//! at the start of a vehicle's route. Every command except `Search`, `Anneal`, `Reduce` and `Checkpoint` resets
//! the working plan to the incumbent.
//!
//! A command first builds the changed parts beside the state (`Change`), so running out of memory changes
//! nothing. The planner then swaps them in and returns the old parts, with which a failed commit can be rolled
//! back. After a command that makes steps, the planner keeps the search state with its tables, so that the next
//! steps continue it, until another command changes the job.
//!
//! Source: this project's own.
//!
//! Modules, in reading order:
//! - `acceptance`: `check`
//! - `changes`: the change that a command makes, swapped in and back
//! - `effects`: `apply`, and the dispatch of each command to its module
//! - `planners`: `Planner`
//! - `load`, `add`, `withdraw`, `pin`: requests and pins
//! - `plan_check`, `adopt`: a plan from elsewhere
//! - `marks`: finds the unplanned requests
//! - `insertion`, `build`, `step`, `reduce`: `Build` and `Deviation`, `Search` and `Anneal`, `Reduce`
//! - `laws`: the properties that every sequence of commands preserves
//!
//! Proved: an accepted command makes exactly the state that `specs/Effects.antt` defines, a refused one changes
//! nothing and gets the first refusal that applies, or the answer is `OutOfMemory`. In the state after any
//! accepted commands, both plans pass the auditor with the pins, and each pin alone is a feasible route. The
//! plan never costs more than at any moment since the last change of requests or pins. Splitting a search or an
//! annealing run into several commands changes nothing. No stop number is assigned twice before the next
//! `Load`.
#![tactic(auto)]

mod acceptance;
mod add;
mod adopt;
mod build;
mod changes;
mod effects;
mod insertion;
mod laws;
mod load;
mod marks;
mod pin;
mod plan_check;
mod planners;
mod reduce;
mod step;
mod withdraw;

pub use acceptance::check;
pub use changes::{Change, JobChange};
pub use command_types::{
    Command, Job, MAX_ANNEAL_STEPS, MAX_REDUCE_STEPS, MAX_SEARCH_STEPS, MAX_STEPS, Refusal, Spot,
    State, is_coordinate, is_demand, is_spot,
};
pub use effects::apply;
pub use laws::{
    accepted_commands_fit_records, annealings_add_up, assigned_numbers_are_new,
    commands_keep_invariants, costs_never_rise, plans_never_cost_more, searches_add_up,
};
pub use marks::unplanned_names;
pub use planners::Planner;
