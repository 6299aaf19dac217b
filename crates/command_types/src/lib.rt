//! The types of the commands: `Command`, the `State` that commands change, the `Job` that a loaded state holds,
//! and the reasons why a command is refused.
//!
//! They have a crate of their own, so that the crates that encode them (`state_codec`, `checkpoint`) do not
//! depend on the search, which only `command_core` runs.
//!
//! Modules, in reading order:
//! - `limits`: the limits of commands and states
//! - `commands`: `Command`, and the properties of a command that depend on no state
//! - `states`: `State` and `Job`
//! - `refusals`: why a command is refused
//! - `lists`: the lists of a job, one for each vehicle
//!
//! Proved: every `Job` keeps the invariants of its type. The plan and the working plan pass the auditor with
//! the pins, and each pin is a feasible route by itself. The methods of `Command` and the tests of limits
//! return what the definitions with the same names in `specs` say.
#![tactic(auto)]

mod commands;
mod limits;
mod lists;
mod refusals;
mod states;

pub use commands::{Command, Spot};
pub use limits::{
    MAX_ANNEAL_STEPS, MAX_REDUCE_STEPS, MAX_SEARCH_STEPS, is_coordinate, is_demand, is_spot,
};
pub use lists::{JobLists, copies, empty_lists};
pub use plan_types::limits::MAX_STEPS;
pub use refusals::Refusal;
pub use states::{Job, State};
