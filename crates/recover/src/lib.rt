//! Sessions over a store: commands that are acknowledged once they are durable, and recovery after a crash at
//! any moment.
//!
//! `Session::open` opens the store on a device, `apply` and `run` execute commands, `close` returns the device.
//! `steps_to_replay` returns the number of search steps that opening will replay. `upgrade` copies a store of
//! version 1, which `read_version_1` reads, into a new store.
//!
//! A command is checked and executed in place (`Planner` of `command_core`), and then committed: as one record,
//! or by a snapshot of the new state if the command has no record or the journal already has 256. Only then is
//! it answered. If the commit fails, the previous state is restored. Opening first syncs, since reads may
//! return bytes that are not durable yet. After that it only reads: it loads the snapshot, and replays the
//! commands of the records. So a search is stored as its number of steps and runs again when the store is
//! opened. Annealing is stored as its result and does not run again.
//!
//! Modules, in reading order:
//! - `denials`, `replies`: the answers of a session
//! - `sessions`: a session, and `apply`; `commits`: makes a command durable
//! - `runs`: executes a list of commands
//! - `opening`, `replaying`: recover the state of a device's store, and replay the commands of its records
//! - `upgrading`: reads a store of version 1 with the same code, and creates a new store of its state
//! - `laws`: the main law, `recovery_keeps_every_acknowledged_command` (called the headline), how it composes
//!   over runs and openings, and that closed and new stores open with their states
//! - `rounds`: the headline over any list of crashes and restarts of a device in memory, which is always honest
//! - `restarts`: like `rounds`, but also with kills, and with openings that crash or are refused
//!
//! Source: this project's own.
//!
//! Proved, for devices that answer as the model says: after a crash at any moment, an opening that succeeds
//! returns the state after a prefix of the commands. The prefix has every acknowledged command and at most one
//! more, and the plan of the state passes the auditor. This holds over any number of runs, crashes, kills,
//! crashed openings and restarts (`laws`, `run_rounds`, `run_restarts`). At each moment of an upgrade each
//! image of the old device is one of those at entry. After `Ok` each image of the new device recovers to the
//! state of the old store.
#![tactic(auto)]

mod commits;
mod denials;
mod laws;
mod opening;
mod replaying;
mod replies;
mod restarts;
mod rounds;
mod runs;
mod sessions;
mod upgrading;

pub use denials::Denial;
pub use laws::{
    a_closed_session_reopens_with_its_state, a_new_store_opens_with_its_state,
    crashed_openings_can_be_retried, recovery_keeps_every_acknowledged_command, restarts_compose,
    runs_compose,
};
pub use opening::{Opened, read_state, steps_to_replay};
pub use replies::{Reply, Run};
pub use restarts::{Ending, Restart, Restarts, run_restarts};
pub use rounds::{Halt, Round, Rounds, RoundsFault, run_round, run_rounds};
pub use sessions::Session;
pub use upgrading::{UpgradeFault, read_version_1, upgrade};
