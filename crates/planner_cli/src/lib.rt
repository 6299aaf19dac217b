//! The program `planner`: executes its command line, prints the answers and returns the exit status. It
//! combines `command_line` (arguments), `command_server` (the commands of `run`) and `auditor_cli` (the
//! subcommands `audit`, `audits` and `explain`).
//!
//! The entry function is `run_args`, called by the crate `planner`. Its caller passes everything that touches the
//! system: the opener of store files, the reader and the maker of other files, and the streams. Each subcommand
//! is one function that is generic over these. `audit_text`, re-exported from `auditor_cli`, audits two texts in
//! memory.
//!
//! Source: this project's own; status 64 is `EX_USAGE` of BSD's `sysexits.h`.
//!
//! Modules, in reading order:
//! - `store_devices`: the devices over store files, which each subcommand returns
//! - `messages`: the lines for stores that can't be opened or made, and for the answers of commands
//! - `file_hints`: hints on standard error about a file that holds no store
//! - `opening`: opens a store, or returns the reason why that fails
//! - `warned_opening`: opens a store for `run`, after printing an integrity warning
//! - `read_only`: opens a store for reading only
//! - `draw`, `timetable`: the subcommands `draw` and `timetable`
//! - `solve`, `solves`: the subcommands `solve` and `solves`
//! - `progress`: progress of long commands of `run`, on standard error
//! - `stores`: the subcommands `format`, `run` and `upgrade`
//! - `new_file`: opens a store in a file that is made for it
//! - `load`: the subcommand `load`
//! - `adopt`, `instance`, `check`: the subcommands `adopt`, `instance` and `check`
//! - `error_capture`: readers and writers that keep the system's error of a failed call
//! - `program`: `run_args`
//! - `laws`: recovery after a crash of `run`, the end of a strict run, and what is durable after `ok`
//!
//! Proved for `run_args`, if no argument except `-` begins with a hyphen (`EndsWith`, `PrintsUsage`): the files
//! that each subcommand reads, makes and opens, and its status; and what it prints, unless the output fails.
//! Proved in `laws`: after a crash at any moment of `run`, opening the store recovers a prefix of the commands,
//! with every acknowledged one and at most one more. Each `ok` of `format`, `upgrade`, `load` and `adopt` is
//! printed only after what it reports is durable. No clause covers the system's error messages, the hints or
//! the lines of progress.
#![tactic(auto)]

mod adopt;
mod check;
mod draw;
mod error_capture;
mod file_hints;
mod instance;
mod laws;
mod load;
mod messages;
mod new_file;
mod opening;
mod program;
mod progress;
mod read_only;
mod solve;
mod solves;
mod store_devices;
mod stores;
mod timetable;
mod warned_opening;

pub use auditor_cli::{
    AuditAnswer, AuditLine, HostFiles, HostNewFiles, ReadFiles, WriteFiles, audit_text,
    command_args, status,
};
pub use command_line::{Invocation, LoadArgs, Paths, SolveArgs, SolvesArgs, parse_arguments};
pub use command_server::{FailureTracking, IoFault, ServeFault, Sink, Source, serve, serve_source};
pub use error_capture::{ErrorCapture, report_causes};
pub use laws::{
    crashed_runs_are_linked, crashed_runs_recover, printed_ok_is_durable,
    strict_runs_end_at_an_answer,
};
pub use program::{Streams, run_args};
pub use store_devices::StoreDevices;
