//! The subcommands `audit`, `audits` and `explain`: what they read and print, and with which status they end.
//! This crate needs neither the search nor the store, so the program `auditor` builds without them.
//!
//! Entry functions: `audit_args`, called by `auditor`, executes a command line that requests an audit.
//! `audit_in_format` and `audit_text` audit two texts in memory. `planner_cli` calls the functions of the single
//! subcommands, and uses the types that read and make files.
//!
//! Source: this project's own; status 64 is `EX_USAGE` of BSD's `sysexits.h`.
//!
//! Each subcommand is one function that is generic over the output streams and the reader of files
//! (`audit_files`, `audit_list`, `explain_files`). Both files are read completely before either is parsed. A
//! list is read line by line, and each line is answered before the next one is read.
//!
//! Modules, in reading order:
//! - `status`: the exit statuses
//! - `answer`: the lines that answer an audit
//! - `audit`, `example`: the audit of an instance and a solution in memory, and of the built-in ones
//! - `partial`: plans that leave requests out, for subcommands that show a plan
//! - `messages`, `usage`: the lines for files that can't be read or made, and for help and usage errors
//! - `file_record`, `files`: the record of the files that were read or made, and what reads and makes them
//! - `ignored_lines`: notes on ignored lines of a solution and an instance
//! - `columns`, `bad_lines`: columns separated by tabs, and the reason why a line of a list is bad
//! - `best_known`, `gaps`: best-known costs, and how a plan's cost compares with one
//! - `audit_pair`, `compare`, `audits`: the subcommands `audit` and `audits`, also with a best-known cost
//! - `explain`: the subcommand `explain`
//! - `program`: `audit_args`
//!
//! Proved for `audit_in_format`, `audit_text` and `audit_routes_text`: if a text has a fault, the answer is that
//! of the first one. Otherwise it is that of the verdict on the problem and the solution that the texts spell.
//! The status is 0 exactly if the solution is sound, serves every request, uses no more vehicles than there are,
//! and prints its true distance (`SaysSound`). For `audit_routes_text`, the distance is not checked
//! (`SaysRoutesSound`).
//!
//! Proved for `audit_args`, if no argument except `-` begins with a hyphen (`EndsWith`): which files are read,
//! in which order, and the status; and what is printed, unless the output fails. No contract covers what the
//! system's files contain: `HostFiles` and `HostNewFiles` record each file with the result of reading or writing
//! it.
#![tactic(auto)]

mod answer;
mod audit;
mod audit_pair;
mod audits;
mod bad_lines;
mod best_known;
mod columns;
mod compare;
mod example;
mod explain;
mod file_record;
mod files;
mod gaps;
mod ignored_lines;
mod messages;
mod partial;
mod program;
pub mod status;
mod usage;

pub use answer::{AuditAnswer, AuditLine, planned_line};
pub use audit::{Examination, answer_of, audit_in_format, audit_routes_text, audit_text, examine};
pub use audit_pair::{audit_files, read_both};
pub use audits::{audit_list, pair_of, print_bad_line, worse_status};
pub use best_known::BestKnown;
pub use example::audit_example;
pub use explain::{Explanation, explain_files, print_explanation, print_explanation_result};
pub use files::{HostFiles, HostNewFiles, ReadFiles, WriteFiles};
pub use ignored_lines::print_ignored_limit;
pub use instance_read::read_instance;
pub use messages::{
    print_audit, print_out_of_memory, print_read_failure, print_write_failure, status_of,
    write_line,
};
pub use partial::{PartialPlan, PlanExamination, examine_plan, partial_answer};
pub use program::audit_args;
pub use usage::{command_args, print_usage};
