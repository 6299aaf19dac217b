//! The program's command line: its arguments, their meaning, and the help texts.
//!
//! The entry point is `parse_arguments`; `planner_cli` and `auditor_cli` call it. The crate is below all crates
//! that search or store, so building it waits for none of them.
//!
//! `clap` splits the arguments and prints help and usage errors. This crate defines the commands for `clap`,
//! and reads the kinds of instance and the numbers in the arguments that `clap` accepts.
//!
//! Source: this project's own; the parser is `clap`.
//!
//! Modules, in reading order:
//! - `arguments`: `Invocation`, the parsed command line, and `parse_arguments`
//! - `commands`: the definition of the commands for `clap`
//! - `matches`: from the matched arguments to the invocation
//! - `help`: the help texts
//!
//! Proved, if no argument except `-` begins with a hyphen (`ArePositional`): `parse_arguments` returns the
//! invocation that the arguments mean (`parsed_words`). An error other than out of memory occurs only if the
//! arguments have no meaning. It has the status of a usage error, unless they request help (`ReadsWords`).
#![tactic(auto)]

mod arguments;
mod commands;
mod help;
mod matches;

pub use arguments::{Invocation, LoadArgs, Paths, SolveArgs, SolvesArgs, parse_arguments};
