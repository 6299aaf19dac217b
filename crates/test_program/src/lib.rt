//! Tests only: worked examples for public functions of `auditor_cli`, `command_text` and `command_server`, in
//! cases that can't be tested through the program. These crates have no tests of their own.
//!
//! The expected values come from outside the project. Nothing is proved except that no step panics.
//! `tests/program.py` and `cli_tests` test the built program: its answers to arguments, files and commands.
//!
//! Modules, in reading order: `lines`, `strict`, `terminal`, `comparisons`.
#![tactic(auto)]

#[cfg(test)]
mod comparisons;
#[cfg(test)]
mod lines;
#[cfg(test)]
mod strict;
#[cfg(test)]
mod terminal;
