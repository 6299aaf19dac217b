//! The parsed command line: `Invocation`, and `parse_arguments`.
//!
//! The contract covers arguments that do not begin with a hyphen. `clap` handles all others, and an exact
//! contract for them would have to describe the UTF-8 in each argument. `--` alone counts as no arguments, as
//! in `clap`.
ghost use Rattle.std.specs.Prelude.{drop, map};
ghost use Rattle.clap.specs.Words.{subcommand_rows_of};
ghost use Rattle.command_line.specs.Invocations.{ArePositional, ReadsMatches, ReadsWords, matched_invocation};

use crate::commands::{bad_arguments, planner_command};
use crate::matches::parse_matches;
use clap::{ArgMatches, Error};
use instance_read::Format;
use std::alloc::Global;
use std::convert::AsStr;

/// An instance and a solution, given by the paths of their files.
#[derive(Clone, Copy, Debug)]
pub struct Paths<'a> {
    pub format: Format,
    pub instance: &'a str,
    pub solution: &'a str,
}

/// An instance, given by the path of its file, and the steps that improve the plan built for it.
#[derive(Clone, Copy, Debug)]
pub struct SolveArgs<'a> {
    pub format: Format,
    pub instance: &'a str,
    /// The number of steps, 0..=`MAX_REQUESTED_STEPS`.
    pub steps: u32,
    pub seed: u64,
    /// The limit by which the working plan of the search may be longer than its best plan, 0..=`MAX_DEVIATION`.
    /// `None` if the search is not requested.
    pub deviation: Option<u32>,
}

/// A list of instances, given by the path of its file, and the steps that improve the plan built for each
/// instance.
#[derive(Clone, Copy, Debug)]
pub struct SolvesArgs<'a> {
    pub format: Format,
    pub list: &'a str,
    /// The number of steps for each instance, 0..=`MAX_REQUESTED_STEPS`.
    pub steps: u32,
    pub seed: u64,
}

/// A store and an instance, given by the paths of their files.
#[derive(Clone, Copy, Debug)]
pub struct LoadArgs<'a> {
    pub store: &'a str,
    pub format: Format,
    pub instance: &'a str,
    /// The seed of the random numbers of the store's searches.
    pub seed: u64,
}

/// A parsed command line.
#[derive(Clone, Copy)]
pub enum Invocation<'a> {
    /// No arguments: the audit of the two built-in texts.
    BuiltIn,
    /// `audit KIND INSTANCE SOLUTION [routes]`: the audit of two files; with `routes`, of the solution's routes
    /// alone.
    Audit {
        paths: Paths<'a>,
        routes_alone: bool,
    },
    /// `audits KIND LIST [routes]`: the audits of the pairs of files that the lines of this file name.
    Audits {
        format: Format,
        list: &'a str,
        routes_alone: bool,
    },
    /// `explain KIND INSTANCE SOLUTION [routes]`: the audit of two files, with the numbers it is based on.
    Explain {
        paths: Paths<'a>,
        routes_alone: bool,
    },
    /// `draw KIND INSTANCE SOLUTION [ROUTE]`: the picture of a solution, or of its route with this number.
    Draw {
        paths: Paths<'a>,
        route: Option<u32>,
    },
    /// `draw STORE [ROUTE]`: the picture of the plan in this store, or of the route of its vehicle with this
    /// number.
    DrawStore {
        store: &'a str,
        route: Option<u32>,
    },
    /// `solve KIND INSTANCE STEPS [SEED [DEVIATION]]`: a solution of the instance in this file.
    Solve(SolveArgs<'a>),
    /// `solves KIND LIST STEPS [SEED]`: for each line of this file, a solution of the instance that it names,
    /// written to the file that it names.
    Solves(SolvesArgs<'a>),
    /// `format STORE`: an empty store in this file.
    Format {
        store: &'a str,
    },
    /// `load STORE KIND INSTANCE [SEED]`: the instance in this file, loaded into the store.
    Load(LoadArgs<'a>),
    /// `run STORE [strict]`: the commands of standard input, executed on the store; with `strict`, up to the
    /// first one that is refused or fails.
    Run {
        store: &'a str,
        is_strict: bool,
    },
    /// `adopt STORE SOLUTION`: the solution's plan becomes the plan of the store.
    Adopt {
        store: &'a str,
        solution: &'a str,
    },
    /// `instance STORE`: the instance in the store.
    StoreInstance {
        store: &'a str,
    },
    /// `check STORE`: the check of the store's consistency.
    Check {
        store: &'a str,
    },
    /// `upgrade OLD NEW`: a store in the file NEW, with the state of the version 1 store in OLD.
    Upgrade {
        old: &'a str,
        new: &'a str,
    },
    /// `timetable KIND INSTANCE SOLUTION [tabs]`: the timetable of a solution; with `tabs`, for programs.
    Timetable {
        paths: Paths<'a>,
        is_tabbed: bool,
    },
    /// `timetable STORE [tabs]`: the timetable of the plan in the store.
    StoreTimetable {
        store: &'a str,
        is_tabbed: bool,
    },
}

/// Reads the arguments of the command line, the program's name first. `lines` is the help for the commands that
/// `run` reads.
///
/// # Errors
///
/// `clap`'s error. Its text is shown to the user, on standard output if help was requested. It is also returned
/// for an argument that must be a number and is not, for a number that is too large, and if memory runs out.
pub fn parse_arguments<'a, S: AsStr>(
    alloc: Global,
    words: &'a [S],
    lines: &'a str,
) -> Result<Invocation<'a>, Error>
    ensures { let asked = drop 1 (map S.text words.entry.now) in
        ArePositional asked → ReadsWords asked result }
{
    let matches = planner_command(alloc, lines)?.try_get_matches_from(words)?;
    invocation_or_error(alloc, &matches)
}

// Returns the invocation for the matched arguments, or the error for arguments that the parser accepted.
fn invocation_or_error<'a>(alloc: Global, matches: &ArgMatches<'a>) -> Result<Invocation<'a>, Error>
    ensures { ReadsMatches (matched_invocation (subcommand_rows_of matches.now)) result }
{
    match parse_matches(matches) {
        Some(invocation) => Ok(invocation),
        None => Err(bad_arguments(alloc, matches)?),
    }
}
