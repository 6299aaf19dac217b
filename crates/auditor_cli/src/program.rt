//! Executes the command lines that request an audit.
ghost use Rattle.std.specs.Prelude.{◌≡◌, IfOk, drop, map};
ghost use Rattle.std.specs.Io.KnownBytes.{Appends};
ghost use Rattle.command_line.specs.Invocations.{ArePositional, InvocationValue, parsed_words, invocation_value};
ghost use Rattle.auditor_cli.specs.Program.{AreReadFor, Does, EndsWith, PrintsUsage, planner_only_line, world};

use crate::audit_pair::audit_files;
use crate::audits::audit_list;
use crate::example::audit_example;
use crate::explain::explain_files;
use crate::files::ReadFiles;
use crate::messages::status_of;
use crate::status::USAGE;
use crate::usage::print_usage;
use command_line::{Invocation, parse_arguments};
use std::alloc::Global;
use std::convert::AsStr;
use std::io;
use std::io::Write;

/// Executes the command line `words`, which begins with the program's name, if it requests an audit. Returns
/// the exit status (see `status`). If an answer can't be printed, the status is `FILE`. A subcommand that only
/// `planner` has ends with `USAGE`.
pub fn audit_args<F: ReadFiles, W: Write, E: Write, S: AsStr>(
    alloc: Global,
    files: &mut F,
    output: &mut W,
    errors: &mut E,
    words: &[S],
) -> u8
    ensures does { let asked = drop 1 (map S.text words.now) in
        (a : InvocationValue) → ArePositional asked → parsed_words asked ≡ Some a
        → EndsWith a (world (F.reads files.old) (W.contents output.old) (E.contents errors.old))
        (world (F.reads files.new) (W.contents output.new) (E.contents errors.new)) result }
    ensures usage { let asked = drop 1 (map S.text words.now) in
        ArePositional asked → parsed_words asked ≡ None
        → PrintsUsage asked
        (world (F.reads files.old) (W.contents output.old) (E.contents errors.old))
        (world (F.reads files.new) (W.contents output.new) (E.contents errors.new)) result }
{
    match parse_arguments(alloc, words, "") {
        Ok(invocation) => status_of(dispatch(alloc, invocation, files, output, errors)),
        Err(error) => status_of(print_usage(&error, output, errors)),
    }
}

// Executes the parsed subcommand and prints the answer.
fn dispatch<F: ReadFiles, W: Write, E: Write>(
    alloc: Global,
    invocation: Invocation,
    files: &mut F,
    output: &mut W,
    errors: &mut E,
) -> io::Result<u8>
    ensures reads { AreReadFor (invocation_value invocation.entry) (F.reads files.old) (F.reads files.new) }
    ensures does { IfOk result (Does (invocation_value invocation.entry)
        (world (F.reads files.old) (W.contents output.old) (E.contents errors.old))
        (world (F.reads files.new) (W.contents output.new) (E.contents errors.new))) }
{
    match invocation {
        Invocation::BuiltIn => audit_example(alloc, output),
        Invocation::Audit {
            paths,
            routes_alone,
        } => audit_files(alloc, paths, routes_alone, files, output, errors),
        Invocation::Audits {
            format,
            list,
            routes_alone,
        } => audit_list(alloc, format, list, routes_alone, files, output, errors),
        Invocation::Explain {
            paths,
            routes_alone,
        } => explain_files(alloc, paths, routes_alone, files, output, errors),
        _ => print_planner_only(errors),
    }
}

// Prints that only `planner` has the requested subcommand.
fn print_planner_only<E: Write>(errors: &mut E) -> io::Result<u8>
    ensures { IfOk result (λ status. (status ≡ 64)
        × Appends (E.contents errors.old) (E.contents errors.new) planner_only_line) }
{
    errors.write_all(
        b"auditor: only planner has this command; auditor has audit, audits and explain\n",
    )?;
    Ok(USAGE)
}
