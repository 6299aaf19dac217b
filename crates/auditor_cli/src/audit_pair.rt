//! The subcommand `audit`: the audit of two files.
ghost use Rattle.std.specs.Prelude.{◌≡◌, ◌≤◌, ◌++◌, IfOk, MatchResult};
ghost use Rattle.std.specs.Io.KnownBytes.{Appends};
ghost use Rattle.std.specs.IoError.{error_kind};
ghost use Rattle.auditor_cli.specs.Answer.{IsAnswerBy};
ghost use Rattle.auditor_cli.specs.IgnoredLines.{PrintsIgnored, ignored_line_note, ignored_limit_note};
ghost use Rattle.auditor_cli.specs.Files.{AreBothRead, AreReadInTurn, IsUnread, PrintsFiles, PrintsTextsBy};

use crate::audit::audit_by;
use crate::files::ReadFiles;
use crate::ignored_lines::print_ignored;
use crate::messages::{print_audit, print_read_failure};
use command_line::Paths;
use instance_read::Format;
use std::alloc::Global;
use std::io;
use std::io::{ErrorKind, Write};

/// A file that could not be read.
#[derive(Clone, Copy, Debug)]
pub struct ReadFailure<'a> {
    pub path: &'a str,
    pub kind: ErrorKind,
}

/// Reads both files completely, the instance first. Ends at the first file that can't be read.
pub fn read_both<'a, F: ReadFiles>(
    paths: Paths<'a>,
    files: &mut F,
) -> Result<(Vec<u8>, Vec<u8>), ReadFailure<'a>>
    ensures { let instance = paths.entry.instance.now in
        let solution = paths.entry.solution.now in
        MatchResult result
        (λ both. AreBothRead instance solution both.0.items both.1.items
        (F.reads files.old) (F.reads files.new))
        (λ unread. IsUnread instance solution unread.path.now unread.kind
        (F.reads files.old) (F.reads files.new)) }
{
    let instance = match files.read(paths.instance) {
        Ok(text) => text,
        Err(error) => return Err(not_read(paths.instance, &error)),
    };
    let solution = match files.read(paths.solution) {
        Ok(text) => text,
        Err(error) => return Err(not_read(paths.solution, &error)),
    };
    Ok((instance, solution))
}

fn not_read<'a>(path: &'a str, error: &io::Error) -> ReadFailure<'a>
    ensures { (result.path.now ≡ path.entry.now) × (result.kind ≡ error_kind error.now) }
{
    ReadFailure {
        path,
        kind: error.kind(),
    }
}

/// Reads both files completely before it parses either, prints the audit of the solution or only of its routes,
/// and returns the status. Notes on ignored lines after the solution's cost line, and on an ignored limit of the
/// instance, go to `errors`.
pub fn audit_files<F: ReadFiles, W: Write, E: Write>(
    alloc: Global,
    paths: Paths,
    routes_alone: bool,
    files: &mut F,
    output: &mut W,
    errors: &mut E,
) -> io::Result<u8>
    ensures status { IfOk result (λ status. status ≤ 4) }
    ensures reads { AreReadInTurn paths.entry.instance.now paths.entry.solution.now
        (F.reads files.old) (F.reads files.new) }
    ensures reported { IfOk result (λ status. PrintsFiles routes_alone paths.entry.format
        paths.entry.instance.now paths.entry.solution.now (F.reads files.old) (F.reads files.new)
        (W.contents output.old) (W.contents output.new) status
        × PrintsIgnored paths.entry.format paths.entry.instance.now paths.entry.solution.now
        (F.reads files.old) (F.reads files.new)
        (E.contents errors.old) (E.contents errors.new)) }
{
    match read_both(paths, files) {
        Ok(both) => print_both(alloc, paths, routes_alone, &both.0, &both.1, output, errors),
        Err(unread) => print_read_failure(output, unread.path, unread.kind),
    }
}

// Prints the audit of both texts, and the notes on ignored lines on `errors`.
fn print_both<W: Write, E: Write>(
    alloc: Global,
    paths: Paths<'_>,
    routes_alone: bool,
    instance: &[u8],
    solution: &[u8],
    output: &mut W,
    errors: &mut E,
) -> io::Result<u8>
    ensures status { IfOk result (λ status. status ≤ 4) }
    ensures reported { IfOk result (λ status. PrintsTextsBy (IsAnswerBy routes_alone paths.entry.format)
        instance.now solution.now (W.contents output.old) (W.contents output.new) status
        × Appends (E.contents errors.old) (E.contents errors.new)
        (ignored_line_note paths.entry.solution.now solution.now
        ++ ignored_limit_note paths.entry.format paths.entry.instance.now instance.now)) }
{
    let status = print_answer(
        alloc,
        paths.format,
        routes_alone,
        instance,
        solution,
        output,
    )?;
    print_ignored(paths, instance, solution, errors)?;
    Ok(status)
}

// Prints the audit of both texts.
fn print_answer<W: Write>(
    alloc: Global,
    format: Format,
    routes_alone: bool,
    instance: &[u8],
    solution: &[u8],
    output: &mut W,
) -> io::Result<u8>
    ensures status { IfOk result (λ status. status ≤ 4) }
    ensures reported { IfOk result (PrintsTextsBy (IsAnswerBy routes_alone format)
        instance.now solution.now (W.contents output.old) (W.contents output.new)) }
{
    print_audit(
        output,
        &audit_by(alloc, format, routes_alone, instance, solution),
    )
}
