//! Notes on ignored lines: the lines after the cost line of a solution, and a limit of an instance that no rule
//! checks.
ghost use Rattle.std.specs.Prelude.{◌++◌, OnOk, Some};
ghost use Rattle.std.specs.Io.KnownBytes.{Appends};
ghost use Rattle.auditor_cli.specs.IgnoredLines.{ignored_line_note, ignored_limit_note, listed_note_by, listed_note, place_text};

use command_line::Paths;
use instance_read::Format;
use plan_explain::{ignored_limit_line, line_after_cost};
use std::io;
use std::io::Write;

/// Prints a note with the number of the first line after the cost line that is not blank, if there is one.
/// Parsing ends at the cost line. `path` is the solution's file.
pub fn print_ignored_line<E: Write>(path: &str, solution: &[u8], errors: &mut E) -> io::Result<()>
    ensures { OnOk result (Appends (E.contents errors.old) (E.contents errors.new)
        (ignored_line_note path.now solution.now)) }
{
    match line_after_cost(solution) {
        Some(number) => {
            writeln!(
                errors,
                "planner: {path}: line {number} comes after the cost line and is not read"
            )
        }
        None => Ok(()),
    }
}

/// Prints a note with the number of the instance's first line that sets a limit which no rule checks, if there
/// is one. `path` is the instance's file.
pub fn print_ignored_limit<E: Write>(
    format: Format,
    path: &str,
    instance: &[u8],
    errors: &mut E,
) -> io::Result<()>
    ensures { OnOk result (Appends (E.contents errors.old) (E.contents errors.new)
        (ignored_limit_note format path.now instance.now)) }
{
    match ignored_limit_line(format, instance) {
        Some(number) => {
            writeln!(
                errors,
                "planner: {path}: line {number} sets a limit that no rule checks"
            )
        }
        None => Ok(()),
    }
}

/// Prints the notes on a solution and on an instance.
pub(crate) fn print_ignored<E: Write>(
    paths: Paths<'_>,
    instance: &[u8],
    solution: &[u8],
    errors: &mut E,
) -> io::Result<()>
    ensures { OnOk result (Appends (E.contents errors.old) (E.contents errors.new)
        (ignored_line_note paths.entry.solution.now solution.now
        ++ ignored_limit_note paths.entry.format paths.entry.instance.now instance.now)) }
{
    print_ignored_line(paths.solution, solution, errors)?;
    print_ignored_limit(paths.format, paths.instance, instance, errors)
}

/// A line of a list: the path of the list and the number of the line, from 1.
#[derive(Clone, Copy)]
pub(crate) struct ListLine<'a> {
    pub list: &'a str,
    pub number: u64,
}

/// Prints the note of `print_ignored_line` for a solution that a line of a list names, after the position of
/// that line.
pub(crate) fn print_listed_ignored_line<E: Write>(
    line: ListLine<'_>,
    path: &str,
    solution: &[u8],
    errors: &mut E,
) -> io::Result<()>
    ensures { OnOk result (Appends (E.contents errors.old) (E.contents errors.new)
        (listed_note line.entry.list.now line.entry.number path.now solution.now)) }
{
    match line_after_cost(solution) {
        Some(following) => write_listed(line, path, following, errors),
        None => Ok(()),
    }
}

fn write_listed<E: Write>(
    line: ListLine<'_>,
    path: &str,
    following: u64,
    errors: &mut E,
) -> io::Result<()>
    ensures { OnOk result (Appends (E.contents errors.old) (E.contents errors.new)
        (listed_note_by line.entry.list.now line.entry.number path.now (Some following))) }
{
    write_place(line, errors)?;
    writeln!(
        errors,
        "{path}: line {following} comes after the cost line and is not read"
    )
}

fn write_place<E: Write>(line: ListLine<'_>, errors: &mut E) -> io::Result<()>
    ensures { OnOk result (Appends (E.contents errors.old) (E.contents errors.new)
        (place_text line.entry.list.now line.entry.number)) }
{
    let ListLine { list, number } = line;
    write!(errors, "planner: {list}: line {number}: ")
}
