//! The reason why a line of a list for `audits` is bad.
ghost use Rattle.std.specs.Prelude.{◌≡◌, OnOk};
ghost use Rattle.std.specs.Io.KnownBytes.{Appends};
ghost use Rattle.auditor_cli.specs.BadLines.{bad_note, bad_reason, columns_reason, cost_reason, paths_reason};

use crate::best_known::BestKnown;
use crate::columns::{cut, tab_at};
use crate::ignored_lines::ListLine;
use instance_read::Format;
use plan_types::Kind;
use std::io;
use std::io::Write;

/// Prints which line of a list is bad, and why.
pub(crate) fn print_bad_line_reason<E: Write>(
    place: ListLine<'_>,
    format: Format,
    line: &[u8],
    errors: &mut E,
) -> io::Result<()>
    ensures { OnOk result (Appends (E.contents errors.old) (E.contents errors.new)
        (bad_note place.entry.list.now place.entry.number (bad_reason format line.now))) }
{
    let ListLine { list, number } = place;
    let reason = bad_reason(format, line);
    writeln!(errors, "planner: {list}: line {number}: bad line: {reason}")
}

fn bad_reason(format: Format, line: &[u8]) -> &'static str
    ensures { result.now ≡ bad_reason format line.now }
{
    let Some((instance, rest)) = cut(line) else {
        return if line.is_empty() {
            "it is empty"
        } else {
            "it has no tab"
        };
    };
    match cut(rest) {
        None => paths_reason(instance, rest),
        Some((solution, column)) => columns_reason(format, instance, solution, column),
    }
}

fn columns_reason(format: Format, instance: &[u8], solution: &[u8], column: &[u8]) -> &'static str
    ensures { result.now ≡ columns_reason format instance.now solution.now column.now }
{
    if tab_at(column) < column.len() {
        return "it has more than two tabs";
    }
    if BestKnown::read(format, column).is_none() {
        return cost_reason(format.kind());
    }
    paths_reason(instance, solution)
}

fn paths_reason(instance: &[u8], solution: &[u8]) -> &'static str
    ensures { result.now ≡ paths_reason instance.now solution.now }
{
    if instance.is_empty() || solution.is_empty() {
        "a path is empty"
    } else {
        "a path is not UTF-8"
    }
}

fn cost_reason(kind: Kind) -> &'static str
    ensures { result.now ≡ cost_reason kind }
{
    match kind {
        Kind::LiLim => "the third column is not a best-known cost such as 10 829 or 829",
        Kind::Vrp => "the third column is not a best-known cost such as 829",
    }
}
