//! The subcommand `audits`: the audits of a list of pairs of files.
ghost use Rattle.std.specs.Prelude.{◌≡◌, ◌≤◌, ℕ, IfOk, MatchOption, codes, max, option_map};
ghost use Rattle.std.specs.Io.KnownBytes.{Appends};
ghost use Rattle.text_lines.specs.Lines.{with_line_feed};
ghost use Rattle.auditor_cli.specs.BadLines.{bad_note, bad_reason};
ghost use Rattle.auditor_cli.specs.Audits.{ComparesNone, IsAudited, IsComparedPair, IsListedPair, IsPair, NamesNone, PrintsLine, PrintsLines, PrintsList, compared_parts, ends_at_feed, is_path, next_number, parts_of, list_state};
ghost use Rattle.auditor_cli.specs.Reads.{IsGrown, IsReadFirst};
ghost use Rattle.auditor_cli.specs.Messages.{read_failure_line, read_failure_status};

use crate::bad_lines::print_bad_line_reason;
use crate::best_known::BestKnown;
use crate::columns::{cut, tab_at};
use crate::compare::{ListedPair, compare_files};
use crate::files::ReadFiles;
use crate::ignored_lines::ListLine;
use crate::messages::{print_read_failure, write_line};
use crate::status::{DONE, REFUSED};
use command_line::Paths;
use instance_read::Format;
use std::alloc::Global;
use std::io::{ErrorKind, Write};
use std::{io, str};
use text_lines::Lines;

/// A list of pairs of files by its path, with the format of its instances. If `routes_alone` is true, only
/// routes are audited.
#[derive(Clone, Copy)]
struct AuditList<'a> {
    format: Format,
    path: &'a str,
    routes_alone: bool,
}

/// Reads a list line by line, audits the pair of each line before it reads the next line, and returns the worst
/// status. Audits each solution or only its routes. Prints on `errors`, with the number of the line, why a line
/// is bad, and a note if a solution has ignored lines.
pub fn audit_list<F: ReadFiles, W: Write, E: Write>(
    alloc: Global,
    format: Format,
    list: &str,
    routes_alone: bool,
    files: &mut F,
    output: &mut W,
    errors: &mut E,
) -> io::Result<u8>
    ensures status { IfOk result (λ status. status ≤ 4) }
    ensures reads { IsReadFirst list.now (F.reads files.old) (F.reads files.new) }
    ensures reported { IfOk result (PrintsList routes_alone format list.now
        (F.reads files.old) (F.reads files.new)
        (W.contents output.old) (W.contents output.new)
        (E.contents errors.old) (E.contents errors.new)) }
{
    match files.open(list) {
        Ok(opened) => {
            let asked = AuditList {
                format,
                path: list,
                routes_alone,
            };
            audit_opened(alloc, asked, opened, files, output, errors)
        }
        Err(error) => print_read_failure(output, list, error.kind()),
    }
}

// Audits the pair of each line of an opened list.
fn audit_opened<F: ReadFiles, W: Write, E: Write>(
    alloc: Global,
    asked: AuditList<'_>,
    opened: F::OpenFile,
    files: &mut F,
    output: &mut W,
    errors: &mut E,
) -> io::Result<u8>
    ensures status { IfOk result (λ status. status ≤ 4) }
    ensures reads { IsReadFirst asked.entry.path.now (F.reads files.old) (F.reads files.new) }
    ensures reported { IfOk result (PrintsList asked.entry.routes_alone asked.entry.format
        asked.entry.path.now (F.reads files.old) (F.reads files.new)
        (W.contents output.old) (W.contents output.new)
        (E.contents errors.old) (E.contents errors.new)) }
{
    let mut opened = opened;
    let mut greatest = DONE;
    let mut answered = 0u64;
    for _ in 0..u64::MAX {
        let line = match files.read_line(asked.path, &mut opened) {
            Ok(line) => line,
            Err(error) => return print_list_failure(greatest, output, asked.path, error.kind()),
        };
        let lines = Lines::new(&line);
        let status = audit_lines(alloc, asked, lines, &mut answered, files, output, errors)?;
        greatest = worse_status(greatest, status);
        if !ends_at_feed(&line) {
            return Ok(greatest);
        }
    }
    Err(io::Error::from(ErrorKind::FileTooLarge))
}

// Prints that the rest of the list can't be read, and returns the worst status.
fn print_list_failure<W: Write>(
    greatest: u8,
    output: &mut W,
    path: &str,
    kind: ErrorKind,
) -> io::Result<u8>
    requires { greatest ≤ 4 }
    ensures bound { IfOk result (λ status. status ≤ 4) }
    ensures reported { IfOk result (λ status. (status ≡ max greatest (read_failure_status kind))
        × Appends (W.contents output.old) (W.contents output.new) (read_failure_line path.now kind)) }
{
    let status = print_read_failure(output, path, kind)?;
    Ok(worse_status(greatest, status))
}

// Returns whether the last byte is a line feed.
fn ends_at_feed(text: &[u8]) -> bool
    ensures { result ≡ ends_at_feed text.now }
{
    matches!(text, [.., b'\n'])
}

// Prints the audit of the pair of each line, and flushes the output before the next line.
fn audit_lines<F: ReadFiles, W: Write, E: Write>(
    alloc: Global,
    asked: AuditList<'_>,
    lines: Lines<'_>,
    answered: &mut u64,
    files: &mut F,
    output: &mut W,
    errors: &mut E,
) -> io::Result<u8>
    ensures status { IfOk result (λ status. status ≤ 4) }
    ensures reads { IsGrown (F.reads files.old) (F.reads files.new) }
    ensures reported { IfOk result (PrintsLines
        (IsAudited asked.entry.routes_alone asked.entry.format asked.entry.path.now) lines.entry
        (list_state (F.reads files.old) (E.contents errors.old) answered.old)
        (list_state (F.reads files.new) (E.contents errors.new) answered.new)
        (W.contents output.old) (W.contents output.new)) }
{
    let mut greatest = DONE;
    for line in lines {
        let number = next_number(*answered);
        let status = audit_line(alloc, asked, number, line, files, output, errors)?;
        *answered = number;
        output.flush()?;
        greatest = worse_status(greatest, status);
    }
    Ok(greatest)
}

// Returns the number of the next line, which stays at the greatest `u64` once it is reached.
fn next_number(answered: u64) -> u64
    ensures { result ≡ next_number answered }
{
    if answered < u64::MAX {
        answered + 1
    } else {
        answered
    }
}

/// Returns the worse of two statuses: the greater one.
pub fn worse_status(one: u8, other: u8) -> u8
    requires { (one ≤ 4) × (other ≤ 4) }
    ensures value { max one other ≡ result }
    ensures bound { result ≤ 4 }
{
    if one < other { other } else { one }
}

// Prints the audit of the pair that the line with this number names, or that the line is bad.
fn audit_line<F: ReadFiles, W: Write, E: Write>(
    alloc: Global,
    asked: AuditList<'_>,
    number: u64,
    line: &[u8],
    files: &mut F,
    output: &mut W,
    errors: &mut E,
) -> io::Result<u8>
    ensures status { IfOk result (λ status. status ≤ 4) }
    ensures reads { IsGrown (F.reads files.old) (F.reads files.new) }
    ensures reported { (answered : ℕ) → number ≡ next_number answered → IfOk result (PrintsLine
        (IsAudited asked.entry.routes_alone asked.entry.format asked.entry.path.now) line.now
        (list_state (F.reads files.old) (E.contents errors.old) answered)
        (list_state (F.reads files.new) (E.contents errors.new) number)
        (W.contents output.old) (W.contents output.new)) }
{
    let place = ListLine {
        list: asked.path,
        number,
    };
    let pair = match listed_pair(asked.format, line) {
        Some(pair) => pair,
        None => return print_bad_line_with_reason(place, asked.format, line, output, errors),
    };
    let instance = pair.paths.instance;
    let solution = pair.paths.solution;
    write!(output, "{instance}\t{solution}\t")?;
    compare_files(
        alloc,
        &pair,
        place,
        asked.routes_alone,
        files,
        output,
        errors,
    )
}

// Prints that a line is bad, and the reason on `errors`.
fn print_bad_line_with_reason<W: Write, E: Write>(
    place: ListLine<'_>,
    format: Format,
    line: &[u8],
    output: &mut W,
    errors: &mut E,
) -> io::Result<u8>
    ensures { IfOk result (λ status. (status ≡ 2)
        × Appends (W.contents output.old) (W.contents output.new) (with_line_feed (codes "bad line"))
        × Appends (E.contents errors.old) (E.contents errors.new)
        (bad_note place.entry.list.now place.entry.number (bad_reason format line.now))) }
{
    let status = print_bad_line(output)?;
    print_bad_line_reason(place, format, line, errors)?;
    Ok(status)
}

/// Prints `bad line`.
pub fn print_bad_line<W: Write>(output: &mut W) -> io::Result<u8>
    ensures { IfOk result (λ status. (status ≡ 2)
        × Appends (W.contents output.old) (W.contents output.new) (with_line_feed (codes "bad line"))) }
{
    write_line(output, b"bad line")?;
    Ok(REFUSED)
}

/// Returns the paths of an instance and a solution that a line names, separated by a tab. Returns `None` if the
/// line is not two such paths in UTF-8.
pub fn pair_of(line: &[u8]) -> Option<(&str, &str)>
    ensures { MatchOption result (NamesNone line.now) (λ p. IsPair line.now p.0.now p.1.now) }
{
    let (instance, solution) = match parts_of(line) {
        Some(parts) => parts,
        None => return None,
    };
    let Ok(instance) = str::from_utf8(instance) else {
        return None;
    };
    let Ok(solution) = str::from_utf8(solution) else {
        return None;
    };
    Some((instance, solution))
}

// Splits a line at its tab. Returns `None` if a part is empty, or if there is not exactly one tab.
fn parts_of(line: &[u8]) -> Option<(&[u8], &[u8])>
    ensures { option_map (λ p. (p.0.now, p.1.now)) result ≡ parts_of line.now }
{
    let (instance, rest) = line.split_at(tab_at(line));
    match rest {
        [] => None,
        [_, solution @ ..] => {
            if is_path(instance) && is_path(solution) {
                return Some((instance, solution));
            }
            None
        }
    }
}

fn is_path(path: &[u8]) -> bool
    ensures { result ≡ is_path path.now }
{
    !path.is_empty() && tab_at(path) == path.len()
}

// Returns the files that a line names, with the best-known cost after them, if it has one.
fn listed_pair(format: Format, line: &[u8]) -> Option<ListedPair<'_>>
    ensures { MatchOption result (NamesNone line.now × ComparesNone format line.now)
        (λ pair. (pair.paths.format ≡ format) × IsListedPair format line.now
        pair.paths.instance.now pair.paths.solution.now pair.best) }
{
    if let Some((instance, solution)) = pair_of(line) {
        let paths = Paths {
            format,
            instance,
            solution,
        };
        return Some(ListedPair { paths, best: None });
    }
    let (instance, solution, best) = compared_of(format, line)?;
    let paths = Paths {
        format,
        instance,
        solution,
    };
    Some(ListedPair {
        paths,
        best: Some(best),
    })
}

// Returns the paths of an instance and a solution, and a best-known cost, separated by tabs.
fn compared_of(format: Format, line: &[u8]) -> Option<(&str, &str, BestKnown)>
    ensures { MatchOption result (ComparesNone format line.now)
        (λ p. IsComparedPair format line.now p.0.now p.1.now p.2) }
{
    let (instance, solution, best) = match compared_parts(format, line) {
        Some(parts) => parts,
        None => return None,
    };
    let Ok(instance) = str::from_utf8(instance) else {
        return None;
    };
    let Ok(solution) = str::from_utf8(solution) else {
        return None;
    };
    Some((instance, solution, best))
}

// Returns the columns of a line with two tabs, if neither path is empty and the last column is a best-known
// cost.
fn compared_parts(format: Format, line: &[u8]) -> Option<(&[u8], &[u8], BestKnown)>
    ensures { option_map (λ p. (p.0.now, p.1.now, p.2)) result ≡ compared_parts format line.now }
{
    let Some((instance, rest)) = cut(line) else {
        return None;
    };
    let Some((solution, column)) = cut(rest) else {
        return None;
    };
    if instance.is_empty() || solution.is_empty() {
        return None;
    }
    let Some(best) = BestKnown::read(format, column) else {
        return None;
    };
    Some((instance, solution, best))
}
