//! The audit of a pair of files from a list, compared with a best-known cost of the instance.
ghost use Rattle.std.specs.Prelude.{◌≡◌, ◌≤◌, ◌++◌, IfOk};
ghost use Rattle.std.specs.Io.KnownBytes.{Appends};
ghost use Rattle.auditor_cli.specs.BestKnown.{comparison_text};
ghost use Rattle.auditor_cli.specs.AnswerText.{pass_text};
ghost use Rattle.auditor_cli.specs.IgnoredLines.{PrintsNoteOnSolution, listed_note};
ghost use Rattle.auditor_cli.specs.Compare.{IsComparedAnswer, IsListedAnswer, compared_answer, compared_verdict};
ghost use Rattle.auditor_cli.specs.Files.{AreReadInTurn, PrintsFilesBy, PrintsTextsBy};

use crate::answer::{AuditAnswer, AuditLine, pass_line};
use crate::audit::{Examination, answer_of, audit_by, examine_by, verdict_answer};
use crate::audit_pair::read_both;
use crate::best_known::BestKnown;
use crate::files::ReadFiles;
use crate::ignored_lines::{ListLine, print_listed_ignored_line};
use crate::messages::{print_audit, print_read_failure};
use crate::status::DONE;
use command_line::Paths;
use instance_read::Format;
use plan_audit::Verdict;
use plan_types::{Cost, OutOfMemory};
use std::alloc::Global;
use std::io;
use std::io::Write;

/// The pair of files that a line of a list names, and the best-known cost after it, if there is one.
#[derive(Debug, Drop)]
pub struct ListedPair<'a> {
    pub paths: Paths<'a>,
    pub best: Option<BestKnown>,
}

/// Reads both files completely before it parses either, and prints their audit. After a pass, it prints how the
/// cost compares with the best-known cost, if there is one. Prints a note on `errors` if the solution has
/// ignored lines after its cost line.
pub(crate) fn compare_files<F: ReadFiles, W: Write, E: Write>(
    alloc: Global,
    pair: &ListedPair<'_>,
    place: ListLine<'_>,
    routes_alone: bool,
    files: &mut F,
    output: &mut W,
    errors: &mut E,
) -> io::Result<u8>
    ensures status { IfOk result (λ status. status ≤ 4) }
    ensures reads { AreReadInTurn pair.now.paths.instance.now pair.now.paths.solution.now
        (F.reads files.old) (F.reads files.new) }
    ensures reported { IfOk result (λ status. PrintsFilesBy
        (IsListedAnswer routes_alone pair.now.paths.format pair.now.best)
        pair.now.paths.instance.now pair.now.paths.solution.now
        (F.reads files.old) (F.reads files.new)
        (W.contents output.old) (W.contents output.new) status
        × PrintsNoteOnSolution
        (listed_note place.entry.list.now place.entry.number pair.now.paths.solution.now)
        pair.now.paths.instance.now pair.now.paths.solution.now
        (F.reads files.old) (F.reads files.new)
        (E.contents errors.old) (E.contents errors.new)) }
{
    match read_both(pair.paths, files) {
        Ok(both) => print_listed(
            alloc,
            pair,
            place,
            routes_alone,
            &both.0,
            &both.1,
            output,
            errors,
        ),
        Err(unread) => print_read_failure(output, unread.path, unread.kind),
    }
}

// Prints the audit of both texts, and on `errors` a note on ignored lines after the solution's cost line.
fn print_listed<W: Write, E: Write>(
    alloc: Global,
    pair: &ListedPair<'_>,
    place: ListLine<'_>,
    routes_alone: bool,
    instance: &[u8],
    solution: &[u8],
    output: &mut W,
    errors: &mut E,
) -> io::Result<u8>
    ensures status { IfOk result (λ status. status ≤ 4) }
    ensures reported { IfOk result (λ status. PrintsTextsBy
        (IsListedAnswer routes_alone pair.now.paths.format pair.now.best)
        instance.now solution.now (W.contents output.old) (W.contents output.new) status
        × Appends (E.contents errors.old) (E.contents errors.new)
        (listed_note place.entry.list.now place.entry.number pair.now.paths.solution.now
        solution.now)) }
{
    let status = print_answer(alloc, pair, routes_alone, instance, solution, output)?;
    print_listed_ignored_line(place, pair.paths.solution, solution, errors)?;
    Ok(status)
}

// Prints the audit of both texts, compared with the best-known cost if there is one.
fn print_answer<W: Write>(
    alloc: Global,
    pair: &ListedPair<'_>,
    routes_alone: bool,
    instance: &[u8],
    solution: &[u8],
    output: &mut W,
) -> io::Result<u8>
    ensures status { IfOk result (λ status. status ≤ 4) }
    ensures reported { IfOk result (PrintsTextsBy
        (IsListedAnswer routes_alone pair.now.paths.format pair.now.best)
        instance.now solution.now (W.contents output.old) (W.contents output.new)) }
{
    let answer = listed_answer(alloc, pair, routes_alone, instance, solution);
    print_audit(output, &answer)
}

// Audits a solution against an instance, and compares its cost with the best-known cost if there is one.
fn listed_answer(
    alloc: Global,
    pair: &ListedPair<'_>,
    routes_alone: bool,
    instance: &[u8],
    solution: &[u8],
) -> Result<AuditAnswer, OutOfMemory>
    ensures answer { IfOk result (IsListedAnswer routes_alone pair.now.paths.format pair.now.best
        instance.now solution.now) }
    ensures status { IfOk result (λ answer. answer.status ≤ 2) }
{
    let format = pair.paths.format;
    match &pair.best {
        Some(best) => compare_text(alloc, format, routes_alone, best, instance, solution),
        None => audit_by(alloc, format, routes_alone, instance, solution),
    }
}

fn compare_text(
    alloc: Global,
    format: Format,
    routes_alone: bool,
    best: &BestKnown,
    instance: &[u8],
    solution: &[u8],
) -> Result<AuditAnswer, OutOfMemory>
    ensures answer { IfOk result
        (IsComparedAnswer routes_alone format best.now instance.now solution.now) }
    ensures status { IfOk result (λ answer. answer.status ≤ 2) }
{
    let examined = examine_by(alloc, format, routes_alone, instance, solution)?;
    compared_answer(alloc, best, &examined)
}

fn compared_answer(
    alloc: Global,
    best: &BestKnown,
    examined: &Examination,
) -> Result<AuditAnswer, OutOfMemory>
    ensures answer { IfOk result (λ answer. answer ≡ compared_answer best.now examined.now) }
    ensures status { IfOk result (λ answer. answer.status ≤ 2) }
{
    match examined {
        Examination::Judged(_, _, verdict) => compared_verdict(alloc, best, *verdict),
        _ => answer_of(alloc, examined),
    }
}

fn compared_verdict(
    alloc: Global,
    best: &BestKnown,
    verdict: Verdict,
) -> Result<AuditAnswer, OutOfMemory>
    ensures { IfOk result (λ answer. answer ≡ compared_verdict best.now verdict) }
{
    match verdict {
        Verdict::Pass(cost) => Ok(AuditAnswer {
            line: compared_line(alloc, best, cost)?,
            status: DONE,
        }),
        Verdict::Broken { .. } => verdict_answer(alloc, verdict),
    }
}

// Returns the line for a solution that passes, followed by the comparison of its cost with the best-known one.
fn compared_line(alloc: Global, best: &BestKnown, cost: Cost) -> Result<AuditLine, OutOfMemory>
    ensures { IfOk result (λ line. line ≡ pass_text cost ++ comparison_text best.now cost) }
{
    let line = pass_line(alloc, cost)?;
    let comparison = best.comparison(alloc, cost)?;
    line.with(comparison.as_str())
}
