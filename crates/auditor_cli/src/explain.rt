//! The subcommand `explain`: the audit of two files and the reasons for its answer.
ghost use Rattle.std.specs.Prelude.{◌≡◌, ◌≤◌, ◌++◌, IfOk, string_bytes};
ghost use Rattle.std.specs.Io.KnownBytes.{Appends};
ghost use Rattle.auditor_cli.specs.Answer.{IsAnswerBy};
ghost use Rattle.auditor_cli.specs.IgnoredLines.{PrintsIgnored, ignored_line_note, ignored_limit_note};
ghost use Rattle.auditor_cli.specs.Examination.{HasVerdictForSomeCost, answer_of};
ghost use Rattle.auditor_cli.specs.Explain.{IsExplanation, RestsOn, RestsOnCost, ExplainsFiles, PrintsExplanationResult, ExplainsTexts, answer_and_text};
ghost use Rattle.auditor_cli.specs.Files.{AreReadInTurn};

use crate::answer::AuditAnswer;
use crate::audit::{Examination, answer_of, examine_by};
use crate::audit_pair::read_both;
use crate::files::ReadFiles;
use crate::ignored_lines::print_ignored;
use crate::messages::{print_out_of_memory, print_read_failure, write_line};
use command_line::Paths;
use instance_read::Format;
use plan_audit::{audit_routes, routes_are_judged_by_true_cost};
use plan_explain::{
    explain_distance, explain_instance_fault, explain_solution_fault, explain_verdict,
};
use plan_types::{OutOfMemory, Problem, Route};
use sol_text::SolFault;
use std::alloc::Global;
use std::io;
use std::io::Write;

/// The answer of an audit, and the lines that explain it.
#[derive(Debug, Drop)]
pub struct Explanation {
    pub answer: AuditAnswer,
    pub text: String,
}

/// Reads both files like `audit_files`, audits the solution or only its routes, and prints the answer with its
/// explanation. Notes on ignored lines go to `errors`.
pub fn explain_files<F: ReadFiles, W: Write, E: Write>(
    alloc: Global,
    paths: Paths,
    routes_alone: bool,
    files: &mut F,
    output: &mut W,
    errors: &mut E,
) -> io::Result<u8>
    ensures status { IfOk result (λ status. status ≤ 4) }
    ensures reads { AreReadInTurn paths.entry.instance.now paths.entry.solution.now
        (F.reads files.old) (F.reads files.new) }
    ensures reported { IfOk result (λ status. ExplainsFiles routes_alone paths.entry.format
        paths.entry.instance.now paths.entry.solution.now (F.reads files.old) (F.reads files.new)
        (W.contents output.old) (W.contents output.new) status
        × PrintsIgnored paths.entry.format paths.entry.instance.now paths.entry.solution.now
        (F.reads files.old) (F.reads files.new)
        (E.contents errors.old) (E.contents errors.new)) }
{
    match read_both(paths, files) {
        Ok(both) => print_both(alloc, paths, routes_alone, &both.0, &both.1, output, errors),
        Err(unread) => print_read_failure(output, unread.path, unread.kind),
    }
}

// Prints the answer for both texts with its explanation, and the notes on ignored lines on `errors`.
fn print_both<W: Write, E: Write>(
    alloc: Global,
    paths: Paths<'_>,
    routes_alone: bool,
    instance: &[u8],
    solution: &[u8],
    output: &mut W,
    errors: &mut E,
) -> io::Result<u8>
    ensures status { IfOk result (λ status. status ≤ 4) }
    ensures reported { IfOk result (λ status. ExplainsTexts routes_alone paths.entry.format
        instance.now solution.now (W.contents output.old) (W.contents output.new) status
        × Appends (E.contents errors.old) (E.contents errors.new)
        (ignored_line_note paths.entry.solution.now solution.now
        ++ ignored_limit_note paths.entry.format paths.entry.instance.now instance.now)) }
{
    let status = print_texts_explained(
        alloc,
        paths.format,
        routes_alone,
        instance,
        solution,
        output,
    )?;
    print_ignored(paths, instance, solution, errors)?;
    Ok(status)
}

// Prints the answer for both texts with its explanation.
fn print_texts_explained<W: Write>(
    alloc: Global,
    format: Format,
    routes_alone: bool,
    instance: &[u8],
    solution: &[u8],
    output: &mut W,
) -> io::Result<u8>
    ensures status { IfOk result (λ status. status ≤ 4) }
    ensures reported { IfOk result (ExplainsTexts routes_alone format
        instance.now solution.now (W.contents output.old) (W.contents output.new)) }
{
    let explained = explain(alloc, format, routes_alone, instance, solution);
    print_explanation_result(output, &explained)
}

/// Prints an answer with its explanation, or `out of memory`.
pub fn print_explanation_result<W: Write>(
    output: &mut W,
    explained: &Result<Explanation, OutOfMemory>,
) -> io::Result<u8>
    ensures { IfOk result (PrintsExplanationResult explained.now
        (W.contents output.old) (W.contents output.new)) }
{
    match explained {
        Ok(explanation) => print_explanation(output, explanation),
        Err(_) => print_out_of_memory(output),
    }
}

/// Prints an answer with its explanation.
pub fn print_explanation<W: Write>(output: &mut W, explanation: &Explanation) -> io::Result<u8>
    ensures { IfOk result (λ status. (status ≡ explanation.now.answer.status)
        × Appends (W.contents output.old) (W.contents output.new) (answer_and_text explanation.now)) }
{
    write_line(output, explanation.answer.line.as_bytes())?;
    output.write_all(explanation.text.as_bytes())?;
    Ok(explanation.answer.status)
}

// Audits a solution, or only its routes, against an instance, and explains the answer.
fn explain(
    alloc: Global,
    format: Format,
    routes_alone: bool,
    instance: &[u8],
    solution: &[u8],
) -> Result<Explanation, OutOfMemory>
    ensures answer { IfOk result (λ explanation.
        IsAnswerBy routes_alone format instance.now solution.now explanation.answer) }
    ensures explains { IfOk result (IsExplanation routes_alone format instance.now solution.now) }
    ensures status { IfOk result (λ explanation. explanation.answer.status ≤ 2) }
{
    routes_are_judged_by_true_cost();
    let examined = examine_by(alloc, format, routes_alone, instance, solution)?;
    explanation_of(alloc, format, instance, solution, &examined)
}

// Returns the answer for the examined texts, and its explanation.
fn explanation_of(
    alloc: Global,
    format: Format,
    instance: &[u8],
    solution: &[u8],
    examined: &Examination,
) -> Result<Explanation, OutOfMemory>
    requires { HasVerdictForSomeCost examined.now }
    ensures answer { IfOk result (λ explanation. explanation.answer ≡ answer_of examined.now) }
    ensures rests { IfOk result (λ explanation. RestsOn format instance.now solution.now
        examined.now (string_bytes explanation.text)) }
{
    let answer = answer_of(alloc, examined)?;
    let text = rests_on(alloc, format, instance, solution, examined)?;
    Ok(Explanation { answer, text })
}

// Returns the explanation of the answer for the examined texts.
fn rests_on(
    alloc: Global,
    format: Format,
    instance: &[u8],
    solution: &[u8],
    examined: &Examination,
) -> Result<String, OutOfMemory>
    requires { HasVerdictForSomeCost examined.now }
    ensures { IfOk result (λ text. RestsOn format instance.now solution.now examined.now
        (string_bytes text)) }
{
    match examined {
        Examination::BadInstance(fault) => explain_instance_fault(alloc, format, instance, *fault),
        Examination::BadSolution(fault) => explain_solution_fault(alloc, solution, *fault),
        Examination::BadCost(problem, routes, fault) => {
            rests_on_cost(alloc, solution, problem, routes.as_slice(), *fault)
        }
        Examination::Judged(problem, plan, verdict) => explain_verdict(
            alloc, problem, plan, *verdict,
        ),
    }
}

// Returns the explanation for a fault of the cost, and the distance of the routes if that is known.
fn rests_on_cost(
    alloc: Global,
    solution: &[u8],
    problem: &Problem,
    routes: &[Route],
    fault: SolFault,
) -> Result<String, OutOfMemory>
    ensures { IfOk result (λ text. RestsOnCost solution.now problem.now routes.now fault
        (string_bytes text)) }
{
    routes_are_judged_by_true_cost();
    let verdict = audit_routes(alloc, problem, routes)?;
    let mut text = explain_solution_fault(alloc, solution, fault)?;
    let driven = explain_distance(alloc, problem, routes, verdict)?;
    text.push_str(driven.as_str())?;
    Ok(text)
}
