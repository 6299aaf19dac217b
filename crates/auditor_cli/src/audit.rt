//! The audit of an instance and a solution in memory.
ghost use Rattle.std.specs.Prelude.{◌≡◌, ◌≢◌, ◌≤◌, IfOk};
ghost use Rattle.instance_read.specs.Formats.{format_of};
ghost use Rattle.auditor_cli.specs.Answer.{IsAnswer, IsAnswerBy, IsRoutesAnswer, JudgesSpelled, SaysRoutesSound, SaysSound, refused_answer, verdict_answer};
ghost use Rattle.auditor_cli.specs.Examination.{AreRoutesExamined, AreTheseRoutesJudged, IsExamined, IsExaminedBy, IsPrintedJudged, IsSolutionJudged, answer_of};
ghost use Rattle.auditor_cli.specs.declared.audit.Examination.TheVariants.{BadInstance, BadSolution};

use crate::answer::{AuditAnswer, broken_line, fault_line, pass_line};
use crate::status::{BROKEN, DONE, REFUSED};
use instance_read::{Format, ReadFault, ReadFaultKind, read_instance};
use plan_audit::{
    Verdict, audit_routes, audit_solution, routes_are_judged_by_true_cost, solutions_pass_iff_sound,
};
use plan_types::{Kind, OutOfMemory, Problem, Routes};
use sol_text::{PrintedRoutes, SolFault, SolFaultKind, Solution, read_printed_routes, read_routes};
use std::alloc::{AllocError, Global};

/// Audits a solution against an instance in this format.
///
/// The line is `pass UNPLANNED VEHICLES DISTANCE` with status 0; or `broken RULE route R place P stop S` with
/// status 1 for the lowest-numbered broken rule; or `instance NAME LINE` or `solution NAME LINE` with status 2
/// for a text that is refused, the instance first. So the status is 0 exactly if both texts can be parsed and
/// the solution breaks no rule. Such a solution is sound, serves every request, uses no more vehicles than there
/// are, and prints its true distance.
///
/// # Errors
///
/// `OutOfMemory`.
pub fn audit_in_format(
    alloc: Global,
    format: Format,
    instance: &[u8],
    solution: &[u8],
) -> Result<AuditAnswer, OutOfMemory>
    ensures answer { IfOk result (IsAnswer format instance.now solution.now) }
    ensures verdict { IfOk result (JudgesSpelled format instance.now solution.now) }
    ensures status { IfOk result (λ answer. answer.status ≤ 2) }
    ensures sound { IfOk result (SaysSound format instance.now solution.now) }
{
    solutions_pass_iff_sound();
    audit_both(alloc, format, instance, solution)
}

/// Audits a solution against an instance in the format that has the name of this kind, like `audit_in_format`.
///
/// # Errors
///
/// `OutOfMemory`.
pub fn audit_text(
    alloc: Global,
    kind: Kind,
    instance: &[u8],
    solution: &[u8],
) -> Result<AuditAnswer, OutOfMemory>
    ensures answer { IfOk result (IsAnswer (format_of kind) instance.now solution.now) }
    ensures verdict { IfOk result (JudgesSpelled (format_of kind) instance.now solution.now) }
    ensures status { IfOk result (λ answer. answer.status ≤ 2) }
    ensures sound { IfOk result (SaysSound (format_of kind) instance.now solution.now) }
{
    audit_in_format(alloc, Format::of_kind(kind), instance, solution)
}

fn audit_both(
    alloc: Global,
    format: Format,
    instance: &[u8],
    solution: &[u8],
) -> Result<AuditAnswer, OutOfMemory>
    ensures answer { IfOk result (IsAnswer format instance.now solution.now) }
    ensures status { IfOk result (λ answer. answer.status ≤ 2) }
{
    let examined = examine(alloc, format, instance, solution)?;
    answer_of(alloc, &examined)
}

/// Audits the routes of a solution against an instance, whatever cost the solution prints. It differs from
/// `audit_in_format` in three ways: rule 11 is not checked, the cost line may be missing or have any word, and
/// lines before the first route line are skipped. So the status is 0 exactly if both texts can be parsed and the
/// routes break no other rule. Such routes are sound, serve every request, and use no more vehicles than there
/// are. After a pass, the line has their true distance.
///
/// # Errors
///
/// `OutOfMemory`.
pub fn audit_routes_text(
    alloc: Global,
    format: Format,
    instance: &[u8],
    solution: &[u8],
) -> Result<AuditAnswer, OutOfMemory>
    ensures answer { IfOk result (IsRoutesAnswer format instance.now solution.now) }
    ensures status { IfOk result (λ answer. answer.status ≤ 2) }
    ensures sound { IfOk result (SaysRoutesSound format instance.now solution.now) }
{
    solutions_pass_iff_sound();
    routes_are_judged_by_true_cost();
    audit_both_routes(alloc, format, instance, solution)
}

fn audit_both_routes(
    alloc: Global,
    format: Format,
    instance: &[u8],
    solution: &[u8],
) -> Result<AuditAnswer, OutOfMemory>
    ensures answer { IfOk result (IsRoutesAnswer format instance.now solution.now) }
    ensures status { IfOk result (λ answer. answer.status ≤ 2) }
{
    let examined = examine_routes(alloc, format, instance, solution)?;
    answer_of(alloc, &examined)
}

/// Audits a solution, or only its routes if `routes_alone` is true.
pub(crate) fn audit_by(
    alloc: Global,
    format: Format,
    routes_alone: bool,
    instance: &[u8],
    solution: &[u8],
) -> Result<AuditAnswer, OutOfMemory>
    ensures answer { IfOk result (IsAnswerBy routes_alone format instance.now solution.now) }
    ensures status { IfOk result (λ answer. answer.status ≤ 2) }
{
    if routes_alone {
        audit_routes_text(alloc, format, instance, solution)
    } else {
        audit_in_format(alloc, format, instance, solution)
    }
}

/// The result of parsing an instance and a solution, and of auditing the solution.
#[derive(Debug, Drop)]
pub enum Examination {
    /// The instance is refused.
    BadInstance(ReadFault),
    /// The routes of the solution are refused.
    BadSolution(SolFault),
    /// The solution is refused only for its cost. Holds the problem, the routes and the fault of the cost.
    BadCost(Problem, Routes, SolFault),
    /// Both texts were parsed. Holds the problem, the solution and the verdict.
    Judged(Problem, Solution, Verdict),
}

/// Parses both texts, the instance first, and audits the solution.
pub fn examine(
    alloc: Global,
    format: Format,
    instance: &[u8],
    solution: &[u8],
) -> Result<Examination, OutOfMemory>
    ensures { IfOk result (IsExamined format instance.now solution.now) }
{
    let problem = match read_instance(alloc, format, instance) {
        Ok(problem) => problem,
        Err(fault) => return bad_instance(fault),
    };
    match read_printed_routes(alloc, solution) {
        Ok(printed) => judge_printed(alloc, problem, printed),
        Err(fault) => bad_solution(fault),
    }
}

// Audits a solution, unless its cost has a fault.
fn judge_printed(
    alloc: Global,
    problem: Problem,
    printed: PrintedRoutes,
) -> Result<Examination, OutOfMemory>
    ensures { IfOk result (IsPrintedJudged problem printed.routes printed.cost) }
{
    let PrintedRoutes { routes, cost } = printed;
    match cost {
        Ok(cost) => judge(alloc, problem, Solution { routes, cost }),
        Err(fault) => Ok(Examination::BadCost(problem, routes, fault)),
    }
}

fn judge(alloc: Global, problem: Problem, solution: Solution) -> Result<Examination, OutOfMemory>
    ensures { IfOk result (IsSolutionJudged problem solution) }
{
    let verdict = audit_solution(alloc, &problem, &solution)?;
    Ok(Examination::Judged(problem, solution, verdict))
}

/// Parses both texts, the instance first, and audits only the routes of the solution. Lines before its first
/// route line are skipped, and its cost line is not parsed. The solution that is returned has a cost of 0, which
/// no verdict on routes concerns.
pub(crate) fn examine_routes(
    alloc: Global,
    format: Format,
    instance: &[u8],
    solution: &[u8],
) -> Result<Examination, OutOfMemory>
    ensures { IfOk result (AreRoutesExamined format instance.now solution.now) }
{
    let problem = match read_instance(alloc, format, instance) {
        Ok(problem) => problem,
        Err(fault) => return bad_instance(fault),
    };
    match read_routes(alloc, solution) {
        Ok(routes) => judge_routes(alloc, problem, routes),
        Err(fault) => bad_solution(fault),
    }
}

fn judge_routes(alloc: Global, problem: Problem, routes: Routes) -> Result<Examination, OutOfMemory>
    ensures { IfOk result (AreTheseRoutesJudged problem routes) }
{
    let verdict = audit_routes(alloc, &problem, routes.as_slice())?;
    let solution = Solution { routes, cost: 0 };
    Ok(Examination::Judged(problem, solution, verdict))
}

/// Parses both texts, and audits the solution, or only its routes if `routes_alone` is true.
pub(crate) fn examine_by(
    alloc: Global,
    format: Format,
    routes_alone: bool,
    instance: &[u8],
    solution: &[u8],
) -> Result<Examination, OutOfMemory>
    ensures { IfOk result (IsExaminedBy routes_alone format instance.now solution.now) }
{
    if routes_alone {
        examine_routes(alloc, format, instance, solution)
    } else {
        examine(alloc, format, instance, solution)
    }
}

// Returns an error if memory ran out, since the instance is not refused then.
fn bad_instance(fault: ReadFault) -> Result<Examination, OutOfMemory>
    ensures { IfOk result (λ examined. (fault.kind ≢ ReadFaultKind.OutOfMemory)
        × (examined ≡ BadInstance fault)) }
{
    match fault.kind {
        ReadFaultKind::OutOfMemory => Err(AllocError),
        _ => Ok(Examination::BadInstance(fault)),
    }
}

// Returns an error if memory ran out, since the solution is not refused then.
fn bad_solution(fault: SolFault) -> Result<Examination, OutOfMemory>
    ensures { IfOk result (λ examined. (fault.kind ≢ SolFaultKind.OutOfMemory)
        × (examined ≡ BadSolution fault)) }
{
    match fault.kind {
        SolFaultKind::OutOfMemory => Err(AllocError),
        _ => Ok(Examination::BadSolution(fault)),
    }
}

/// Returns the answer for the examined texts.
pub fn answer_of(alloc: Global, examined: &Examination) -> Result<AuditAnswer, OutOfMemory>
    ensures { IfOk result (λ answer. answer ≡ answer_of examined.now) }
{
    match examined {
        Examination::BadInstance(fault) => refused(alloc, "instance", fault.name(), fault.line),
        Examination::BadSolution(fault) | Examination::BadCost(_, _, fault) => {
            refused(alloc, "solution", fault.name(), fault.line)
        }
        Examination::Judged(_, _, verdict) => verdict_answer(alloc, *verdict),
    }
}

fn refused(alloc: Global, text: &str, name: &str, line: u64) -> Result<AuditAnswer, OutOfMemory>
    ensures { IfOk result (λ answer. answer ≡ refused_answer text.now name.now line) }
{
    let line = fault_line(alloc, text, name, line)?;
    Ok(AuditAnswer {
        line,
        status: REFUSED,
    })
}

/// Returns the answer for a verdict.
pub fn verdict_answer(alloc: Global, verdict: Verdict) -> Result<AuditAnswer, OutOfMemory>
    ensures { IfOk result (λ answer. answer ≡ verdict_answer verdict) }
{
    match verdict {
        Verdict::Pass(cost) => Ok(AuditAnswer {
            line: pass_line(alloc, cost)?,
            status: DONE,
        }),
        Verdict::Broken {
            rule,
            route,
            place,
            stop,
        } => Ok(AuditAnswer {
            line: broken_line(alloc, rule, route, place, stop)?,
            status: BROKEN,
        }),
    }
}
