//! The text for a verdict, and the line with the distance of routes whose solution is refused because of its
//! cost.
ghost use Rattle.std.specs.Prelude.{◌≡◌, ◌++◌, ℕ, All, IfOk, IsTrue, OnOk, string_bytes};
ghost use Rattle.route_sched.specs.Route.{AreDistinctStops};
ghost use Rattle.plan_audit.specs.Verdict.{IsVerdict, printed};
ghost use Rattle.rule_violations.specs.KnownSchedule.{schedule_is_known};
ghost use Rattle.plan_explain.specs.VerdictTexts.{distance_text, fault_text, route_shown, shown_text, verdict_schedule_is_known, verdict_text};
ghost use Rattle.plan_explain.specs.Sentences.{reported_route, reported_row, sentence};

use crate::other_violations::{RULES, put_later_rules, put_other_violations};
use crate::rows::Row;
use crate::sentences as say;
use crate::stop_visits::rows_of;
use crate::summaries::put_summary;
use crate::tables::{put_stops, put_table};
use crate::templates::Value::Long;
use crate::templates::put_template;
use plan_audit::{Rule, Verdict};
use plan_types::{OutOfMemory, Problem, Route};
use route_sched::total_distance;
use rule_violations::schedule_is_known;
use sol_text::Solution;
use std::alloc::Global;
use text_buffer::TextBuffer;

/// Returns the explanation of a verdict, in whole lines. For a broken rule it has a sentence with the values at
/// the first violation, the route place by place, and the numbers of other violations. For a solution that
/// passes it has a line for each route, and the sums.
///
/// `verdict` may be the verdict on the same routes with another printed cost. If it reports a wrong cost, the
/// text shows the cost of `solution`.
pub fn explain_verdict(
    alloc: Global,
    problem: &Problem,
    solution: &Solution,
    verdict: Verdict,
) -> Result<String, OutOfMemory>
    requires { (cost : ℕ) × IsVerdict problem.now (printed solution.now.routes cost) verdict }
    ensures { IfOk result (λ text. string_bytes text
        ≡ verdict_text problem.now solution.now verdict) }
{
    let mut text = TextBuffer::new(alloc);
    put_verdict(alloc, &mut text, problem, solution, verdict)?;
    text.into_string()
}

fn put_verdict(
    alloc: Global,
    text: &mut TextBuffer,
    problem: &Problem,
    solution: &Solution,
    verdict: Verdict,
) -> Result<(), OutOfMemory>
    requires { (cost : ℕ) × IsVerdict problem.now (printed solution.now.routes cost) verdict }
    ensures { OnOk result (text.new ≡ text.old
        ++ verdict_text problem.now solution.now verdict) }
{
    let routes = solution.routes.as_slice();
    match verdict {
        Verdict::Pass(_) => put_summary(alloc, text, problem, routes),
        Verdict::Broken {
            rule,
            route,
            place,
            stop,
        } => {
            let Some(rule) = Rule::from_number(rule) else {
                return Ok(());
            };
            let fault = Fault {
                rule,
                route,
                place,
                stop,
                printed: solution.cost,
            };
            put_fault(alloc, text, problem, routes, &fault)
        }
    }
}

/// The first violation of a verdict, and the printed cost. Routes and places count from 1, and are 0 if the
/// violation has none.
#[derive(Clone, Copy)]
pub(crate) struct Fault {
    pub rule: Rule,
    pub route: u64,
    pub place: u64,
    pub stop: u32,
    pub printed: u64,
}

fn put_fault(
    alloc: Global,
    text: &mut TextBuffer,
    problem: &Problem,
    routes: &[Route],
    fault: &Fault,
) -> Result<(), OutOfMemory>
    requires { IsTrue (schedule_is_known fault.now.rule) → All (AreDistinctStops problem.now) routes.now }
    ensures { OnOk result (text.new ≡ text.old ++ fault_text problem.now routes.now fault.now) }
{
    put_sentence(alloc, text, problem, routes, fault)?;
    text.push_str("\n");
    put_shown(alloc, text, problem, routes, fault.rule, fault.route)?;
    put_other_violations(alloc, text, problem, routes, fault.rule)?;
    put_later_rules(alloc, text, problem, routes, fault.rule, &RULES)
}

// Appends the sentence on a broken rule.
fn put_sentence(
    alloc: Global,
    text: &mut TextBuffer,
    problem: &Problem,
    routes: &[Route],
    fault: &Fault,
) -> Result<(), OutOfMemory>
    requires { IsTrue (schedule_is_known fault.now.rule) → All (AreDistinctStops problem.now) routes.now }
    ensures { OnOk result (text.new ≡ text.old ++ sentence problem.now routes.now fault.now) }
{
    let stops = reported_route(routes, fault.route);
    let (place, stop) = (fault.place, fault.stop);
    match fault.rule {
        Rule::UnknownStop => say::put_unknown(text, problem, routes, stop),
        Rule::VisitedTwice => say::put_stop(
            text,
            "visited twice: stop @ is @ already",
            routes,
            stop,
        ),
        Rule::MissingStop => say::put_pair(
            text,
            "missing stop: stop @ is @",
            problem,
            routes,
            stop,
        ),
        Rule::SplitPair => say::put_pair(text, "split pair: stop @ is @", problem, routes, stop),
        Rule::EarlyDelivery => {
            say::put_delivery_first(text, "early delivery: stop @ is @", problem, routes, stop)
        }
        Rule::Load => say::put_overload(text, problem, reported_row(alloc, problem, stops, place)?),
        Rule::Late => say::put_late(text, reported_row(alloc, problem, stops, place)?),
        Rule::LateReturn => say::put_late_return(text, problem, stops),
        Rule::Fleet => say::put_fleet(text, problem, routes),
        Rule::Pin => {}
        Rule::PrintedCost => say::put_cost(text, problem, routes, fault.printed),
    }
    Ok(())
}

// Appends the routes that explain the violation: its own route as a table, or for a wrong cost a line for each
// route.
fn put_shown(
    alloc: Global,
    text: &mut TextBuffer,
    problem: &Problem,
    routes: &[Route],
    rule: Rule,
    route: u64,
) -> Result<(), OutOfMemory>
    requires { IsTrue (schedule_is_known rule) → All (AreDistinctStops problem.now) routes.now }
    ensures { OnOk result (text.new ≡ text.old ++ shown_text problem.now routes.now rule route) }
{
    match rule {
        Rule::PrintedCost => put_summary(alloc, text, problem, routes),
        _ => put_route_shown(alloc, text, problem, routes, rule, route),
    }
}

// Appends the route of the violation as a table, without times if the schedule is not known. Route 0 means that
// the violation has no route.
fn put_route_shown(
    alloc: Global,
    text: &mut TextBuffer,
    problem: &Problem,
    routes: &[Route],
    rule: Rule,
    route: u64,
) -> Result<(), OutOfMemory>
    requires { IsTrue (schedule_is_known rule) → All (AreDistinctStops problem.now) routes.now }
    ensures { OnOk result (text.new ≡ text.old ++ route_shown problem.now routes.now rule route) }
{
    if route == 0 {
        return Ok(());
    }
    let stops = reported_route(routes, route);
    if schedule_is_known(rule) {
        put_table(alloc, text, problem, stops)
    } else {
        put_stops(text, "place   stop\n", stops);
        Ok(())
    }
}

// Returns the stops of the route with this number, counted from 1. If there is no such route, there are no
// stops.
fn reported_route(routes: &[Route], route: u64) -> &[u32]
    ensures { result.now ≡ reported_route routes.now route }
{
    if route == 0 {
        return &[];
    }
    match routes.get(route as usize - 1) {
        Some(stops) => stops.as_slice(),
        None => &[],
    }
}

// Returns the row at this place of a route, counted from 1, or `None` if the route has no such place.
fn reported_row(
    alloc: Global,
    problem: &Problem,
    route: &[u32],
    place: u64,
) -> Result<Option<Row>, OutOfMemory>
    requires { AreDistinctStops problem.now route.now }
    ensures { IfOk result (λ row. row ≡ reported_row problem.now route.now place) }
{
    if place == 0 {
        return Ok(None);
    }
    let rows = rows_of(alloc, problem, route)?;
    Ok(rows.as_slice().get(place as usize - 1).copied())
}

/// Returns a line with the distance of the routes, in the problem's unit. Returns an empty text if a stop is
/// unknown or appears twice, since the distance is not known then. `verdict` is the verdict on these routes with
/// any printed cost.
pub fn explain_distance(
    alloc: Global,
    problem: &Problem,
    routes: &[Route],
    verdict: Verdict,
) -> Result<String, OutOfMemory>
    requires { (cost : ℕ) × IsVerdict problem.now (printed routes.now cost) verdict }
    ensures { IfOk result (λ text. string_bytes text
        ≡ distance_text problem.now routes.now verdict) }
{
    let mut text = TextBuffer::new(alloc);
    put_distance(&mut text, problem, routes, verdict);
    text.into_string()
}

fn put_distance(text: &mut TextBuffer, problem: &Problem, routes: &[Route], verdict: Verdict)
    requires { (cost : ℕ) × IsVerdict problem.now (printed routes.now cost) verdict }
    ensures { text.new ≡ text.old ++ distance_text problem.now routes.now verdict }
{
    if verdict_schedule_is_known(verdict) {
        let distance = Long(total_distance(problem, routes));
        let words = "distance that the routes drive, each way rounded: @\n";
        put_template(text, words, &[distance]);
    }
}

/// Returns whether routes with this verdict have no unknown stop and no stop twice, so that their schedule is
/// known.
pub fn verdict_schedule_is_known(verdict: Verdict) -> bool
    ensures { result ≡ verdict_schedule_is_known verdict }
{
    match verdict {
        Verdict::Pass(_) => true,
        Verdict::Broken { rule, .. } => match Rule::from_number(rule) {
            Some(rule) => schedule_is_known(rule),
            None => false,
        },
    }
}
