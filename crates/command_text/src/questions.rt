//! The answers to questions about a job, and their refusals.
ghost use Rattle.std.specs.Prelude.{◌≡◌, [], All, IfOk, string_bytes, true, unwrap_or};
ghost use Rattle.plan_types.specs.Instance.{name_at};
ghost use Rattle.route_sched.specs.Route.{AreDistinctStops};
ghost use Rattle.plan_timetable.specs.declared.forms.Form.TheVariants.{Columns};
ghost use Rattle.plan_timetable.specs.Timetable.{timetable_text, vehicle_text};
ghost use Rattle.plan_audit.specs.Passes.{passes};
ghost use Rattle.request_explanation.specs.Why.{why_at};
ghost use Rattle.move_ops.specs.Insertion.{route_of};
ghost use Rattle.seeded_search.specs.Steps.{unplanned_names};
ghost use Rattle.command_text.specs.Questions.{question_refusal, question_text, stop_refusal, vehicle_refusal};

use crate::showing::Text;
use command_core::{Job, Refusal, unplanned_names};
use move_ops::route_of;
use plan_audit::{passing_is_local, plans_are_disjoint_routes};
use plan_timetable::{Form, timetable, vehicle_timetable};
use plan_types::{OutOfMemory, Pins, Plan, Problem, Route};
use request_explanation::why;
use std::alloc::Global;

/// A question about a job.
#[derive(Clone, Copy, Debug, PartialEq, Eq)]
pub enum Question {
    /// The timetable of every vehicle.
    Timetable,
    /// The timetable of this vehicle, counted from 1.
    VehicleTimetable(u32),
    /// The place and time at which the request with this stop is served, or the reason why it is in no route.
    Why(u32),
}

/// Returns the refusal of a question, if it is refused: `Range` for a vehicle outside the fleet, `NoSuchRequest`
/// for a stop that no request has.
pub fn question_refusal(job: &Job, question: Question) -> Option<Refusal>
    ensures { result ≡ question_refusal job.now question }
{
    match question {
        Question::Timetable => None,
        Question::VehicleTimetable(vehicle) => vehicle_refusal(&job.problem, vehicle),
        Question::Why(stop) => stop_refusal(&job.problem, stop),
    }
}

fn vehicle_refusal(problem: &Problem, vehicle: u32) -> Option<Refusal>
    ensures { result ≡ vehicle_refusal problem.now vehicle }
{
    if 1 <= vehicle && vehicle <= problem.fleet {
        None
    } else {
        Some(Refusal::Range)
    }
}

fn stop_refusal(problem: &Problem, stop: u32) -> Option<Refusal>
    ensures { result ≡ stop_refusal (name_at problem.now stop) }
{
    match problem.name_of(stop) {
        Some(_) => None,
        None => Some(Refusal::NoSuchRequest),
    }
}

/// Returns the answer to a question about a job, in whole lines for people.
pub fn question_text(alloc: Global, job: &Job, question: Question) -> Result<Text, OutOfMemory>
    ensures { IfOk result (λ text. text ≡ question_text job.now question) }
{
    Ok(Text::from_string(answer_string(alloc, job, question)?))
}

fn answer_string(alloc: Global, job: &Job, question: Question) -> Result<String, OutOfMemory>
    ensures { IfOk result (λ text. string_bytes text ≡ question_text job.now question) }
{
    passing_is_local();
    plans_are_disjoint_routes();
    let problem = &job.problem;
    let routes = job.plan.routes.as_slice();
    match question {
        Question::Timetable => {
            let pins = job.pins.routes.as_slice();
            fleet_timetable(alloc, problem, pins, routes)
        }
        Question::VehicleTimetable(vehicle) => one_vehicle_timetable(
            alloc, problem, routes, vehicle,
        ),
        Question::Why(stop) => explanation(alloc, problem, &job.pins, &job.plan, stop),
    }
}

fn fleet_timetable(
    alloc: Global,
    problem: &Problem,
    pins: &[Route],
    routes: &[Route],
) -> Result<String, OutOfMemory>
    requires { All (AreDistinctStops problem.now) routes.now }
    ensures { IfOk result (λ text. string_bytes text ≡ timetable_text Columns problem.now
        pins.now routes.now (unplanned_names problem.now routes.now)) }
{
    let unplanned = unplanned_names(alloc, problem, routes)?;
    let names = unplanned.as_slice();
    timetable(alloc, problem, pins, routes, names, Form::Columns)
}

fn one_vehicle_timetable(
    alloc: Global,
    problem: &Problem,
    routes: &[Route],
    vehicle: u32,
) -> Result<String, OutOfMemory>
    requires { All (AreDistinctStops problem.now) routes.now }
    ensures { IfOk result (λ text. string_bytes text
        ≡ vehicle_text Columns problem.now vehicle (route_of routes.now vehicle)) }
{
    let vehicle = u64::from(vehicle);
    let route = route_of(routes, vehicle);
    vehicle_timetable(alloc, problem, vehicle, route, Form::Columns)
}

// Returns where and when the request with this stop is served, or why it is in no route. The text is empty if no
// request has the stop.
fn explanation(
    alloc: Global,
    problem: &Problem,
    pins: &Pins,
    plan: &Plan,
    stop: u32,
) -> Result<String, OutOfMemory>
    requires { passes problem.now pins.now.routes plan.now.routes ≡ true }
    ensures { IfOk result (λ text. string_bytes text
        ≡ unwrap_or (why_at problem.now pins.now.routes plan.now.routes stop) []) }
{
    match why(alloc, problem, pins, plan, stop)? {
        Some(text) => Ok(text),
        None => Ok(String::new(alloc)),
    }
}
