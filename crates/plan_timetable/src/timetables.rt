//! The whole timetable.
ghost use Rattle.std.specs.Prelude.{◌≡◌, ◌++◌, All, IfOk, OnOk, string_bytes};
ghost use Rattle.route_sched.specs.Route.{AreDistinctStops};
ghost use Rattle.plan_timetable.specs.Timetable.{gap, line_prefix_of, timetable_text, unplanned_line, unplanned_text, vehicle_text};

use crate::cells::{put_field, put_word};
use crate::forms::Form;
use crate::vehicles::{put_blocks, put_vehicle};
use crate::words::Word;
use plan_types::{OutOfMemory, Problem, Route};
use request_explanation::{LinePrefix, put_reason};
use std::alloc::Global;
use text_buffer::TextBuffer;

/// Returns the timetable of a plan in whole lines. It has the totals of each used vehicle, with a line for each
/// stop and for the return. Then it has each of these unplanned requests, by name, and why it is in no route
/// (see `request_explanation`). Vehicles and places count from 1, in the order of the routes.
///
/// Times and distances are in the problem's unit, loads in the unit of its demands. The stops of each route must
/// be known and distinct; the route may break any other rule. For the reasons, an unplanned request is tried
/// only at places after the pin of a route.
pub fn timetable(
    alloc: Global,
    problem: &Problem,
    pins: &[Route],
    routes: &[Route],
    unplanned: &[u32],
    form: Form,
) -> Result<String, OutOfMemory>
    requires { All (AreDistinctStops problem.now) routes.now }
    ensures { IfOk result (λ text. string_bytes text
        ≡ timetable_text form problem.now pins.now routes.now unplanned.now) }
{
    let mut text = TextBuffer::new(alloc);
    put_blocks(alloc, &mut text, form, problem, routes)?;
    put_unplanned(alloc, &mut text, form, problem, pins, routes, unplanned)?;
    text.into_string()
}

/// Returns the totals and lines of this vehicle, as `timetable` has them, or no text if it is not used.
pub fn vehicle_timetable(
    alloc: Global,
    problem: &Problem,
    vehicle: u64,
    route: &[u32],
    form: Form,
) -> Result<String, OutOfMemory>
    requires { AreDistinctStops problem.now route.now }
    ensures { IfOk result (λ text. string_bytes text
        ≡ vehicle_text form problem.now vehicle route.now) }
{
    let mut text = TextBuffer::new(alloc);
    put_vehicle(alloc, &mut text, form, problem, vehicle, route)?;
    text.into_string()
}

// Appends the lines of unplanned requests.
fn put_unplanned(
    alloc: Global,
    text: &mut TextBuffer,
    form: Form,
    problem: &Problem,
    pins: &[Route],
    routes: &[Route],
    names: &[u32],
) -> Result<(), OutOfMemory>
    requires { All (AreDistinctStops problem.now) routes.now }
    ensures { OnOk result (text.new ≡ text.old
        ++ unplanned_text form problem.now pins.now routes.now names.now) }
{
    put_gap(text, form, names);
    for name in names {
        put_name(text, form, *name);
        put_reason(
            alloc,
            text,
            line_prefix_of(form),
            problem,
            pins,
            routes,
            *name,
        )?;
    }
    Ok(())
}

// Appends the gap before the unplanned requests, if there are any.
fn put_gap(text: &mut TextBuffer, form: Form, names: &[u32])
    ensures { text.new ≡ text.old ++ gap form names.now }
{
    if names.is_empty() {
        return;
    }
    put_word(text, form, Word::Gap);
}

fn put_name(text: &mut TextBuffer, form: Form, name: u32)
    ensures { text.new ≡ text.old ++ unplanned_line form name }
{
    put_field(text, form, Word::Unplanned, u64::from(name));
    text.push_str("\n");
}

// Returns the prefix of the lines that explain a request.
fn line_prefix_of(form: Form) -> LinePrefix
    ensures { result ≡ line_prefix_of form }
{
    match form {
        Form::Columns => LinePrefix::Named,
        Form::Tabs => LinePrefix::Tabbed,
    }
}
