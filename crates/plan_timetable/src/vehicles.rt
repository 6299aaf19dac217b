//! The block of a vehicle: its totals, and a line for each place of its route.
ghost use Rattle.std.specs.Prelude.{◌≡◌, ◌<◌, ◌++◌, All, OnOk, length};
ghost use Rattle.route_sched.specs.Route.{AreDistinctStops};
ghost use Rattle.text_lines.specs.Lines.{with_line_feed};
ghost use Rattle.plan_timetable.specs.Timetable.{block_text, blocks_from, day_text, heading, top_load_text, vehicle_line, vehicle_text, totals_text};

use crate::cells::{put_field, put_word};
use crate::entries::entries;
use crate::forms::Form;
use crate::lines::put_entries;
use crate::words::Word;
use plan_explain::{Summary, summary_of};
use plan_types::{Kind, OutOfMemory, Problem, Route};
use std::alloc::Global;
use text_buffer::TextBuffer;

/// Appends the block of each used vehicle.
pub(crate) fn put_blocks(
    alloc: Global,
    text: &mut TextBuffer,
    form: Form,
    problem: &Problem,
    routes: &[Route],
) -> Result<(), OutOfMemory>
    requires { All (AreDistinctStops problem.now) routes.now }
    ensures { OnOk result (text.new ≡ text.old ++ blocks_from form problem.now 1 routes.now) }
{
    for (place, route) in routes.iter().enumerate() {
        put_vehicle(
            alloc,
            text,
            form,
            problem,
            place as u64 + 1,
            route.as_slice(),
        )?;
    }
    Ok(())
}

/// Appends the block of a vehicle, if it is used.
pub(crate) fn put_vehicle(
    alloc: Global,
    text: &mut TextBuffer,
    form: Form,
    problem: &Problem,
    vehicle: u64,
    route: &[u32],
) -> Result<(), OutOfMemory>
    requires { AreDistinctStops problem.now route.now }
    ensures { OnOk result (text.new ≡ text.old
        ++ vehicle_text form problem.now vehicle route.now) }
{
    if route.is_empty() {
        return Ok(());
    }
    put_block(alloc, text, form, problem, vehicle, route)
}

fn put_block(
    alloc: Global,
    text: &mut TextBuffer,
    form: Form,
    problem: &Problem,
    vehicle: u64,
    route: &[u32],
) -> Result<(), OutOfMemory>
    requires route { AreDistinctStops problem.now route.now }
    requires used { 0 < length route.now }
    ensures { OnOk result (text.new ≡ text.old ++ block_text form problem.now vehicle route.now) }
{
    let kind = problem.kind;
    let summary = summary_of(alloc, problem, route)?;
    let entries = entries(alloc, problem, route)?;
    put_vehicle_line(text, form, kind, vehicle, &summary);
    put_word(text, form, heading(kind));
    put_entries(text, form, kind, vehicle, entries.as_slice());
    Ok(())
}

fn heading(kind: Kind) -> Word
    ensures { result ≡ heading kind }
{
    match kind {
        Kind::LiLim => Word::TimesHeading,
        Kind::Vrp => Word::LoadsHeading,
    }
}

fn put_vehicle_line(text: &mut TextBuffer, form: Form, kind: Kind, vehicle: u64, summary: &Summary)
    ensures { text.new ≡ text.old ++ vehicle_line form kind vehicle summary.now }
{
    put_totals(text, form, vehicle, summary);
    put_top_load(text, form, summary);
    put_line_end(text, form, kind, summary)
}

fn put_totals(text: &mut TextBuffer, form: Form, vehicle: u64, summary: &Summary)
    ensures { text.new ≡ text.old ++ totals_text form vehicle summary.now }
{
    put_field(text, form, Word::Vehicle, vehicle);
    put_field(text, form, Word::Stops, summary.stops);
    put_field(text, form, Word::Distance, summary.distance)
}

fn put_top_load(text: &mut TextBuffer, form: Form, summary: &Summary)
    ensures { text.new ≡ text.old ++ top_load_text form summary.now }
{
    put_word(text, form, Word::Load);
    text.push_number(summary.load);
}

fn put_line_end(text: &mut TextBuffer, form: Form, kind: Kind, summary: &Summary)
    ensures { text.new ≡ text.old ++ with_line_feed (day_text form kind summary.now) }
{
    put_day(text, form, kind, summary);
    text.push_str("\n");
}

// Appends departure, return and waiting time, or nothing in a problem of kind `Vrp`.
fn put_day(text: &mut TextBuffer, form: Form, kind: Kind, summary: &Summary)
    ensures { text.new ≡ text.old ++ day_text form kind summary.now }
{
    match kind {
        Kind::LiLim => {
            put_field(text, form, Word::Departure, summary.departure);
            put_field(text, form, Word::Return, summary.return_time);
            put_field(text, form, Word::Waiting, summary.waiting)
        }
        Kind::Vrp => {}
    }
}
