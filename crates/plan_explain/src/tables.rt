//! A route as a table.
ghost use Rattle.std.specs.Prelude.{◌≡◌, ◌++◌, OnOk};
ghost use Rattle.std.specs.List.{flat_map};
ghost use Rattle.route_sched.specs.Route.{AreDistinctStops};
ghost use Rattle.plan_explain.specs.Tables.{row_values_text, heading, row_text, stop_row, stop_rows, stops_table, table_text};

use crate::stop_visits::{StopVisit, stop_visits_of};
use crate::templates::Value::{Left, Right, RightSigned, TextIf};
use crate::templates::put_template;
use plan_types::{Kind, OutOfMemory, Problem};
use rule_violations::{is_late, is_overload};
use std::alloc::Global;
use text_buffer::TextBuffer;

/// Appends the table of a route: each place with the leg to it, its times, window, service and load. The return
/// is the last row. In a problem of kind `Vrp`, rows have no start, window and service.
pub(crate) fn put_table(
    alloc: Global,
    text: &mut TextBuffer,
    problem: &Problem,
    route: &[u32],
) -> Result<(), OutOfMemory>
    requires { AreDistinctStops problem.now route.now }
    ensures { OnOk result (text.new ≡ text.old ++ table_text problem.now route.now) }
{
    let visits = stop_visits_of(alloc, problem, route)?;
    text.push_str(heading(problem.kind));
    put_rows(text, problem, visits.as_slice());
    Ok(())
}

fn heading(kind: Kind) -> &'static str
    ensures { result.now ≡ heading kind }
{
    match kind {
        Kind::LiLim =>
            "place   stop      leg    arrival      start         window          service      load\n",
        Kind::Vrp => "place   stop      leg      load\n",
    }
}

fn put_rows(text: &mut TextBuffer, problem: &Problem, visits: &[StopVisit])
    ensures { text.new ≡ text.old ++ flat_map (row_text problem.now) visits.now }
{
    for visit in visits {
        put_row(text, problem, visit);
    }
}

fn put_row(text: &mut TextBuffer, problem: &Problem, visit: &StopVisit)
    ensures { text.new ≡ text.old ++ row_text problem.now visit.now }
{
    let much = is_overload(problem, visit.row.load);
    let late = is_late(problem, visit.row.start, visit.row.latest);
    put_row_values(text, problem.kind, visit, much, late);
}

// Appends the values of a row, marked as `overload` if `much` is true and as `late` if `late` is true.
#[tactic(auto, unfolding(crate::specs::Tables::row_values_text))]
fn put_row_values(text: &mut TextBuffer, kind: Kind, visit: &StopVisit, much: bool, late: bool)
    ensures { text.new ≡ text.old ++ row_values_text kind visit.now much late }
{
    let row = &visit.row;
    let (place, stop) = (Right(5, row.place), Right(6, u64::from(row.stop)));
    let (leg, load) = (Right(8, u64::from(visit.leg)), RightSigned(9, row.load));
    let (much, late) = (TextIf("  overload", much), TextIf("  late", late));
    match kind {
        Kind::LiLim => {
            let (arrival, start) = (Right(10, row.arrival), Right(10, row.start));
            let earliest = Right(10, u64::from(row.earliest));
            let latest = Left(10, u64::from(row.latest));
            let service = Right(8, u64::from(visit.service));
            let values = [
                place, stop, leg, arrival, start, earliest, latest, service, load, much, late,
            ];
            put_template(text, "@ @ @ @ @ @..@ @ @@@\n", &values)
        }
        Kind::Vrp => {
            let values = [place, stop, leg, load, much, late];
            put_template(text, "@ @ @ @@@\n", &values)
        }
    }
}

/// Appends this heading, and the places of a route with their stops but without times.
#[tactic(auto, unfolding(crate::specs::Tables::stops_table))]
pub(crate) fn put_stops(text: &mut TextBuffer, heading: &str, route: &[u32])
    ensures { text.new ≡ text.old ++ stops_table heading.now route.now }
{
    text.push_str(heading);
    put_stop_rows(text, route);
}

fn put_stop_rows(text: &mut TextBuffer, route: &[u32])
    ensures { text.new ≡ text.old ++ stop_rows 1 route.now }
{
    for (place, stop) in route.iter().enumerate() {
        put_stop_row(text, place as u64 + 1, *stop);
    }
}

fn put_stop_row(text: &mut TextBuffer, place: u64, stop: u32)
    ensures { text.new ≡ text.old ++ stop_row place stop }
{
    put_template(text, "@ @\n", &[Right(5, place), Right(6, u64::from(stop))]);
}
