//! The lines of all stops, in ascending order of number.
ghost use Rattle.std.specs.Prelude.{◌≡◌, ◌++◌, ◌≤◌, ◌-◌, ℕ, map, OnOk};
ghost use Rattle.std.specs.Option.{option_map_or};
ghost use Rattle.text_lines.specs.Lines.{with_line_feed};
ghost use Rattle.plan_types.specs.Instance.{stop_at};
ghost use Rattle.instance_text.specs.Texts.{customer_line, lines_text, named_delivery, named_pickup, row_line, stops_from, visits};

use crate::lines::put_line;
use plan_types::{Problem, Stop};
use std::alloc::AllocError;

/// The kind of a line for a stop.
#[derive(Clone, Copy)]
pub(crate) enum StopLine {
    /// A task with all fields of the stop, in Li and Lim's format.
    Task,
    /// A task without the other stop of its pair, in Solomon's format.
    Customer,
    /// The coordinates of a node, in CVRPLIB's format.
    Node,
    Demand,
}

/// Appends a line for the depot, and then one for each stop of a request.
pub(crate) fn put_visits(
    text: &mut Vec<u8>,
    problem: &Problem,
    row: StopLine,
) -> Result<(), AllocError>
    ensures { OnOk result (text.new.items
        ≡ text.old.items ++ lines_text (map (row_line problem.now row) (visits problem.now))) }
{
    put_stop(text, problem, row, &problem.depot)?;
    put_stops(text, problem, row)
}

fn put_stops(text: &mut Vec<u8>, problem: &Problem, row: StopLine) -> Result<(), AllocError>
    ensures { OnOk result (text.new.items ≡ text.old.items
        ++ lines_text (map (row_line problem.now row)
        (stops_from problem.now 1 (problem.now.next_number - 1)))) }
{
    for number in 1..problem.next_number {
        put_numbered(text, problem, row, number)?;
    }
    Ok(())
}

// Appends the line of the stop with this number, if there is one.
fn put_numbered(
    text: &mut Vec<u8>,
    problem: &Problem,
    row: StopLine,
    number: u32,
) -> Result<(), AllocError>
    ensures { OnOk result (text.new.items ≡ text.old.items
        ++ lines_text (map (row_line problem.now row) (stops_from problem.now number 1))) }
{
    match problem.stop(number) {
        Some(stop) => put_stop(text, problem, row, stop),
        None => Ok(()),
    }
}

fn put_stop(
    text: &mut Vec<u8>,
    problem: &Problem,
    row: StopLine,
    stop: &Stop,
) -> Result<(), AllocError>
    requires { stop.now.number ≤ 40000 }
    ensures { OnOk result (text.new.items
        ≡ text.old.items ++ with_line_feed (row_line problem.now row stop.now)) }
{
    match row {
        StopLine::Task => put_task(text, problem, stop),
        StopLine::Customer => put_customer(text, stop),
        StopLine::Node => put_line(
            text,
            &[
                i64::from(stop.number + 1),
                i64::from(stop.x),
                i64::from(stop.y),
            ],
        ),
        StopLine::Demand => put_line(text, &[i64::from(stop.number + 1), i64::from(stop.demand)]),
    }
}

fn put_task(text: &mut Vec<u8>, problem: &Problem, stop: &Stop) -> Result<(), AllocError>
    ensures { OnOk result (text.new.items
        ≡ text.old.items ++ with_line_feed (row_line problem.now StopLine.Task stop.now)) }
{
    put_line(
        text,
        &[
            i64::from(stop.number),
            i64::from(stop.x),
            i64::from(stop.y),
            i64::from(stop.demand),
            i64::from(stop.earliest),
            i64::from(stop.latest),
            i64::from(stop.service),
            i64::from(named_pickup(problem, stop.number)),
            i64::from(named_delivery(problem, stop.number)),
        ],
    )
}

fn put_customer(text: &mut Vec<u8>, stop: &Stop) -> Result<(), AllocError>
    ensures { OnOk result (text.new.items
        ≡ text.old.items ++ with_line_feed (customer_line stop.now)) }
{
    put_line(
        text,
        &[
            i64::from(stop.number),
            i64::from(stop.x),
            i64::from(stop.y),
            i64::from(stop.demand),
            i64::from(stop.earliest),
            i64::from(stop.latest),
            i64::from(stop.service),
        ],
    )
}

// Returns the pickup of a delivery, or 0.
fn named_pickup(problem: &Problem, number: u32) -> u32
    ensures { result ≡ named_pickup problem.now number }
{
    problem.pickup_of(number).unwrap_or(0)
}

// Returns the delivery of a pickup, or 0.
fn named_delivery(problem: &Problem, number: u32) -> u32
    ensures { result ≡ named_delivery problem.now number }
{
    if problem.pickup_of(number).is_some() {
        0
    } else {
        problem.partner_of(number).unwrap_or(0)
    }
}
