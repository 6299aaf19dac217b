//! The timetable of a plan: the stops of each vehicle with arrival, start, waiting time, latest start and load,
//! and the stops after which a pin may end.
//!
//! `timetable` prints a plan, `vehicle_timetable` one of its vehicles, and `solution_timetable` a printed
//! solution with its verdict. `planner_cli` calls them for the `timetable` subcommand, `command_text` for the
//! command `timetable [V]`.
//!
//! The text has a block for each used vehicle, with a line for each of its stops and one for the return. At the
//! end it has each unplanned request, with the reason (`request_explanation`).
//!
//! `Form` chooses columns under headings, or fields separated by tabs. With tabs, the first field says what a
//! line is about, and each line of a stop has the number of its vehicle. A problem of kind `Vrp` has no
//! windows, so its lines have no times except arrivals. A latest start is printed only if the route alone is
//! feasible; otherwise something is late or overloaded already.
//!
//! Source: this project's own. Arrivals, starts, loads and distances are those of `route_sched`, latest starts
//! those of `slack_tables`. A pin may end after a stop if the stops up to it are a feasible route by
//! `plan_audit`.
//!
//! Modules, in reading order:
//! - `forms`: columns or tabs
//! - `words`: the words, in each form
//! - `cells`: numbers in their columns, or after tabs
//! - `pin_ends`: the stops after which a pin may end
//! - `slack`: the latest start of service
//! - `entries`: the values of each place of a route
//! - `lines`: the line of a place
//! - `vehicles`: the block of a vehicle
//! - `timetables`: `timetable`, `vehicle_timetable`
//! - `solution_timetables`: `solution_timetable`
//! - `laws`: the meaning of a latest start
//!
//! Proved: the printed bytes are exactly those of the definitions in `specs/Timetable.antt`, or memory runs
//! out. A solution in which a stop is unknown or appears twice has an empty timetable. The latest start of a
//! place is the greatest one from which neither this service nor a later one nor the return is late.
#![tactic(auto)]

mod cells;
mod entries;
mod forms;
mod laws;
mod lines;
mod pin_ends;
mod slack;
mod solution_timetables;
mod timetables;
mod vehicles;
mod words;

pub use forms::Form;
pub use laws::latest_starts_are_greatest;
pub use solution_timetables::solution_timetable;
pub use timetables::{timetable, vehicle_timetable};
