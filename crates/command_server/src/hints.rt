//! Messages for people, logged beside the answer to an operation: the requests that `build` leaves out, the
//! reason why a request can't be withdrawn, and a vehicle whose pin no route of a solution begins with. No
//! contract mentions them. A message is left out if its memory can't be allocated.

use command_core::{Command, Job, Refusal, State, unplanned_names};
use command_text::Answer;
use log::{Log, info};
use plan_types::{Problem, Request, Route};
use recover::Session;
use sector_disk::Sectors;
use std::alloc::Global;
use std::fmt;
use std::fmt::{Display, Formatter};
use vehicle_assignment::AssignmentFault;

/// A message that may be logged beside the answer to an operation.
#[derive(Clone, Copy)]
pub(crate) enum Hint {
    Nothing,
    /// The requests that `build` leaves out.
    UnplannedRequests,
    /// The reason why the request with this name can't be withdrawn.
    Withdrawal(u32),
}

impl Hint {
    /// Returns the message that may be logged for this operation.
    pub(crate) fn of(command: &Command) -> Hint {
        match command {
            Command::Build => Hint::UnplannedRequests,
            Command::Withdraw(name) => Hint::Withdrawal(*name),
            _ => Hint::Nothing,
        }
    }
}

/// Logs the message if it applies to the answer.
pub(crate) fn log_hint<L: Log, D: Sectors>(
    rt: &L,
    alloc: Global,
    session: &Session<D>,
    hint: Hint,
    answer: Answer,
) {
    let State::Loaded(job) = session.state() else {
        return;
    };
    match (hint, answer) {
        (Hint::UnplannedRequests, Answer::Ok) => log_unplanned(rt, alloc, job),
        (Hint::Withdrawal(name), Answer::Refused(Refusal::NoSuchRequest)) => {
            log_pickup(rt, &job.problem, name);
        }
        (Hint::Withdrawal(name), Answer::Refused(Refusal::Pinned)) => log_pin(rt, job, name),
        _ => {}
    }
}

/// Logs the vehicle whose pin no route of the solution begins with.
pub(crate) fn log_unassigned<L: Log>(rt: &L, why: AssignmentFault) {
    if let AssignmentFault::PinWithoutRoute(vehicle) = why {
        info!(rt; "adopt: no remaining route begins with the pin of vehicle {vehicle}");
    }
}

// Names with a blank before each.
#[derive(Drop)]
struct Names<'a>(&'a [u32]);

impl<'a> Display for Names<'a> {
    fn fmt<W: fmt::Write>(&self, f: &mut Formatter<W>) -> fmt::Result {
        for name in self.0 {
            write!(f, " {name}")?;
        }
        Ok(())
    }
}

// Logs the requests that are in no route, as `solve` prints them.
fn log_unplanned<L: Log>(rt: &L, alloc: Global, job: &Job) {
    let Ok(names) = unplanned_names(alloc, &job.problem, job.plan.routes.as_slice()) else {
        return;
    };
    if names.is_empty() {
        return;
    }
    let count = names.len();
    let listed = Names(&names);
    info!(rt; "unplanned {count}:{listed}");
}

// Logs the request whose delivery this stop is, if there is one.
fn log_pickup<L: Log>(rt: &L, problem: &Problem, number: u32) {
    for (name, request) in problem.requests.iter() {
        if is_delivery(request, number) {
            info!(rt; "withdraw {number}: stop {number} is the delivery of request {name}");
            return;
        }
    }
}

fn is_delivery(request: &Request, number: u32) -> bool {
    match request {
        Request::Single(_) => false,
        Request::Pair(_, delivery) => delivery.number == number,
    }
}

// Logs the vehicle whose pin has a stop of the request.
fn log_pin<L: Log>(rt: &L, job: &Job, name: u32) {
    let Some(request) = job.problem.requests.get(&name) else {
        return;
    };
    for (index, pin) in job.pins.routes.as_slice().iter().enumerate() {
        if has_stop_of(pin, request) {
            let vehicle = index as u64 + 1;
            info!(rt; "withdraw {name}: a stop of this request is pinned to vehicle {vehicle}");
            return;
        }
    }
}

fn has_stop_of(pin: &Route, request: &Request) -> bool {
    let stops = pin.as_slice();
    match request {
        Request::Single(stop) => stops.contains(&stop.number),
        Request::Pair(pickup, delivery) => {
            stops.contains(&pickup.number) || stops.contains(&delivery.number)
        }
    }
}
