//! The pairs that tasks form: a pickup and a delivery that name each other, with demands that cancel out.
//!
//! A table holds, at each task's number, the place of the task in the list. So finding a task needs no search.
ghost use Rattle.std.specs.Prelude.{◌≡◌, ◌+◌, ◌<◌, ◌≤◌, ℕ, [], All, IfErr, IfOk, IfSome, OnOk, None, Some, find, length};
ghost use Rattle.std.specs.List.{AllByRecursion};
ghost use Rattle.std.specs.Option.{option_copied, option_map};
ghost use Rattle.plan_types.specs.Instance.{IsInstance, IsTaken, new_instance, with_request};
ghost use Rattle.plan_types.specs.Limits.{IsVisit};
ghost use Rattle.plan_types.specs.declared.limits.TheConstants.{MAX_STOP_NUMBER};
ghost use Rattle.plan_types.specs.declared.requests.Kind.TheVariants.{LiLim};
ghost use Rattle.plan_types.specs.Request.{IsRequest, request_name};
ghost use Rattle.instance_read.specs.Lilim.{depot_from, problem_from};
ghost use Rattle.instance_read.specs.Pairs.{find_task, is_mismatched, is_uneven, is_wrong_delivery, is_wrong_pickup, last_number, pair_of, pairs_of};
ghost use Rattle.instance_read.specs.Tables.{ArePaired, AreTasks, HeaderKeepsLimits, IsCustomer, IsTable, AscendsFrom, ReportsMismatch};

use crate::entries::entry_of;
use crate::put::put_request;
use crate::tasks::{FleetLine, Task};
use crate::{ReadFault, ReadFaultKind};
use plan_types::{Kind, Problem, PutFault, Request, Stop};
use std::alloc::{AllocError, Global};

/// Returns the problem of a header, a depot and customers, if each customer is half of a pair.
pub fn pair_up(
    alloc: Global,
    header: FleetLine,
    depot: &Task,
    customers: &[Task],
) -> Result<Problem, ReadFault>
    requires header { HeaderKeepsLimits header }
    requires tasks { AreTasks depot.now customers.now }
    ensures ok { IfOk result (λ problem. ArePaired customers.now
        × (problem ≡ problem_from header.fleet header.capacity depot.now customers.now)) }
    ensures err { IfErr result (ReportsMismatch customers.now) }
{
    let table = task_table(alloc, customers)?;
    if let Some(task) = first_mismatched(customers, &table) {
        return Err(ReadFault {
            line: task.line,
            kind: ReadFaultKind::PairMismatch,
        });
    }
    let mut problem = problem_without_requests(alloc, header, depot);
    put_pairs(&mut problem, customers, &table)?;
    problem.set_next_number(last_task(depot, customers).stop.number + 1);
    Ok(problem)
}

// Returns a length greater than the numbers of all tasks.
fn table_len(tasks: &[Task]) -> usize
    ensures { All (λ task. task.stop.number < result) tasks.now }
{
    let mut len = 0;
    for task in tasks {
        len = len.max(task.stop.number as usize + 1);
    }
    len
}

// Returns the places of the tasks by number, so that finding a task needs no search.
fn task_table(alloc: Global, tasks: &[Task]) -> Result<Vec<Option<u32>>, AllocError>
    requires { length tasks.now ≤ MAX_STOP_NUMBER }
    ensures { IfOk result (λ table. IsTable tasks.now table.items) }
{
    let mut table = vec![in alloc; None; table_len(tasks)]?;
    for place in (0..tasks.len()).rev() {
        table[tasks[place].stop.number as usize] = Some(place as u32);
    }
    Ok(table)
}

fn task_at<'a>(tasks: &'a [Task], table: &[Option<u32>], number: u32) -> Option<&'a Task>
    requires { IsTable tasks.now table.now }
    ensures { option_copied result ≡ find_task number tasks.now }
{
    let place = entry_of(table, number)?;
    tasks.get(place as usize)
}

// Returns the first task that is not half of a pair.
fn first_mismatched(tasks: &[Task], table: &[Option<u32>]) -> Option<Task>
    requires { IsTable tasks.now table.now }
    ensures { result ≡ find (is_mismatched tasks.now) tasks.now }
{
    for task in tasks {
        if is_mismatched(tasks, table, task) {
            return Some(*task);
        }
    }
    None
}

fn is_mismatched(tasks: &[Task], table: &[Option<u32>], task: &Task) -> bool
    requires { IsTable tasks.now table.now }
    ensures { result ≡ is_mismatched tasks.now task.now }
{
    match (task.pickup == 0, task.delivery == 0) {
        (true, false) => match task_at(tasks, table, task.delivery) {
            Some(delivery) => is_wrong_delivery(task, delivery),
            None => true,
        },
        (false, true) => match task_at(tasks, table, task.pickup) {
            Some(pickup) => is_wrong_pickup(task, pickup),
            None => true,
        },
        _ => true,
    }
}

fn is_uneven(a: &Task, b: &Task) -> bool
    ensures { result ≡ is_uneven a.now b.now }
{
    i64::from(a.stop.demand) + i64::from(b.stop.demand) != 0
}

fn is_wrong_delivery(pickup: &Task, delivery: &Task) -> bool
    ensures { result ≡ is_wrong_delivery pickup.now delivery.now }
{
    delivery.pickup != pickup.stop.number || is_uneven(pickup, delivery) || pickup.stop.demand < 0
}

fn is_wrong_pickup(delivery: &Task, pickup: &Task) -> bool
    ensures { result ≡ is_wrong_pickup delivery.now pickup.now }
{
    pickup.delivery != delivery.stop.number || is_uneven(delivery, pickup)
}

/// Returns the problem of a header and a depot, still without requests.
pub fn problem_without_requests(alloc: Global, header: FleetLine, depot: &Task) -> Problem
    requires header { HeaderKeepsLimits header }
    requires first { depot.now.stop.number ≡ 0 }
    requires visit { IsVisit depot.now.stop }
    ensures { (result ≡ new_instance LiLim (depot_from depot.now) header.capacity header.fleet)
        × IsInstance result }
{
    let stop = Stop {
        number: 0,
        demand: 0,
        service: 0,
        ..depot.stop
    };
    match Problem::new(alloc, Kind::LiLim, stop, header.capacity, header.fleet) {
        Ok(problem) => problem,
        Err(_) => unreachable!(),
    }
}

// Adds a request for each pickup. The tasks are those of a text without faults.
// This is a function of its own so that the loop over the lines keeps its numbers in registers.
#[inline(never)]
fn put_pairs(problem: &mut Problem, tasks: &[Task], table: &[Option<u32>]) -> Result<(), AllocError>
    requires empty { problem.old.requests ≡ [] }
    requires table { IsTable tasks.now table.now }
    requires valid { AllByRecursion IsCustomer tasks.now }
    requires ascending { AscendsFrom 0 tasks.now }
    requires paired { ArePaired tasks.now }
    ensures { OnOk result (problem.new ≡ record problem.old {
      requests = pairs_of tasks.now;
      next_number = problem.new.next_number;
    }) }
{
    // With room for all requests, none has to be moved.
    problem.requests.reserve(tasks.len() / 2)?;
    for task in tasks {
        if let Some(request) = pair_of(tasks, table, task) {
            put_request(problem, request)?;
        }
    }
    Ok(())
}

// Returns the request of a pickup and the delivery that it names.
fn pair_of(tasks: &[Task], table: &[Option<u32>], task: &Task) -> Option<Request>
    requires { IsTable tasks.now table.now }
    ensures { option_map (λ r. (task.now.stop.number, r)) result ≡ pair_of tasks.now task.now }
{
    if task.pickup != 0 {
        return None;
    }
    let delivery = task_at(tasks, table, task.delivery)?;
    Some(Request::Pair(task.stop, delivery.stop))
}

/// Returns the last customer, or the depot if there is none.
pub fn last_task<'a>(depot: &'a Task, customers: &'a [Task]) -> &'a Task
    ensures { result.now.stop.number ≡ last_number depot.now customers.now }
{
    customers.last().unwrap_or(depot)
}
