//! The problem of a text in Solomon's format: a request with one stop for each customer.
ghost use Rattle.std.specs.Prelude.{◌≡◌, [], IfErr, IfOk, OnOk, map};
ghost use Rattle.std.specs.List.{AllByRecursion};
ghost use Rattle.instance_read.specs.Faults.{out_of_memory};
ghost use Rattle.instance_read.specs.Solomon.{single_of, singles_problem};
ghost use Rattle.instance_read.specs.Tables.{AreLoads, AreTasks, AscendsFrom, HeaderKeepsLimits, IsCustomer};

use crate::ReadFault;
use crate::pairs::{last_task, problem_without_requests};
use crate::put::put_request;
use crate::tasks::{FleetLine, Task};
use plan_types::{Problem, Request};
use std::alloc::{AllocError, Global};

/// Returns the problem of a header, a depot and customers, each of whom is a request of its own.
pub fn problem_of_singles(
    alloc: Global,
    header: FleetLine,
    depot: &Task,
    customers: &[Task],
) -> Result<Problem, ReadFault>
    requires header { HeaderKeepsLimits header }
    requires tasks { AreTasks depot.now customers.now }
    requires loads { AreLoads customers.now }
    ensures ok { IfOk result (λ problem. problem
        ≡ singles_problem header.fleet header.capacity depot.now customers.now) }
    ensures err { IfErr result (λ fault. fault ≡ out_of_memory) }
{
    let mut problem = problem_without_requests(alloc, header, depot);
    put_singles(&mut problem, customers)?;
    problem.set_next_number(last_task(depot, customers).stop.number + 1);
    Ok(problem)
}

// Adds a request for each customer.
// This is a function of its own so that the loop over the lines keeps its numbers in registers.
#[inline(never)]
fn put_singles(problem: &mut Problem, customers: &[Task]) -> Result<(), AllocError>
    requires empty { problem.old.requests ≡ [] }
    requires valid { AllByRecursion IsCustomer customers.now }
    requires loads { AreLoads customers.now }
    requires ascending { AscendsFrom 0 customers.now }
    ensures { OnOk result (problem.new ≡ record problem.old {
      requests = map single_of customers.now;
      next_number = problem.new.next_number;
    }) }
{
    // With room for all requests, none has to be moved.
    problem.requests.reserve(customers.len())?;
    for customer in customers {
        put_request(problem, Request::Single(customer.stop))?;
    }
    Ok(())
}
