//! The problem that a `.vrp` text spells, from the data of its lines.
//!
//! In a text without a fault, each section has exactly one line for each node. The definitions take the first
//! line with the node, which is that one.
ghost use Rattle.std.specs.Prelude.{◌≡◌, ◌<◌, ◌≤◌, ◌+◌, ◌-◌, IfOk, IfErr, OnOk, [], true, is_some, pos};
ghost use Rattle.plan_types.specs.Instance.{IsInstance, new_instance};
ghost use Rattle.plan_types.specs.Limits.{IsDemand};
ghost use Rattle.plan_types.specs.declared.requests.Kind.TheVariants.{Vrp};
ghost use Rattle.plan_types.specs.declared.requests.Request.TheVariants.{Single};
ghost use Rattle.instance_read.specs.Drafts.{IsDraft, nodes_in};
ghost use Rattle.instance_read.specs.Faults.{out_of_memory};
ghost use Rattle.instance_read.specs.DraftLines.{customers_in, demand_at, drafted_problem, drafted_stop};

use crate::ReadFault;
use crate::entries::entry_of;
use crate::put::put_request;
use crate::vrp_draft::VrpDraft;
use plan_types::limits::MAX_TIME;
use plan_types::{Kind, Problem, Request, Stop};
use std::alloc::{AllocError, Global};

/// Returns the problem of a text without faults. Node 1 is the depot, and each other node is a customer with
/// its demand.
pub fn problem_of(alloc: Global, draft: &VrpDraft) -> Result<Problem, ReadFault>
    requires draft { IsDraft draft.now }
    requires announced { is_some draft.now.nodes ≡ true }
    ensures ok { IfOk result (λ p. p ≡ drafted_problem draft.now) }
    ensures err { IfErr result (λ fault. fault ≡ out_of_memory) }
{
    let mut problem = problem_without_customers(alloc, draft);
    put_customers(&mut problem, draft)?;
    Ok(problem)
}

fn problem_without_customers(alloc: Global, draft: &VrpDraft) -> Problem
    requires draft { IsDraft draft.now }
    requires announced { is_some draft.now.nodes ≡ true }
    ensures { let problem = drafted_problem draft.now in
        result ≡ new_instance Vrp problem.depot problem.capacity problem.fleet }
{
    let depot = node_stop(draft, 0, 0);
    let capacity = draft.capacity.unwrap_or(0);
    match Problem::new(alloc, Kind::Vrp, depot, capacity, draft.node_count() - 1) {
        Ok(problem) => problem,
        Err(_) => unreachable!(),
    }
}

// A function of its own, so that the loop over the lines keeps its numbers in registers.
#[inline(never)]
fn put_customers(problem: &mut Problem, draft: &VrpDraft) -> Result<(), AllocError>
    requires draft { IsDraft draft.now }
    requires announced { is_some draft.now.nodes ≡ true }
    requires empty { problem.old.requests ≡ [] }
    requires next { problem.old.next_number ≡ 1 }
    ensures { OnOk result (problem.new ≡ record problem.old {
      requests = customers_in draft.now (nodes_in draft.now - 1);
      next_number = nodes_in draft.now;
    }) }
{
    // With room for all requests, none has to be moved.
    problem.requests.reserve(draft.node_count() as usize - 1)?;
    for number in 1..draft.node_count() {
        put_request(problem, customer(draft, number))?;
    }
    Ok(())
}

fn customer(draft: &VrpDraft, number: u32) -> Request
    requires { IsDraft draft.now }
    ensures { result ≡ Single (drafted_stop draft.now (demand_at draft.now number) number) }
{
    let demand = entry_of(&draft.demands, number).unwrap_or(0);
    Request::Single(node_stop(draft, number, demand))
}

// Returns node n+1 as stop n, with coordinates times the scale.
fn node_stop(draft: &VrpDraft, number: u32, demand: i32) -> Stop
    requires { IsDraft draft.now }
    ensures { result ≡ drafted_stop draft.now demand number }
{
    let (x, y) = entry_of(&draft.coordinates, number).unwrap_or((0, 0));
    Stop {
        number,
        x: draft.scale.times_signed(x),
        y: draft.scale.times_signed(y),
        demand,
        earliest: 0,
        // CVRP has no time windows.
        latest: MAX_TIME,
        service: 0,
    }
}
